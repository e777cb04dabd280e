//! Names and lists of one, for a test whose subject looks names up.

ghost use Rattle.std.specs.Prelude.{◌≡◌, [], ◌∷◌, IfOk};

use rb_base::{Memory, ProcessNames, Text};
use std::alloc::Global;

/// A list of one element.
pub(crate) fn only<T: Drop>(alloc: Global, value: T) -> Result<Vec<T>, Memory>
    ensures { IfOk result (λ list. list.items ≡ value ∷ []) }
{
    let mut list = Vec::with_capacity(alloc, 1)?;
    list.push_reserved(value);
    Ok(list)
}

/// A list of one text.
pub(crate) fn only_text(alloc: Global, text: &[u8]) -> Result<Vec<Text>, Memory>
    ensures { IfOk result (λ list. list.items ≡ text.now ∷ []) }
{
    let text = Text::from_slice(alloc, text)?;
    only(alloc, text)
}

/// A process with this name and no variables.
pub(crate) fn process(alloc: Global, name: &[u8]) -> Result<ProcessNames, Memory> {
    Ok(ProcessNames {
        name: Text::from_slice(alloc, name)?,
        variables: Vec::new(alloc),
    })
}
