//! Files that words name.
ghost use Rattle.std.specs.Prelude.{◌≡◌, IfOk, map, string_bytes};
ghost use Rattle.rb_outside.specs.Started.{stored_files};
ghost use Rattle.rb_web.specs.Asked.{files_named as named};

use rb_base::Memory;
use std::alloc::Global;

/// The files that stand under the words behind the first, as many as there are texts for.
pub fn files_named(
    alloc: Global,
    words: &[String],
    texts: &[&[u8]],
) -> Result<Vec<(Vec<u8>, Vec<u8>)>, Memory>
    ensures { IfOk result (λ files. stored_files files.items ≡ named (map string_bytes words.now) (map (λ text. text.now) texts.now)) }
{
    let mut files = Vec::new(alloc);
    let [_, names @ ..] = words else {
        return Ok(files);
    };
    for (name, text) in names.iter().zip(texts) {
        let file = (
            Vec::from_slice(alloc, name.as_bytes())?,
            Vec::from_slice(alloc, text)?,
        );
        files.push(file)?;
    }
    Ok(files)
}
