//! What is left of a process's text: slices of the tree, with the ends of blocks and calls between them. The next entry stands last.

ghost use Rattle.std.specs.Prelude.{◌≡◌, ◌∷◌, reverse, OnOk};
ghost use Rattle.rb_meaning.specs.Environment.{rest_of};
ghost use Rattle.rb_walk.specs.Items.{items_of, IsFirst};

use rb_base::Memory;
use rb_syntax::{Recovery, Statement};

/// An entry of what is left of a text.
#[derive(Clone, Copy)]
pub enum Item<'t, 'a> {
    /// Statements that stand one after another; none of them may be left.
    Statements(&'t [Statement<'a>]),
    Start(&'t Recovery<'a>),
    Test(&'t Recovery<'a>),
    EndBlock,
    EndCall,
}

/// What stands first.
#[derive(Clone, Copy)]
pub enum First<'t, 'a> {
    Nothing,
    Statement(&'t Statement<'a>),
    Start(&'t Recovery<'a>),
    Test(&'t Recovery<'a>),
    BlockEnd,
    CallEnd,
}

/// What stands first in what is left.
pub fn first_of<'t, 'a>(items: &[Item<'t, 'a>]) -> First<'t, 'a>
    ensures { IsFirst (items_of (reverse items.now)) result }
{
    let mut left = items.len();
    while left > 0 {
        left -= 1;
        match items[left] {
            Item::Statements([]) => {}
            Item::Statements([statement, ..]) => return First::Statement(statement),
            Item::Start(block) => return First::Start(block),
            Item::Test(block) => return First::Test(block),
            Item::EndBlock => return First::BlockEnd,
            Item::EndCall => return First::CallEnd,
        }
    }
    First::Nothing
}

/// Takes away what stands first, if anything is left.
pub fn skip(items: &mut Vec<Item<'_, '_>>)
    ensures { items_of (reverse items.new.items) ≡ rest_of (items_of (reverse items.old.items)) }
{
    'items: while let Some(item) = items.pop() {
        if let Item::Statements(statements) = item {
            if let [_, rest @ ..] = statements {
                // There is room for it, where the entry was.
                items.push(Item::Statements(rest)).unwrap();
                return;
            }
        } else {
            return;
        }
    }
}

/// An entry comes first.
pub fn put_first<'t, 'a>(items: &mut Vec<Item<'t, 'a>>, item: Item<'t, 'a>) -> Result<(), Memory>
    ensures { OnOk result (items_of (reverse items.new.items) ≡ items_of (item.entry ∷ reverse items.old.items)) }
{
    items.push(item)?;
    Ok(())
}
