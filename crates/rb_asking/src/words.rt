//! The words of the command line.
ghost use Rattle.std.specs.Prelude.{◌≡◌, ℕ, List, [], ◌∷◌, ◌++◌, map, drop, IfOk, OnOk, OnErr, string_bytes};
ghost use Rattle.std.specs.Vec.Iter.{into_iter_items};

use rb_base::Memory;
use std::alloc::Global;
use std::env::Args;
use std::marker::Model;

/// The words after the program's name. Contracts see the list of the words, each a list of bytes.
#[derive(Drop)]
pub struct Words {
    alloc: Global,
    words: Vec<String>,
}

impl Model for Words {
    ghost Value = { List (List ℕ) };

    ghost view = { λ w. map string_bytes w.words.items };
}

impl Words {
    /// No words. It takes no memory.
    pub fn new(alloc: Global) -> Self
        ensures { result ≡ [] }
    {
        Words {
            alloc,
            words: Vec::new(alloc),
        }
    }

    /// All the words that the system gave but the first, which is the program's name.
    pub fn after_name(alloc: Global, given: Args) -> Result<Self, Memory>
        ensures { IfOk result (λ words. words ≡ drop 1 (map string_bytes (into_iter_items given))) }
    {
        let mut given = given;
        let _name = given.next();
        Ok(Words {
            alloc,
            words: rest_of(alloc, given)?,
        })
    }

    /// Adds a word behind the others. Where memory is wanting, the list keeps the words that it had.
    pub fn push(&mut self, word: &str) -> Result<(), Memory>
        ensures ok { OnOk result (self.new ≡ self.old ++ word.now ∷ []) }
        ensures err { OnErr result (self.new ≡ self.old) }
    {
        let word = String::from_str(self.alloc, word)?;
        self.words.push(word)?;
        Ok(())
    }

    /// The words in order.
    pub fn list(&self) -> &[String]
        ensures { map string_bytes result.now ≡ self.now }
    {
        self.words.as_slice()
    }
}

// All the words that are left.
fn rest_of(alloc: Global, given: Args) -> Result<Vec<String>, Memory>
    ensures { IfOk result (λ words. words.items ≡ into_iter_items given) }
{
    let mut given = given;
    let mut words = Vec::new(alloc);
    while let Some(word) = given.next() {
        words.push(word)?;
    }
    Ok(words)
}
