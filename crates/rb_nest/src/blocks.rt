//! The recovery blocks around a statement.

ghost use Rattle.std.specs.Prelude.{◌≡◌, nat_lt, ◌+◌};
ghost use Rattle.std.specs.List.{list_all};
ghost use Rattle.rb_meaning.specs.Nesting.{is_converse};
ghost use Rattle.rb_nest.specs.Rules.{conversations_around};
ghost use Rattle.rb_nest.specs.Blocks.{blocks_of, numbers_of};
ghost use Rattle.rb_nest.specs.Answers.{first_answer};

use rb_base::MOST_NESTED;
use rb_syntax::Name;

/// The conversation of a recovery block, with its number.
#[derive(Clone, Copy)]
pub struct Joined<'a> {
    pub name: Name<'a>,
    pub number: usize,
}

/// The recovery blocks around a statement, the innermost first, each with its conversation if it has one.
#[derive(Clone, Copy)]
pub enum Blocks<'s, 'a> {
    None,
    Within(Option<Joined<'a>>, &'s Blocks<'s, 'a>),
}

impl Blocks<'_, '_> {
    /// The innermost conversation, by its number.
    pub fn innermost(&self) -> Option<usize>
        ensures { result ≡ first_answer (λ number. number) (numbers_of self.now) }
    {
        let mut rest = self;
        'around: while let Blocks::Within(joined, around) = rest {
            if let Some(joined) = joined {
                return Some(joined.number);
            }
            rest = around;
        }
        None
    }

    /// Whether each is a `converse`.
    pub fn all_converse(&self) -> bool
        ensures { result ≡ list_all is_converse (blocks_of self.now) }
    {
        let mut rest = self;
        'around: while let Blocks::Within(joined, around) = rest {
            if joined.is_none() {
                return false;
            }
            rest = around;
        }
        true
    }

    /// Whether one conversation more may stand inside those around.
    pub fn has_room(&self) -> bool
        ensures { result ≡ nat_lt (conversations_around (blocks_of self.now)) MOST_NESTED }
    {
        let mut conversations = 0;
        let mut rest = self;
        'around: while let Blocks::Within(joined, around) = rest {
            if joined.is_some() {
                conversations += 1;
                if conversations == MOST_NESTED {
                    return false;
                }
            }
            rest = around;
        }
        true
    }
}
