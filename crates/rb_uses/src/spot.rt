//! Where a statement stands.

ghost use Rattle.std.specs.Prelude.{◌≡◌, map};
ghost use Rattle.rb_syntax.specs.Plain.{tree};
ghost use Rattle.rb_meaning.specs.Groups.{conversation_of};
ghost use Rattle.rb_nest.specs.Blocks.{blocks_of, numbers_of};

use crate::usage::{Deed, Use};
use rb_nest::Blocks;
use rb_syntax::{Name, Program};

/// Where a statement stands: in which process of which program, whether in one of its procedures, and in which recovery blocks.
#[derive(Clone, Copy)]
pub(crate) struct Spot<'s, 'a> {
    pub(crate) program: &'s Program<'a>,
    pub(crate) process: usize,
    pub(crate) in_procedure: bool,
    pub(crate) around: &'s Blocks<'s, 'a>,
    ghost numbered: { numbers_of around.now ≡ map (conversation_of (tree program.now)) (blocks_of around.now) },
}

impl<'a> Spot<'_, 'a> {
    ghost use Rattle.std.specs.Prelude.{◌≡◌};
    ghost use Rattle.rb_syntax.specs.Plain.{identifier, tree};
    ghost use Rattle.rb_uses.specs.Memory.{deed_of, held, spot_of};
    ghost use Rattle.rb_uses.specs.Summary.{number_of_use, summary};

    /// The use of a name, by its number, at this spot.
    pub(crate) fn use_of(&self, name: Name<'a>, number: usize, deed: Deed) -> Use<'a>
        requires { number ≡ number_of_use (tree self.now.program.now) (deed_of deed) name.text.now }
        ensures { held result
            ≡ summary (tree self.now.program.now) (record { name = identifier name.entry; deed = deed_of deed; spot = spot_of self.now }) }
    {
        Use {
            name,
            number,
            deed,
            process: self.process,
            in_procedure: self.in_procedure,
            within: self.around.innermost(),
            all_converse: self.around.all_converse(),
            has_room: self.around.has_room(),
        }
    }
}
