//! All that changed of a process.

ghost use Rattle.std.specs.Prelude.{◌≡◌, ◌-◌, ℕ, ◌<◌, List, length, option_copied};
ghost use Rattle.rb_outside.specs.Puts.{Puts};
ghost use Rattle.rb_trace.specs.Fitting.{ProcessFits};
ghost use Rattle.rb_trace.specs.Naming.{process_naming};
ghost use Rattle.rb_world.specs.World.{last_of};
ghost use Rattle.rb_changes.specs.Changes.{process_changes};
ghost use Rattle.rb_changes.specs.Noted.{IsCountable, noted_of, shown_with};

use crate::held::{write_holding, write_standing};
use rb_base::ProcessNames;
use rb_changes::levels::write_levels;
use rb_changes::noted::ProcessWas;
use rb_changes::variables::write_variables;
use rb_outside::{Failed, Sink};

/// Writes what changed of a process since it was seen last: its variables, its levels, the lines that it holds, the last of which is given,
/// and how it stands.
pub fn write_process<'w, S: Sink>(
    out: &mut S,
    turn: u32,
    process: &'w ProcessNames,
    was: &ProcessWas,
    now: &ProcessWas,
    last: Option<&'w [u8]>,
) -> Result<(), Failed>
    requires before { ProcessFits process.now was.now.words.items }
    requires after { ProcessFits process.now now.now.words.items }
    requires then { IsCountable was.now }
    requires countable { IsCountable now.now }
    ensures { (held : List (List ℕ)) → length held ≡ now.now.held → option_copied last.entry ≡ last_of held
        → Puts (process_changes turn (process_naming process.now) (noted_of was.now) (shown_with held now.now)) (S.written out.old)
        (S.written out.new) (S.faults out.old) (S.faults out.new) result }
{
    let name = process.name.as_bytes();
    write_variables(out, turn, name, &process.variables, &was.words, &now.words)?;
    write_levels(out, turn, name, &was.levels, &now.levels)?;
    write_holding(out, turn, name, was.held, now.held, last)?;
    write_standing(out, turn, name, was.stand, now.stand)
}
