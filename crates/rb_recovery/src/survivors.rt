//! The turns that survived: those that the links reach from the last kept turn of each process.

ghost use Rattle.std.specs.Prelude.{◌≡◌, ℕ, cond, map, reverse, IfOk};
ghost use Rattle.rb_proc.specs.Process.{Seen};
ghost use Rattle.rb_recovery.specs.Linked.{AreLinked};
ghost use Rattle.rb_recovery.specs.Parts.{world};
ghost use Rattle.rb_recovery.specs.Survivors.{is_wanted, next_wanted, reached, word_survivors};
ghost use Rattle.rb_recovery.specs.Worlds.{link_of};

use crate::links::Link;
use crate::parts::Parts;
use rb_base::{Kept, Memory};
use rb_proc::Proc;
use std::alloc::Global;
use std::sync::ledger::Ledger;

/// The turns that survived, in the order of their numbers; `Memory` if it is wanting, or if the links are not held.
pub fn survivors<L: Ledger>(alloc: Global, parts: &Parts<L>) -> Result<Vec<Kept>, Memory>
    requires { (t : ℕ) × AreLinked t (world parts.now) }
    ensures { IfOk result (λ kept. kept.items ≡ word_survivors (world parts.now)) }
{
    let Some(links) = parts.links.items() else {
        return Err(Memory);
    };
    let mut wanted = last_kept(alloc, &parts.procs)?;
    let mut kept = reach(alloc, links, &mut wanted)?;
    kept.reverse();
    Ok(kept)
}

// The last kept turn of each process.
fn last_kept<L: Ledger>(alloc: Global, procs: &[Proc<L>]) -> Result<Vec<u32>, Memory>
    ensures { IfOk result (λ turns. turns.items ≡ map (λ (one : Seen). one.process.state.last_kept) procs.now) }
{
    let mut turns = Vec::with_capacity(alloc, procs.len())?;
    for proc in procs {
        turns.push(proc.last_kept())?;
    }
    Ok(turns)
}

// The turns that links lead to from the wanted turn of each process, the newest first.
fn reach(alloc: Global, links: &[Link], wanted: &mut [u32]) -> Result<Vec<Kept>, Memory>
    ensures { IfOk result (λ kept. kept.items ≡ reached (map link_of (reverse links.now)) wanted.old) }
{
    let mut kept = Vec::with_capacity(alloc, links.len())?;
    for link in links.iter().rev() {
        if follow(wanted, link) {
            kept.push(Kept {
                turn: link.turn,
                process: link.process,
                alternate: link.alternate,
            })?;
        }
    }
    Ok(kept)
}

// Whether a link is the wanted one of its process; the turn before it is wanted then.
fn follow(wanted: &mut [u32], link: &Link) -> bool
    ensures wanted { result ≡ is_wanted wanted.old (link_of link.now) }
    ensures next { wanted.new ≡ cond result (next_wanted wanted.old (link_of link.now)) wanted.old }
{
    let process = link.process as usize;
    if wanted.get(process) != Some(&link.turn) {
        return false;
    }
    wanted[process] = link.before;
    true
}
