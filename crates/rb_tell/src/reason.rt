//! Why a text was refused, in words, by its fault, its bytes as they were read, and what is known beside.
ghost use Rattle.std.specs.Prelude.{◌≡◌, ◌≤◌, false, length, IfOk, IsTrue, option_map};
ghost use Rattle.rb_tell.specs.Reasons.{IsReasonFor, IsShort, IsStuckReason, missing_told, names_of};

use rb_base::{FaultName, MOST_BYTES, Memory, Names};
use rb_commands::Why;
use rb_hall::{Fault, Refusal};
use rb_why::{file_reason, long_reason, source_reason, stuck_reason, text_reason};
use std::alloc::Global;

/// Why a text of a file of this name was refused, unless memory is wanting. A text that is too long is not looked at.
pub fn reason_of(alloc: Global, file: &[u8], refusal: &Refusal<'_, Why>) -> Result<Vec<u8>, Memory>
    requires { IsShort refusal.now.fault refusal.now.text.now }
    ensures { IfOk result (λ told. IsReasonFor file.now refusal.now told.items) }
{
    match refusal.fault {
        Fault::Source(fault) => source_reason(alloc, file, refusal.text, fault),
        Fault::Text(fault) => text_reason(alloc, file, refusal.text, names_known(refusal), fault),
        Fault::Stuck(_) => stuck_told(alloc, file, refusal),
        Fault::NoImage => file_reason(alloc, file, FaultName::I1),
        Fault::Unsound => file_reason(alloc, file, FaultName::I2),
        Fault::Long => long_reason(alloc, file),
        Fault::NoOutcome(_) => missing_reason(alloc, file),
    }
}

/// Whether what was read is no longer than a text may be, or is not looked at for the reason.
pub fn is_short(refusal: &Refusal<'_, Why>) -> bool
    ensures short { IsTrue result → IsShort refusal.now.fault refusal.now.text.now }
    ensures long { result ≡ false → IsShort refusal.now.fault refusal.now.text.now → ⊥ }
{
    match refusal.fault {
        Fault::NoImage | Fault::Unsound | Fault::Long | Fault::NoOutcome(_) => true,
        Fault::Source(_) | Fault::Text(_) | Fault::Stuck(_) => refusal.text.len() <= MOST_BYTES,
    }
}

// That the program in a file has no outcome of the number that was asked for.
fn missing_reason(alloc: Global, file: &[u8]) -> Result<Vec<u8>, Memory>
    ensures { IfOk result (λ told. told.items ≡ missing_told file.now) }
{
    let mut told = Vec::new(alloc);
    told.extend_from_slice(file)?;
    told.extend_from_slice(b": it has no outcome of this number\nnext: rblview explore ")?;
    told.extend_from_slice(file)?;
    told.extend_from_slice(b"\n")?;
    Ok(told)
}

// The names of the program, where they are known.
fn names_known<'r>(refusal: &'r Refusal<'_, Why>) -> Option<&'r Names>
    ensures { option_map (λ names. names.now) result ≡ names_of refusal.now.why }
{
    match &refusal.why {
        Some(Why::Names(names)) => Some(names),
        _ => None,
    }
}

// Why a plain run is stuck; nothing more than the fault's name where that is not known.
fn stuck_told(alloc: Global, file: &[u8], refusal: &Refusal<'_, Why>) -> Result<Vec<u8>, Memory>
    requires { length refusal.now.text.now ≤ MOST_BYTES }
    ensures { IfOk result (λ told. IsStuckReason file.now refusal.now.text.now refusal.now.why told.items) }
{
    match &refusal.why {
        Some(Why::Stuck(found, names)) => {
            stuck_reason(alloc, file, refusal.text, names, found.kept, found.cause)
        }
        _ => file_reason(alloc, file, FaultName::V4),
    }
}
