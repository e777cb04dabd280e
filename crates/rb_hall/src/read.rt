//! A file that is read in pieces.
ghost use Rattle.std.specs.Prelude.{◌≡◌, ◌+◌, ◌≤◌, [], drop, IfOk, OnOk, OnErr, vec_len};
ghost use Rattle.rb_outside.specs.Outside.{HasMore, failed_once};
ghost use Rattle.rb_hall.specs.Read.{OnUnread, HasFrontIn, StandsAtIn, ReadOn, PassedOn, WasReadIn, StopsForFaultIn, StopsForMemory};
ghost use Rattle.rb_hall.specs.Answers.{piece_bytes};

use rb_outside::Shelf;
use std::alloc::Global;

/// How many bytes a piece has at most.
const PIECE: usize = 4096;

/// Why a file was not read.
#[derive(Clone, Copy)]
pub enum Unread {
    Fault,
    Memory,
}

/// Reads a file to its end, or until it is above so many bytes, by less than a piece of 4,096. The file is started once;
/// after a call of the shelf that failed there is no other.
pub fn read_file<F: Shelf>(
    alloc: Global,
    shelf: &mut F,
    name: &str,
    most: usize,
) -> Result<Vec<u8>, Unread>
    ensures files { F.files shelf.new ≡ F.files shelf.old }
    ensures ok { IfOk result (λ bytes. WasReadIn (F.files shelf.old) name.now most bytes.items (F.starts shelf.old) (F.starts shelf.new)) }
    ensures quiet { OnOk result ((F.faults shelf.new).count ≡ (F.faults shelf.old).count) }
    ensures err { OnUnread result
        (StopsForFaultIn (F.files shelf.old) name.now most (F.starts shelf.old) (F.starts shelf.new) (F.faults shelf.old) (F.faults shelf.new))
        (StopsForMemory (F.files shelf.old) name.now most (F.starts shelf.old) (F.starts shelf.new) (F.faults shelf.old) (F.faults shelf.new)) }
{
    match shelf.start(name) {
        Ok(()) => read_started(alloc, shelf, name, most),
        Err(_) => Err(Unread::Fault),
    }
}

// Reads a file that was just started. The name is seen by the contract alone.
fn read_started<F: Shelf>(
    alloc: Global,
    shelf: &mut F,
    _name: &str,
    most: usize,
) -> Result<Vec<u8>, Unread>
    requires { HasFrontIn (F.files shelf.old) _name.now [] (drop 1 (F.starts shelf.old)) (F.starts shelf.old) }
    ensures files { F.files shelf.new ≡ F.files shelf.old }
    ensures ok { IfOk result (λ bytes. WasReadIn (F.files shelf.old) _name.now most bytes.items (drop 1 (F.starts shelf.old)) (F.starts shelf.new)) }
    ensures quiet { OnOk result ((F.faults shelf.new).count ≡ (F.faults shelf.old).count) }
    ensures err { OnErr result (StandsAtIn (F.files shelf.old) _name.now (most + piece_bytes) (drop 1 (F.starts shelf.old)) (F.starts shelf.new)) }
    ensures failed { OnUnread result (F.faults shelf.new ≡ failed_once (F.faults shelf.old))
        ((F.faults shelf.new).count ≡ (F.faults shelf.old).count) }
{
    let mut bytes = Vec::new(alloc);
    while bytes.len() <= most {
        let n = read_piece(shelf, &mut bytes)?;
        if n == 0 {
            return Ok(bytes);
        }
    }
    Ok(bytes)
}

// Appends the next piece, and answers its length, which is 0 at the file's end alone.
fn read_piece<F: Shelf>(shelf: &mut F, bytes: &mut Vec<u8>) -> Result<usize, Unread>
    requires { HasMore (F.starts shelf.old) }
    ensures files { F.files shelf.new ≡ F.files shelf.old }
    ensures grown { IfOk result (λ n. vec_len bytes.new ≡ vec_len bytes.old + n) }
    ensures short { IfOk result (λ n. n ≤ piece_bytes) }
    ensures ok { IfOk result (λ n. ReadOn (F.files shelf.old) (F.starts shelf.old) (F.starts shelf.new) bytes.old.items bytes.new.items n) }
    ensures quiet { OnOk result ((F.faults shelf.new).count ≡ (F.faults shelf.old).count) }
    ensures failed { OnUnread result (F.faults shelf.new ≡ failed_once (F.faults shelf.old))
        ((F.faults shelf.new).count ≡ (F.faults shelf.old).count) }
    ensures stays { OnUnread result (F.starts shelf.new ≡ F.starts shelf.old)
        (PassedOn (F.files shelf.old) (F.starts shelf.old) (F.starts shelf.new) bytes.old.items) }
{
    let mut buffer = [0u8; PIECE];
    let n = match shelf.piece(&mut buffer) {
        Ok(n) => n,
        Err(_) => return Err(Unread::Fault),
    };
    match bytes.extend_from_slice(&buffer[..n]) {
        Ok(()) => Ok(n),
        Err(_) => Err(Unread::Memory),
    }
}
