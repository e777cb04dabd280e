//! Tests of slots, at the limits and across the turn of the ring.

ghost use Rattle.std.specs.Prelude.{◌≡◌, ◌<◌, ◌≤◌, length, IfOk};

use rb_base::{MOST_CHANNEL_SIZE, MOST_CONNECTIONS, Memory};
use rb_mail::{Mail, Mails};
use std::alloc::Global;

// Whether slots of this number keep a value under an index, and under the index of its slot.
fn keeps_next(mail: &mut Mail, size: u32, index: u64, value: i64) -> bool
    requires { 0 < size }
{
    mail.put(index, value);
    mail.get(index) == value && mail.get(index % u64::from(size)) == value
}

// Whether so many slots keep three values, one after the other.
fn keeps_each(alloc: Global, size: u32) -> bool
    requires { 0 < size }
{
    let Ok(mut mail) = Mail::new(alloc, size) else {
        return false;
    };
    keeps_next(&mut mail, size, u64::MAX, i64::MIN)
        && keeps_next(&mut mail, size, u64::from(size) - 1, i64::MAX)
        && keeps_next(&mut mail, size, 1 << 40, 7)
}

// What three slots hold, once two and then a third value were put.
fn held(mail: &mut Mail) -> [[i64; 3]; 2] {
    mail.put(4, 40);
    mail.put(5, 50);
    let two = [mail.get(0), mail.get(1), mail.get(2)];
    mail.put(7, 70);
    [two, [mail.get(3), mail.get(4), mail.get(5)]]
}

fn hold_their_own(alloc: Global) -> bool {
    match Mail::new(alloc, 3) {
        Ok(mut mail) => held(&mut mail) == [[0, 40, 50], [0, 70, 50]],
        Err(_) => false,
    }
}

#[test]
fn slots_keep_values(rt: HostRuntime) {
    let alloc = rt.alloc();
    assert!(rt;
        keeps_each(alloc, 1)
            && keeps_each(alloc, 2)
            && keeps_each(alloc, 65_536)
            && hold_their_own(alloc)
    );
}

// So many channels of so many slots.
fn channels(alloc: Global, many: u32, size: u32) -> Result<Mails, Memory>
    requires { 0 < size }
    ensures { IfOk result (λ mails. length mails ≡ many) }
{
    let mut mails = Mails::with_room(alloc, many as usize)?;
    for _channel in 0..many {
        mails.add(alloc, size)?;
    }
    Ok(mails)
}

// Puts a value of its own into the last slot that each of so many channels has.
fn put_each(mails: &mut Mails, many: u32)
    requires { many ≤ length mails.old }
    ensures { length mails.new ≡ length mails.old }
{
    for channel in 0..many {
        mails.put(channel as usize, u64::MAX, i64::from(channel) - 7);
    }
}

// Whether each of so many channels has it there, and 0 in its first slot.
fn each_keeps_its_own(mails: &Mails, many: u32) -> bool
    requires { many ≤ length mails.now }
{
    for channel in 0..many {
        let last = mails.get(channel as usize, u64::MAX);
        if last != i64::from(channel) - 7 || mails.get(channel as usize, 0) != 0 {
            return false;
        }
    }
    true
}

fn keep_their_own(alloc: Global, many: u32) -> bool {
    match channels(alloc, many, MOST_CHANNEL_SIZE) {
        Ok(mut mails) => {
            put_each(&mut mails, many);
            each_keeps_its_own(&mails, many)
        }
        Err(_) => false,
    }
}

#[test]
fn as_many_channels_as_there_may_be(rt: HostRuntime) {
    let alloc = rt.alloc();
    assert!(rt; keep_their_own(alloc, MOST_CONNECTIONS as u32) && Mails::none(alloc).len() == 0);
}
