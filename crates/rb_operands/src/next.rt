//! Where instructions lead.

use rb_base::Cause;

/// Where one instruction leads.
#[derive(Clone, Copy)]
pub enum Next {
    /// On at an address.
    Go(usize),
    /// On at the next address; whether the comparison holds, which is still to be pushed.
    Holds(bool),
    /// The turn is over here.
    Stop,
    /// The acceptance test held; what follows it stands at an address.
    Accepts(u32),
    Trap(Cause),
}

/// Where all instructions up to an end lead.
#[derive(Clone, Copy)]
pub enum Ended {
    /// The turn is over at an address; whether the process is done there.
    Stop(u32, bool),
    /// The acceptance test held; what follows it stands at an address.
    Accepts(u32),
    Trap(Cause),
}
