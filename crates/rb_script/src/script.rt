//! A session's text that is read whole for its faults, and then walked order by order.

ghost use Rattle.std.specs.Prelude.{◌≡◌, ◌≤◌, length, vec_len, Ok, Err, IfOk, MatchResult};
ghost use Rattle.std.specs.Result.{IsOk};
ghost use Rattle.rb_base.specs.Naming.{process_names};
ghost use Rattle.rb_script.specs.Script.{CanFollow, TakesOrder, script_of};
ghost use Rattle.rb_script.specs.Walk.{IsFaultless, orders_left};

use crate::order::{Order, read_line};
use rb_base::{MOST_BYTES, Names, TextFault};
use rb_sched::words::first_line;
use std::marker::Model;

/// The orders of a session that are left. It borrows its text and the names, and takes no memory.
#[derive(Drop)]
pub struct Script<'a> {
    names: &'a Names,
    turns: u32,
    position: u32,
    rest: &'a [u8],
}

impl<'a> Model for Script<'a> {
    ghost use Rattle.std.specs.Prelude.{List};
    ghost use Rattle.rb_base.specs.Naming.{process_names};
    ghost use Rattle.rb_script.specs.Walk.{IsFaultless, orders_left};
    ghost use Rattle.rb_script.specs.declared.order.Order.{Order as Asked};

    ghost Value = { List Asked };

    ghost view = { λ s. orders_left (process_names s.names.now) s.turns s.position s.rest.now };

    ghost invariant = { λ s. IsFaultless (process_names s.names.now) s.turns s.position s.rest.now };
}

impl<'a> Script<'a> {
    /// Reads a whole session over so many turns, and answers its first fault where it has one.
    pub fn read(text: &'a [u8], names: &'a Names, turns: u32) -> Result<Self, TextFault>
        requires short { length text.now ≤ MOST_BYTES }
        ensures orders { let told = script_of (process_names names.now) turns text.now in
            MatchResult result (λ script. told ≡ Ok script) (λ fault. told ≡ Err fault) }
        ensures can_follow { IfOk result (λ script. CanFollow (vec_len names.now.processes) turns 0 script) }
    {
        check_lines(text, names, turns)?;
        Ok(Script {
            names,
            turns,
            position: 0,
            rest: text,
        })
    }

    /// The next line's order, or `None` at the end and from then on.
    pub fn next(&mut self) -> Option<Order>
        ensures { TakesOrder self.old result self.new }
    {
        let (order, position, rest) = first_order(self.rest, self.names, self.turns, self.position);
        self.position = position;
        self.rest = rest;
        order
    }
}

// Goes to the first line that isn't empty: its order, the position that it leads to, and the text after it. At the end there is none.
fn first_order<'a>(
    text: &'a [u8],
    names: &Names,
    turns: u32,
    position: u32,
) -> (Option<Order>, u32, &'a [u8])
    requires { IsFaultless (process_names names.now) turns position text.now }
    ensures order { TakesOrder (orders_left (process_names names.now) turns position text.now) result.0
        (orders_left (process_names names.now) turns result.1 result.2.now) }
    ensures faultless { IsFaultless (process_names names.now) turns result.1 result.2.now }
{
    let mut position = position;
    let mut rest = text;
    while !rest.is_empty() {
        let (line, after) = first_line(rest);
        let Ok((order, later)) = read_line(line, names, turns, position) else {
            unreachable!()
        };
        position = later;
        rest = after;
        if order.is_some() {
            return (order, position, rest);
        }
    }
    (None, position, rest)
}

// Reads each line, up to the first that has a fault.
fn check_lines(text: &[u8], names: &Names, turns: u32) -> Result<(), TextFault>
    requires short { length text.now ≤ MOST_BYTES }
    ensures { let told = script_of (process_names names.now) turns text.now in
        MatchResult result (λ _. IsOk told) (λ fault. told ≡ Err fault) }
{
    let mut position = 0;
    let mut at = 1;
    let mut rest = text;
    while !rest.is_empty() {
        let (line, after) = first_line(rest);
        match read_line(line, names, turns, position) {
            Ok((_, later)) => position = later,
            Err(name) => return Err(TextFault { name, at }),
        }
        at += 1;
        rest = after;
    }
    Ok(())
}
