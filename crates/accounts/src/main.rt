//! Three accounts, and transfers among them that are made as a whole or not at all: what `rb_cache` is for by itself.
#![tactic(auto)]

ghost use Rattle.std.specs.Prelude.{◌≡◌, ◌<◌, ◌≤◌, length};
ghost use Rattle.rb_cache.specs.Copies.{Fits, open_levels};

mod changes;

use changes::{Change, change_all};
use rb_base::{Memory, Steps};
use rb_cache::Cache;
use rb_cell::Cells;
use std::marker::Brand;
use std::process::ExitCode;
use std::sync::ledger::{Blank, Ledger};

/// How many accounts there are.
const ACCOUNTS: u32 = 3;

fn main(rt: HostRuntime) -> ExitCode {
    match run(&rt) {
        Ok(()) => ExitCode::SUCCESS,
        Err(_) => ExitCode::FAILURE,
    }
}

// The ledger counts steps, which contracts alone see.
fn run<R: Print + AllocGlobal>(rt: &R) -> Result<(), Memory> {
    show::<R, Brand>(rt, Blank::new(1))
}

fn show<R: Print + AllocGlobal, L: Ledger>(rt: &R, blank: Blank) -> Result<(), Memory>
    requires name { blank.name ≡ L.name }
    requires parts { blank.parts ≡ L.parts }
    requires backed { 0 < blank.parts }
{
    let mut steps = Steps::<L>::start(blank);
    let mut accounts = Cells::new(rt.alloc(), ACCOUNTS)?;
    let mut cache = Cache::new(rt.alloc(), 1, ACCOUNTS)?;
    accounts.push_zeros(ACCOUNTS, &mut steps);
    transfer(rt, &mut accounts, &mut cache, [100, 50, 0], &mut steps);
    transfer(rt, &mut accounts, &mut cache, [-30, -30, 60], &mut steps);
    transfer(rt, &mut accounts, &mut cache, [-10, 90, -80], &mut steps);
    Ok(())
}

// Adds an amount to each account, if all of them can bear it, and prints what they hold. The last transfer above can't be made: the third
// account would fall below 0, and so the first keeps what it has.
fn transfer<R: Print, L: Ledger>(
    rt: &R,
    accounts: &mut Cells<L>,
    cache: &mut Cache,
    amounts: [i64; 3],
    steps: &mut Steps<L>,
)
    requires fits { Fits accounts.old.words cache.old }
    requires three { length accounts.old.words ≡ ACCOUNTS }
    requires within { ACCOUNTS ≤ cache.old.limits.words }
    requires room { length (open_levels cache.old) < cache.old.limits.levels }
    ensures fits { Fits accounts.new.words cache.new }
    ensures three { length accounts.new.words ≡ ACCOUNTS }
    ensures limits { cache.new.limits ≡ cache.old.limits }
    ensures levels { length (open_levels cache.new) ≡ length (open_levels cache.old) }
{
    let [first, second, third] = amounts;
    let changes = [
        Change {
            at: 0,
            amount: first,
        },
        Change {
            at: 1,
            amount: second,
        },
        Change {
            at: 2,
            amount: third,
        },
    ];
    let made = change_all(accounts, cache, &changes, steps);
    let (first, second) = (accounts.read(0, steps), accounts.read(1, steps));
    let third = accounts.read(2, steps);
    let _printed = println!(rt; "{made}: {first} {second} {third}");
}
