//! The program `rblview`: what the faults and the causes of the language mean, and what a run did, turn by turn.
#![tactic(auto)]

use rb_outside::{HostShelf, HostSink};
use rb_show::hall;
use rb_tell::words_given;
use std::process::ExitCode;

fn main(rt: HostRuntime) -> ExitCode {
    let errors = rt.stderr();
    ExitCode::from(match words_given(&rt) {
        Ok(words) => {
            let mut shelf = HostShelf::new(&rt);
            let mut err = HostSink::new(&errors);
            hall(rt.alloc(), &words, &mut shelf, HostSink::new(&rt), &mut err).number
        }
        Err(number) => number,
    })
}
