//! The program `rbl`: the top call on the words of its command line, the files of the host, standard output and standard error.
#![tactic(auto)]

use rb_outside::{HostShelf, HostSink};
use rb_tell::{hall, words_given};
use std::process::ExitCode;

fn main(rt: HostRuntime) -> ExitCode {
    let errors = rt.stderr();
    ExitCode::from(match words_given(&rt) {
        Ok(words) => {
            let mut shelf = HostShelf::new(&rt);
            let mut err = HostSink::new(&errors);
            hall(rt.alloc(), &words, &mut shelf, HostSink::new(&rt), &mut err).number
        }
        Err(number) => number,
    })
}
