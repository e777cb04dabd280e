//! Tests of what takes memory, at its limits, and of files and sinks: words, caches, slots, held lines, the table of conversations,
//! trials, the parser, and the listing of a code that no source has. What the programs write is tested by runs of them (`./test stored_runs`, `./test refusals`).
#![tactic(auto)]

#[cfg(test)]
mod cache_tests;
#[cfg(test)]
mod cell_tests;
#[cfg(test)]
mod conv_tests;
#[cfg(test)]
mod hold_tests;
#[cfg(test)]
mod host_tests;
#[cfg(test)]
mod listing_tests;
#[cfg(test)]
mod mail_tests;
#[cfg(test)]
mod make_tests;
#[cfg(test)]
mod names;
#[cfg(test)]
mod parse_rows;
#[cfg(test)]
mod pieces;
#[cfg(test)]
mod rows;
#[cfg(test)]
mod sink_tests;
