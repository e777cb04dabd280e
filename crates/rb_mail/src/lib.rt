//! The values that are under way on channels: a ring for each channel, in which each message lies in a slot by its number.
#![tactic(auto)]

mod mail;
mod mails;

pub use mail::Mail;
pub use mails::Mails;
