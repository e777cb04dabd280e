//! What a command knows of a fault beside its place and the text that has it.
use rb_base::Names;
use rb_plain::StuckTurn;

/// What is known of a fault beside its place and the text that has it.
#[derive(Drop)]
pub enum Why {
    /// Nothing more: the fault is one of the first text of a command, or of texts that were made.
    Plain,
    /// The names of the program, for a fault of a text behind it.
    Names(Names),
    /// The turn at which a plain run is stuck, and the names of the program.
    Stuck(StuckTurn, Names),
}
