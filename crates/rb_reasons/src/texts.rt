//! The texts, in the order of their names. Each has the meaning behind its name, `usually:` and `mend:`, then the files of its example,
//! each behind a line of its kind, and behind `shows:` the line that `rbl` writes of it; of the example of a cause this is a line of its
//! run. `./test reasons` (`tests/test_reasons.py`) runs them all.

mod causes;
mod files;
mod nesting;
mod scopes;
mod source;

pub(crate) use causes::of_causes;
pub(crate) use files::of_files;
pub(crate) use nesting::of_nesting;
pub(crate) use scopes::of_scopes;
pub(crate) use source::of_source;
