//! What holds of the tokens that are tried.
ghost use Rattle.rb_why.specs.Expected.{TriesAll};

/// Each word and each mark of the grammar is tried.
pub fn tries_all()
    ensures { TriesAll }
{}
