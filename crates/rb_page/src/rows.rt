//! Worked pages: for each, the text that is written is what the definitions compute to.

ghost use Rattle.rb_page.specs.Rows.{AllMarks, NoMark, MarkInText, OutOfOrder, Twice, Escapes, Others};

/// Texts as they stand in a page.
pub fn escapes()
    ensures markup { Escapes }
    ensures others { Others }
{}

/// Pages with the texts of a run in the places of their marks.
pub fn pages()
    ensures all_marks { AllMarks }
    ensures no_mark { NoMark }
    ensures mark_in_text { MarkInText }
    ensures out_of_order { OutOfOrder }
    ensures twice { Twice }
{}
