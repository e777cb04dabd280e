//! Laws of the tokens of a text, and of what the lexer answers.

ghost use Rattle.rb_lex.specs.Laws.{AnswersEnd, AnswersFault, AnswersFirst, EndStays, EndingStands, FaultStays};
ghost use Rattle.rb_lex.specs.Laws.{HasOneTokenList, HasTokenList, PlacesCount, TokensRise, TokensStand};

/// A text has one token list, and it ends in one way.
pub fn has_one_token_list()
    ensures { HasOneTokenList }
{}

/// Each text has a token list.
pub fn has_token_list()
    ensures { HasTokenList }
{}

/// The text of each token is the part of the source at its place.
pub fn tokens_stand()
    ensures { TokensStand }
{}

/// The places of the tokens rise.
pub fn tokens_rise()
    ensures { TokensRise }
{}

/// The end stands behind the last byte, and a fault at a byte.
pub fn ending_stands()
    ensures { EndingStands }
{}

/// A line is one more than the number of LF before it, a column one more than the number of bytes since the last.
pub fn places_count()
    ensures { PlacesCount }
{}

/// A token that the lexer answers is the first of those that are left, and leaves fewer bytes.
pub fn answers_first()
    ensures { AnswersFirst }
{}

/// The lexer answers the end where no token is left and they end with the end.
pub fn answers_end()
    ensures { AnswersEnd }
{}

/// The lexer answers a fault where no token is left and they end with that fault.
pub fn answers_fault()
    ensures { AnswersFault }
{}

/// After the end the end is answered again.
pub fn end_stays()
    ensures { EndStays }
{}

/// After a fault that fault is answered again.
pub fn fault_stays()
    ensures { FaultStays }
{}
