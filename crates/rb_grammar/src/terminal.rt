//! Terminals, and which one a token is.
ghost use Rattle.std.specs.Prelude.{◌≡◌, map};
ghost use Rattle.rb_lex.specs.Reader.{lexeme_of};
ghost use Rattle.rb_grammar.specs.Terminals.{marks, spelled, terminal_of, words};
ghost use Rattle.rb_grammar.specs.Spellings.{spelling_of};

use rb_lex::{Kind, Token};

/// What a token is to the grammar: a name, a number, a text, or which word or mark.
#[derive(Clone, Copy)]
pub enum Terminal {
    Name,
    Number,
    /// A number of the value 2, for which an edition asks.
    Two,
    Text,
    All,
    And,
    By,
    Call,
    Channel,
    Conversation,
    Converse,
    Edition,
    Else,
    End,
    Ensure,
    Error,
    Every,
    Fail,
    From,
    If,
    Not,
    Or,
    Print,
    Prior,
    Procedure,
    Process,
    Program,
    Receive,
    Send,
    Size,
    Some,
    Sum,
    To,
    Var,
    While,
    Within,
    Semicolon,
    Comma,
    Dot,
    Colon,
    OpenParen,
    CloseParen,
    OpenBrace,
    CloseBrace,
    OpenBracket,
    CloseBracket,
    Becomes,
    Equal,
    Unequal,
    Less,
    LessEqual,
    Greater,
    GreaterEqual,
    Plus,
    Minus,
    Star,
    Slash,
    Percent,
}

impl Terminal {
    /// What a token is to the grammar, by its kind and its bytes.
    pub fn of(token: &Token<'_>) -> Option<Self>
        ensures { result ≡ terminal_of (lexeme_of token.now) }
    {
        match token.kind {
            Kind::Name => Some(Terminal::Name),
            Kind::Number(2) => Some(Terminal::Two),
            Kind::Number(_) => Some(Terminal::Number),
            Kind::Text => Some(Terminal::Text),
            Kind::Word => spelled(token.text, words()),
            Kind::Mark => spelled(token.text, marks()),
        }
    }
}

// A word or a mark, and what it is.
type Spelling = (&'static [u8], Terminal);

fn spelled(text: &[u8], spellings: &[Spelling]) -> Option<Terminal>
    ensures { result ≡ spelled text.now (map spelling_of spellings.now) }
{
    let mut rest = spellings;
    while let [(bytes, terminal), after @ ..] = rest {
        if *bytes == text {
            return Some(*terminal);
        }
        rest = after;
    }
    None
}

fn words() -> &'static [Spelling]
    ensures { map spelling_of result.now ≡ words }
{
    &[
        (b"all", Terminal::All),
        (b"and", Terminal::And),
        (b"by", Terminal::By),
        (b"call", Terminal::Call),
        (b"channel", Terminal::Channel),
        (b"conversation", Terminal::Conversation),
        (b"converse", Terminal::Converse),
        (b"edition", Terminal::Edition),
        (b"else", Terminal::Else),
        (b"end", Terminal::End),
        (b"ensure", Terminal::Ensure),
        (b"error", Terminal::Error),
        (b"every", Terminal::Every),
        (b"fail", Terminal::Fail),
        (b"from", Terminal::From),
        (b"if", Terminal::If),
        (b"not", Terminal::Not),
        (b"or", Terminal::Or),
        (b"print", Terminal::Print),
        (b"prior", Terminal::Prior),
        (b"procedure", Terminal::Procedure),
        (b"process", Terminal::Process),
        (b"program", Terminal::Program),
        (b"receive", Terminal::Receive),
        (b"send", Terminal::Send),
        (b"size", Terminal::Size),
        (b"some", Terminal::Some),
        (b"sum", Terminal::Sum),
        (b"to", Terminal::To),
        (b"var", Terminal::Var),
        (b"while", Terminal::While),
        (b"within", Terminal::Within),
    ]
}

fn marks() -> &'static [Spelling]
    ensures { map spelling_of result.now ≡ marks }
{
    &[
        (b";", Terminal::Semicolon),
        (b",", Terminal::Comma),
        (b".", Terminal::Dot),
        (b":", Terminal::Colon),
        (b"(", Terminal::OpenParen),
        (b")", Terminal::CloseParen),
        (b"{", Terminal::OpenBrace),
        (b"}", Terminal::CloseBrace),
        (b"[", Terminal::OpenBracket),
        (b"]", Terminal::CloseBracket),
        (b":=", Terminal::Becomes),
        (b"=", Terminal::Equal),
        (b"<>", Terminal::Unequal),
        (b"<", Terminal::Less),
        (b"<=", Terminal::LessEqual),
        (b">", Terminal::Greater),
        (b">=", Terminal::GreaterEqual),
        (b"+", Terminal::Plus),
        (b"-", Terminal::Minus),
        (b"*", Terminal::Star),
        (b"/", Terminal::Slash),
        (b"%", Terminal::Percent),
    ]
}
