//! The cursor: it stands before a token of a source, and takes one after the other.
ghost use Rattle.std.specs.Prelude.{◌≡◌, ◌+◌, ◌^◌, ◌<◌, ◌≤◌, length, [], IfOk, IfErr, OnOk};
ghost use Rattle.rb_lex.specs.Reader.{lexeme_of};
ghost use Rattle.rb_lex.specs.Tokens.{AtFault};
ghost use Rattle.rb_lex.specs.TokenList.{tokens_of, ending_of};
ghost use Rattle.rb_grammar.specs.Allowed.{allowed_of, ending_allowed_of};
ghost use Rattle.rb_grammar.specs.Brackets.{open_after};
ghost use Rattle.rb_grammar.specs.Grammar.{TakesName, TakesNumber, start_of};
ghost use Rattle.rb_grammar.specs.Machine.{Advances, blocks_after, fits, look, names_after, place_of};
ghost use Rattle.rb_grammar.specs.Reading.{AreNotTaken, EndsIf, IsNotTaken, IsPlaceOf, TakesNamed, TakesTwo, is_nothing, terminal_ahead};
ghost use Rattle.rb_syntax.specs.Plain.{identifier};

use crate::stop::Stop;
use crate::terminal::Terminal;
use rb_base::{FaultName, MOST_BYTES, MOST_OPEN_BRACKETS, Place, SourceFault};
use rb_lex::{Kind, Lexer, Token};
use rb_syntax::{Name, Number};
use std::marker::Model;

/// Stands before a token of a source, and knows which. Contracts see the tokens left, how they end, and how many
/// names and recoveries came before. A bracket with which too many are open is the last token, and a fault follows.
#[derive(Drop)]
pub struct Cursor<'a> {
    lexer: Lexer<'a>,
    ahead: Option<Token<'a>>,
    terminal: Option<Terminal>,
    names: u32,
    recoveries: u32,
    brackets: u32,
}

impl<'a> Model for Cursor<'a> {
    ghost use Rattle.rb_grammar.specs.Reading.{Position, position_of, IsSound};

    ghost Value = { Position };

    ghost view = { λ c. position_of c.ahead c.lexer c.names c.recoveries c.brackets };

    ghost invariant = { λ c. IsSound c.terminal c.ahead c.lexer c.brackets (position_of c.ahead c.lexer c.names c.recoveries c.brackets) };
}

impl<'a> Cursor<'a> {
    /// Stands before the first token.
    pub fn new(source: &'a [u8]) -> Result<Self, SourceFault>
        requires { length source.now ≤ MOST_BYTES }
        ensures ok { IfOk result (λ cursor. cursor ≡ record { point = start_of (allowed_of source.now); ending = ending_allowed_of source.now }) }
        ensures err { IfErr result (λ fault. (tokens_of source.now ≡ []) × (ending_of source.now ≡ AtFault fault)) }
    {
        let mut lexer = Lexer::new(source);
        let ahead = lexer.next()?;
        Ok(Cursor {
            terminal: terminal_ahead(&ahead),
            lexer,
            ahead,
            names: 0,
            recoveries: 0,
            brackets: 0,
        })
    }

    /// What stands first, or `None` at the end.
    pub fn look(&self) -> Option<Terminal>
        ensures { result ≡ look self.now.point.left }
    {
        self.terminal
    }

    /// Whether what stands first is of this terminal.
    pub fn stands_at(&self, terminal: Terminal) -> bool
        ensures { result ≡ fits (look self.now.point.left) terminal }
    {
        fits(self.terminal, terminal)
    }

    /// The place of what stands first, or `None` at the end.
    pub fn place(&self) -> Option<Place>
        ensures { result ≡ place_of self.now.point.left }
    {
        match self.ahead {
            Some(token) => Some(token.place),
            None => None,
        }
    }

    /// The place of what stands first, or at the end that after the last byte.
    pub fn here(&self) -> Place
        ensures { IsPlaceOf self.now.point.left self.now.ending result }
    {
        match self.ahead {
            Some(token) => token.place,
            None => self.lexer.place(),
        }
    }

    /// How many names came before.
    pub fn names(&self) -> u32
        ensures { result ≡ self.now.point.names }
    {
        self.names
    }

    /// How many recoveries came before.
    pub fn recoveries(&self) -> u32
        ensures { result ≡ self.now.point.blocks }
    {
        self.recoveries
    }

    /// Takes the first token, which is to be of this terminal.
    pub fn take(&mut self, terminal: Terminal) -> Result<Token<'a>, Stop>
        ensures ok { IfOk result (λ token. Advances terminal (lexeme_of token) self.old.point self.new.point) }
        ensures err { IfErr result (IsNotTaken terminal self.old self.new) }
        ensures ending { self.new.ending ≡ self.old.ending }
        ensures shorter { OnOk result (length self.new.point.left < length self.old.point.left) }
    {
        let Some(token) = self.ahead else {
            return Err(Stop::Form);
        };
        if !fits(self.terminal, terminal) {
            return Err(Stop::Form);
        }
        let brackets = open_after(terminal, self.brackets);
        if brackets > MOST_OPEN_BRACKETS {
            return Err(Stop::Token(too_deep(token.place)));
        }
        match self.lexer.next() {
            Ok(ahead) => {
                self.names = names_after(terminal, self.names);
                self.recoveries = blocks_after(terminal, self.recoveries);
                self.brackets = brackets;
                self.terminal = terminal_ahead(&ahead);
                self.ahead = ahead;
                Ok(token)
            }
            Err(fault) => Err(Stop::Token(fault)),
        }
    }

    /// Takes the first token, which is to be a name.
    pub fn take_name(&mut self) -> Result<Name<'a>, Stop>
        ensures ok { IfOk result (λ name. TakesName (identifier name) self.old.point self.new.point) }
        ensures err { IfErr result (IsNotTaken Terminal.Name self.old self.new) }
        ensures ending { self.new.ending ≡ self.old.ending }
        ensures shorter { OnOk result (length self.new.point.left < length self.old.point.left) }
    {
        let id = self.names;
        let token = self.take(Terminal::Name)?;
        Ok(Name {
            text: token.text,
            place: token.place,
            id,
        })
    }

    /// Takes the first token, which is to be of this terminal, and the name behind it.
    pub fn take_named(&mut self, terminal: Terminal) -> Result<Name<'a>, Stop>
        ensures ok { IfOk result (λ name. TakesNamed terminal (identifier name) self.old.point self.new.point) }
        ensures err { IfErr result (AreNotTaken terminal Terminal.Name self.old self.new) }
        ensures ending { self.new.ending ≡ self.old.ending }
        ensures shorter { OnOk result (length self.new.point.left < length self.old.point.left) }
    {
        self.take(terminal)?;
        self.take_name()
    }

    /// Takes the first two tokens, which are to be of these terminals.
    pub fn take_two(&mut self, first: Terminal, second: Terminal) -> Result<(), Stop>
        ensures ok { OnOk result (TakesTwo first second self.old.point self.new.point) }
        ensures err { IfErr result (AreNotTaken first second self.old self.new) }
        ensures ending { self.new.ending ≡ self.old.ending }
        ensures shorter { OnOk result (length self.new.point.left < length self.old.point.left) }
    {
        self.take(first)?;
        self.take(second)?;
        Ok(())
    }

    /// Takes the first token, which is to be a number.
    pub fn take_number(&mut self) -> Result<Number, Stop>
        ensures ok { IfOk result (λ number. TakesNumber number self.old.point self.new.point) }
        ensures err { IfErr result (IsNotTaken Terminal.Number self.old self.new) }
        ensures ending { self.new.ending ≡ self.old.ending }
        ensures shorter { OnOk result (length self.new.point.left < length self.old.point.left) }
    {
        let token = self.take(Terminal::Number)?;
        let Kind::Number(value) = token.kind else {
            unreachable!()
        };
        Ok(Number {
            value,
            place: token.place,
        })
    }

    /// Whether no token is left. Then the source ends there.
    pub fn is_at_end(&self) -> bool
        ensures nothing { result ≡ is_nothing self.now.point.left }
        ensures ended { EndsIf result self.now.ending }
    {
        self.ahead.is_none()
    }
}

fn fits(first: Option<Terminal>, terminal: Terminal) -> bool
    ensures { result ≡ fits first terminal }
{
    match first {
        Some(first) => first == terminal,
        None => false,
    }
}

fn terminal_ahead(ahead: &Option<Token<'_>>) -> Option<Terminal>
    ensures { result ≡ terminal_ahead ahead.now }
{
    match ahead {
        Some(token) => Terminal::of(token),
        None => None,
    }
}

fn names_after(terminal: Terminal, names: u32) -> u32
    requires { names < 2 ^ 21 }
    ensures { result ≡ names_after (Some terminal) names }
{
    match terminal {
        Terminal::Name => names + 1,
        _ => names,
    }
}

fn blocks_after(terminal: Terminal, blocks: u32) -> u32
    requires { blocks < 2 ^ 21 }
    ensures { result ≡ blocks_after (Some terminal) blocks }
{
    match terminal {
        Terminal::Ensure => blocks + 1,
        _ => blocks,
    }
}

fn open_after(terminal: Terminal, brackets: u32) -> u32
    requires { brackets ≤ MOST_OPEN_BRACKETS }
    ensures { result ≡ open_after (Some terminal) brackets }
{
    match terminal {
        Terminal::OpenParen | Terminal::OpenBrace | Terminal::OpenBracket => brackets + 1,
        Terminal::CloseParen | Terminal::CloseBrace | Terminal::CloseBracket => {
            brackets.saturating_sub(1)
        }
        _ => brackets,
    }
}

fn too_deep(place: Place) -> SourceFault
    ensures { result ≡ record { name = FaultName.Y2; place = place } }
{
    let name = FaultName::Y2;
    SourceFault { name, place }
}
