//! The line under way of a turn.

ghost use Rattle.std.specs.Prelude.{◌≡◌, ℕ, ◌+◌, ◌*◌, ◌<◌, ◌≤◌, List, [], ◌∷◌, ◌++◌, cond, map, length, take, vec_len, vec_capacity, IfOk};
ghost use Rattle.std.specs.Fmt.{signed_decimal};
ghost use Rattle.rb_code.specs.WordMachine.Act.{joined_pieces};
ghost use Rattle.rb_hold.specs.Held.{IsLine};
ghost use Rattle.rb_operands.specs.Pieces.{AreTexts, IsText, piece_text};

use itoa::Buffer;
use rb_base::{MOST_ITEMS, Memory, Text};
use rb_hold::room::put;
use std::alloc::Global;
use std::marker::Model;

/// A piece of a line: a text of the code, by its number, or a number.
#[derive(Clone, Copy)]
pub enum Piece {
    Text(u32),
    Number(i64),
}

/// At most `MOST_ITEMS` pieces, and the bytes of the last line that was joined, in memory that `new` reserves.
#[derive(Drop)]
pub struct Line {
    pieces: Vec<Piece>,
    bytes: Vec<u8>,
}

impl Model for Line {
    ghost use Rattle.std.specs.Prelude.{◌≤◌, vec_len, vec_capacity};
    ghost use Rattle.rb_operands.specs.LineSeen.{LineSeen};
    ghost use Rattle.rb_base.specs.declared.limits.TheConstants.{MOST_ITEMS};

    ghost Value = { LineSeen };

    ghost view = { λ l. record { pieces = l.pieces.items; bytes = l.bytes.items } };

    ghost invariant = { λ l. (vec_len l.pieces ≤ MOST_ITEMS) × (MOST_ITEMS ≤ vec_capacity l.pieces) × (4112 ≤ vec_capacity l.bytes) };
}

impl Line {
    /// No piece; `Memory` if it is wanting.
    pub fn new(alloc: Global) -> Result<Self, Memory>
        ensures { IfOk result (λ line. line.pieces ≡ []) }
    {
        let pieces = Vec::with_capacity(alloc, MOST_ITEMS)?;
        let bytes = Vec::with_capacity(alloc, 4_112)?;
        Ok(Line { pieces, bytes })
    }

    /// No piece is left.
    pub fn clear(&mut self)
        ensures { self.new.pieces ≡ [] }
    {
        self.pieces.clear();
    }

    /// One piece more.
    pub fn add(&mut self, piece: Piece)
        requires { length self.old.pieces < MOST_ITEMS }
        ensures { self.new ≡ record self.old { pieces = self.old.pieces ++ piece ∷ [] } }
    {
        put(&mut self.pieces, piece);
    }

    /// Joins the pieces by one blank, and leaves none.
    pub fn join(&mut self, texts: &[Text])
        requires { AreTexts texts.now }
        ensures joined { self.new.bytes ≡ joined_pieces (map (piece_text texts.now) self.old.pieces) }
        ensures cleared { self.new.pieces ≡ [] }
        ensures line { IsLine self.new.bytes }
    {
        self.bytes.clear();
        join(&self.pieces, texts, &mut self.bytes);
        self.pieces.clear();
    }

    /// The bytes of the line that was joined last.
    pub fn bytes(&self) -> &[u8]
        ensures { result.now ≡ self.now.bytes }
    {
        self.bytes.as_slice()
    }
}

// Joins pieces by one blank.
fn join(pieces: &[Piece], texts: &[Text], bytes: &mut Vec<u8>)
    requires few { length pieces.now ≤ MOST_ITEMS }
    requires room { 4112 ≤ vec_capacity bytes.old }
    requires none { bytes.old.items ≡ [] }
    requires texts { AreTexts texts.now }
    ensures joined { bytes.new.items ≡ joined_pieces (map (piece_text texts.now) pieces.now) }
    ensures line { IsLine bytes.new.items }
    ensures room { 4112 ≤ vec_capacity bytes.new }
{
    for (index, piece) in pieces.iter().enumerate() {
        add_next(bytes, index == 0, *piece, texts);
    }
}

// Adds a piece, behind a blank unless it is the first.
fn add_next(bytes: &mut Vec<u8>, is_first: bool, piece: Piece, texts: &[Text])
    requires room { vec_len bytes.old + 257 ≤ vec_capacity bytes.old }
    requires texts { AreTexts texts.now }
    ensures bytes { bytes.new.items ≡ cond is_first bytes.old.items (bytes.old.items ++ 32 ∷ []) ++ piece_text texts.now piece }
    ensures text { IsText (piece_text texts.now piece) }
    ensures room { vec_capacity bytes.old ≤ vec_capacity bytes.new }
{
    if !is_first {
        add(bytes, b" ");
    }
    match piece {
        Piece::Text(k) => add_text(bytes, k, texts),
        Piece::Number(n) => add_number(bytes, n),
    }
}

// Adds a text.
fn add_text(bytes: &mut Vec<u8>, k: u32, texts: &[Text])
    requires room { vec_len bytes.old + 256 ≤ vec_capacity bytes.old }
    requires texts { AreTexts texts.now }
    ensures bytes { bytes.new.items ≡ bytes.old.items ++ piece_text texts.now (Piece.Text k) }
    ensures text { IsText (piece_text texts.now (Piece.Text k)) }
    ensures room { vec_capacity bytes.old ≤ vec_capacity bytes.new }
{
    add(bytes, text_at(texts, k));
}

// Adds a number.
fn add_number(bytes: &mut Vec<u8>, n: i64)
    requires { vec_len bytes.old + 256 ≤ vec_capacity bytes.old }
    ensures bytes { bytes.new.items ≡ bytes.old.items ++ signed_decimal n }
    ensures text { IsText (signed_decimal n) }
    ensures room { vec_capacity bytes.old ≤ vec_capacity bytes.new }
{
    let mut buffer = Buffer::new();
    add(bytes, buffer.format(n).as_bytes());
}

// A text by its number; one that is not there is empty.
fn text_at(texts: &[Text], k: u32) -> &[u8]
    ensures { result.now ≡ piece_text texts.now (Piece.Text k) }
{
    match texts.get(k as usize) {
        Some(text) => text.as_bytes(),
        None => b"",
    }
}

// Adds bytes where there is room for them.
fn add(bytes: &mut Vec<u8>, more: &[u8])
    requires { vec_len bytes.old + length more.now ≤ vec_capacity bytes.old }
    ensures bytes { bytes.new.items ≡ bytes.old.items ++ more.now }
    ensures room { vec_capacity bytes.old ≤ vec_capacity bytes.new }
{
    bytes.extend_from_slice(more).unwrap();
}
