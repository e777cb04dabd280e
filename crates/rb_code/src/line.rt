//! The lines of a listing: of an instruction with its address, and of a recovery block.

ghost use Rattle.std.specs.Prelude.{◌≡◌, ◌⊎◌, ℕ, List, [], ◌∷◌, ◌++◌, codes, decimal, map, slice_get};
ghost use Rattle.std.specs.Fmt.{signed_decimal};
ghost use Rattle.std.specs.Option.{unwrap_or};
ghost use Rattle.rb_outside.specs.Puts.{Puts};
ghost use Rattle.rb_world.specs.Text.{conversation_word, line_of};
ghost use Rattle.rb_trace.specs.Naming.{naming};
ghost use Rattle.rb_trace.specs.Lines.{spaced, spaced_word};
ghost use Rattle.rb_code.specs.Instructions.Plain.{block as plain_block};
ghost use Rattle.rb_code.specs.Instructions.Listing.{block_kind, block_line, instr_line, instr_words, quoted, spot_words};
ghost use Rattle.rb_code.specs.Instructions.Limits.{block_limits};
ghost use Rattle.rb_code.specs.declared.instr.Instr.TheVariants.{Turn, Add, Sub, Mul, Div, Rem, Eq, Ne, Lt, Le, Gt, Ge, Neg, Not, Bool as ToBool, Item, Print, Return, Fail, Done};

use crate::code::BlockCode;
use crate::instr::Instr::{Add, Div, Eq, Ge, Gt, Le, Lt, Mul, Ne, Rem, Sub};
use crate::instr::{Instr, Spot};
use itoa::Buffer;
use rb_base::{Names, Text};
use rb_outside::{Failed, Sink};
use rb_trace::line::{put, put_pieces};
use rb_trace::put_line;

/// Writes the line of the instruction at an address.
pub(crate) fn put_instr_line<S: Sink>(
    out: &mut S,
    address: usize,
    instr: &Instr,
    texts: &[Text],
) -> Result<(), Failed>
    ensures { Puts (instr_line texts.now address instr.now) (S.written out.old) (S.written out.new) (S.faults out.old) (S.faults out.new) result }
{
    let mut buffer = Buffer::new();
    put_instr(out, buffer.format(address).as_bytes(), instr, texts)
}

fn put_instr<S: Sink>(out: &mut S, at: &[u8], instr: &Instr, texts: &[Text]) -> Result<(), Failed>
    ensures { Puts (line_of (at.now ∷ instr_words texts.now instr.now)) (S.written out.old) (S.written out.new)
        (S.faults out.old) (S.faults out.new) result }
{
    match *instr {
        Instr::Push(n) => put_signed(out, at, b"push", n),
        Instr::Load(v) => put_spot(out, at, b"load", v),
        Instr::Prior(v) => put_spot(out, at, b"prior", v),
        Instr::Bound(n) => put_number(out, at, b"bound", n),
        Instr::LoadAt(v) => put_spot(out, at, b"loadat", v),
        Instr::PriorAt(v) => put_spot(out, at, b"priorat", v),
        Instr::Store(v) => put_spot(out, at, b"store", v),
        Instr::StoreAt(v) => put_spot(out, at, b"storeat", v),
        Instr::Jump(a) => put_number(out, at, b"jump", a),
        Instr::JumpZero(a) => put_number(out, at, b"jumpzero", a),
        Instr::Frame(n) => put_number(out, at, b"frame", n),
        Instr::Drop(n) => put_number(out, at, b"drop", n),
        Instr::Text(k) => put_text(out, at, text_of(texts, k)),
        Instr::Room(c) => put_number(out, at, b"room", c),
        Instr::Put(c) => put_number(out, at, b"put", c),
        Instr::There(c) => put_number(out, at, b"there", c),
        Instr::Take(c) => put_number(out, at, b"take", c),
        Instr::Call(a, p, n) => put_call(out, at, a, p, n),
        Instr::Enter(b) => put_number(out, at, b"enter", b),
        Instr::Start(b) => put_number(out, at, b"start", b),
        Instr::Test(b) => put_number(out, at, b"test", b),
        Instr::Range(k, a) => put_pair(out, at, b"range", k, a),
        Instr::Again(k, a) => put_pair(out, at, b"again", k, a),
        Instr::Counter(k) => put_number(out, at, b"counter", k),
        Instr::Absent(c, a) => put_pair(out, at, b"absent", c, a),
        Add | Sub | Mul | Div | Rem => put_two(out, at, arithmetic_word(instr)),
        Eq | Ne | Lt | Le | Gt | Ge => put_two(out, at, comparison_word(instr)),
        Instr::Neg | Instr::Not | Instr::Bool => put_two(out, at, change_word(instr)),
        Instr::Turn | Instr::Item | Instr::Print | Instr::Return | Instr::Fail | Instr::Done =>
            put_two(out, at, plain_word(instr)),
    }
}

fn arithmetic_word(instr: &Instr) -> &'static [u8]
    requires { (instr.now ≡ Add) ⊎ (instr.now ≡ Sub) ⊎ (instr.now ≡ Mul) ⊎ (instr.now ≡ Div) ⊎ (instr.now ≡ Rem) }
    ensures { (texts : List (List ℕ)) → instr_words texts instr.now ≡ result.now ∷ [] }
{
    match *instr {
        Instr::Add => b"add",
        Instr::Sub => b"sub",
        Instr::Mul => b"mul",
        Instr::Div => b"div",
        _ => b"rem",
    }
}

fn comparison_word(instr: &Instr) -> &'static [u8]
    requires { (instr.now ≡ Eq) ⊎ (instr.now ≡ Ne) ⊎ (instr.now ≡ Lt) ⊎ (instr.now ≡ Le) ⊎ (instr.now ≡ Gt) ⊎ (instr.now ≡ Ge) }
    ensures { (texts : List (List ℕ)) → instr_words texts instr.now ≡ result.now ∷ [] }
{
    match *instr {
        Instr::Eq => b"eq",
        Instr::Ne => b"ne",
        Instr::Lt => b"lt",
        Instr::Le => b"le",
        Instr::Gt => b"gt",
        _ => b"ge",
    }
}

fn change_word(instr: &Instr) -> &'static [u8]
    requires { (instr.now ≡ Neg) ⊎ (instr.now ≡ Not) ⊎ (instr.now ≡ ToBool) }
    ensures { (texts : List (List ℕ)) → instr_words texts instr.now ≡ result.now ∷ [] }
{
    match *instr {
        Instr::Neg => b"neg",
        Instr::Not => b"not",
        _ => b"bool",
    }
}

fn plain_word(instr: &Instr) -> &'static [u8]
    requires { (instr.now ≡ Turn) ⊎ (instr.now ≡ Item) ⊎ (instr.now ≡ Print) ⊎ (instr.now ≡ Return) ⊎ (instr.now ≡ Fail) ⊎ (instr.now ≡ Done) }
    ensures { (texts : List (List ℕ)) → instr_words texts instr.now ≡ result.now ∷ [] }
{
    match *instr {
        Instr::Turn => b"turn",
        Instr::Item => b"item",
        Instr::Print => b"print",
        Instr::Return => b"return",
        Instr::Fail => b"fail",
        _ => b"done",
    }
}

/// Writes a line of two words.
pub(crate) fn put_two<'w, S: Sink>(
    out: &mut S,
    first: &'w [u8],
    second: &'w [u8],
) -> Result<(), Failed>
    ensures { Puts (line_of (first.now ∷ second.now ∷ [])) (S.written out.old) (S.written out.new) (S.faults out.old) (S.faults out.new) result }
{
    put_line(out, &[first, second])
}

fn put_signed<S: Sink>(out: &mut S, at: &[u8], word: &[u8], n: i64) -> Result<(), Failed>
    ensures { Puts (line_of (at.now ∷ word.now ∷ signed_decimal n ∷ [])) (S.written out.old) (S.written out.new)
        (S.faults out.old) (S.faults out.new) result }
{
    let mut buffer = Buffer::new();
    put_line(out, &[at, word, buffer.format(n).as_bytes()])
}

fn put_number<S: Sink>(out: &mut S, at: &[u8], word: &[u8], n: u32) -> Result<(), Failed>
    ensures { Puts (line_of (at.now ∷ word.now ∷ decimal n ∷ [])) (S.written out.old) (S.written out.new) (S.faults out.old)
        (S.faults out.new) result }
{
    let mut buffer = Buffer::new();
    put_line(out, &[at, word, buffer.format(n).as_bytes()])
}

fn put_pair<S: Sink>(out: &mut S, at: &[u8], word: &[u8], m: u32, n: u32) -> Result<(), Failed>
    ensures { Puts (line_of (at.now ∷ word.now ∷ decimal m ∷ decimal n ∷ [])) (S.written out.old) (S.written out.new)
        (S.faults out.old) (S.faults out.new) result }
{
    let mut first = Buffer::new();
    let mut second = Buffer::new();
    let first = first.format(m).as_bytes();
    put_line(out, &[at, word, first, second.format(n).as_bytes()])
}

fn put_call<S: Sink>(out: &mut S, at: &[u8], a: u32, p: u32, n: u32) -> Result<(), Failed>
    ensures { Puts (line_of (at.now ∷ codes "call" ∷ decimal a ∷ decimal p ∷ decimal n ∷ [])) (S.written out.old)
        (S.written out.new) (S.faults out.old) (S.faults out.new) result }
{
    let mut addresses = Buffer::new();
    let mut arguments = Buffer::new();
    let mut words = Buffer::new();
    let address = addresses.format(a).as_bytes();
    let arguments = arguments.format(p).as_bytes();
    put_line(
        out,
        &[at, b"call", address, arguments, words.format(n).as_bytes()],
    )
}

fn put_spot<S: Sink>(out: &mut S, at: &[u8], word: &[u8], spot: Spot) -> Result<(), Failed>
    ensures { Puts (line_of (at.now ∷ word.now ∷ spot_words spot)) (S.written out.old) (S.written out.new)
        (S.faults out.old) (S.faults out.new) result }
{
    let mut buffer = Buffer::new();
    match spot {
        Spot::Global(k) => put_line(out, &[at, word, b"g", buffer.format(k).as_bytes()]),
        Spot::Local(k) => put_line(out, &[at, word, b"l", buffer.format(k).as_bytes()]),
    }
}

fn put_text<S: Sink>(out: &mut S, at: &[u8], text: &[u8]) -> Result<(), Failed>
    ensures { Puts (line_of (at.now ∷ codes "text" ∷ quoted text.now ∷ [])) (S.written out.old) (S.written out.new)
        (S.faults out.old) (S.faults out.new) result }
{
    put_pieces(out, &[at, b" text \"", text, b"\"\n"])
}

// A text, or nothing where there is none of this number.
fn text_of(texts: &[Text], k: u32) -> &[u8]
    ensures { result.now ≡ unwrap_or (slice_get texts.now k) [] }
{
    match texts.get(k as usize) {
        Some(text) => text.as_bytes(),
        None => b"",
    }
}

/// Writes the line of a recovery block.
pub(crate) fn put_block<S: Sink>(
    out: &mut S,
    number: usize,
    block: &BlockCode,
    names: &Names,
) -> Result<(), Failed>
    ensures { Puts (block_line (naming names.now) number (plain_block block.now)) (S.written out.old) (S.written out.new)
        (S.faults out.old) (S.faults out.new) result }
{
    put_block_place(out, number, block.line)?;
    put_block_rest(out, block, names)
}

fn put_block_place<S: Sink>(out: &mut S, number: usize, line: u32) -> Result<(), Failed>
    ensures { Puts (codes "block" ++ spaced (decimal number ∷ codes "line" ∷ decimal line ∷ [])) (S.written out.old)
        (S.written out.new) (S.faults out.old) (S.faults out.new) result }
{
    let mut numbers = Buffer::new();
    let mut lines = Buffer::new();
    let number = numbers.format(number).as_bytes();
    put_pieces(
        out,
        &[b"block ", number, b" line ", lines.format(line).as_bytes()],
    )
}

fn put_block_rest<S: Sink>(out: &mut S, block: &BlockCode, names: &Names) -> Result<(), Failed>
    ensures { Puts
        (spaced (block_kind (naming names.now) block.now.conversation)
        ++ (block_limits block.now.bound block.now.restart block.now.test ++ (spaced (map decimal block.now.alternates.items) ++ 10 ∷ [])))
        (S.written out.old) (S.written out.new) (S.faults out.old) (S.faults out.new) result }
{
    put_block_kind(out, block.conversation, names)?;
    put_block_addresses(out, block)
}

fn put_block_kind<S: Sink>(
    out: &mut S,
    conversation: Option<u32>,
    names: &Names,
) -> Result<(), Failed>
    ensures { Puts (spaced (block_kind (naming names.now) conversation)) (S.written out.old) (S.written out.new)
        (S.faults out.old) (S.faults out.new) result }
{
    match conversation {
        None => put(out, b" ensure"),
        Some(c) => put_pieces(out, &[b" converse ", conversation_of(names, c)]),
    }
}

// A conversation's name, or nothing where there is no such conversation.
fn conversation_of(names: &Names, conversation: u32) -> &[u8]
    ensures { result.now ≡ conversation_word (naming names.now) conversation }
{
    match names.conversations.get(conversation as usize) {
        Some(name) => name.as_bytes(),
        None => b"",
    }
}

fn put_block_addresses<S: Sink>(out: &mut S, block: &BlockCode) -> Result<(), Failed>
    ensures { Puts
        (block_limits block.now.bound block.now.restart block.now.test ++ (spaced (map decimal block.now.alternates.items) ++ 10 ∷ []))
        (S.written out.old) (S.written out.new) (S.faults out.old) (S.faults out.new) result }
{
    put_limits(out, block.bound, block.restart, block.test)?;
    put_alternates_line(out, &block.alternates)
}

fn put_limits<S: Sink>(out: &mut S, bound: u32, restart: u32, test: u32) -> Result<(), Failed>
    ensures { Puts (block_limits bound restart test) (S.written out.old) (S.written out.new) (S.faults out.old) (S.faults out.new) result }
{
    let mut bounds = Buffer::new();
    let mut restarts = Buffer::new();
    let mut tests = Buffer::new();
    let bound = bounds.format(bound).as_bytes();
    let restart = restarts.format(restart).as_bytes();
    let test = tests.format(test).as_bytes();
    put_pieces(
        out,
        &[
            b" within ",
            bound,
            b" restart ",
            restart,
            b" test ",
            test,
            b" alternates",
        ],
    )
}

fn put_alternates_line<S: Sink>(out: &mut S, alternates: &[u32]) -> Result<(), Failed>
    ensures { Puts (spaced (map decimal alternates.now) ++ 10 ∷ []) (S.written out.old) (S.written out.new)
        (S.faults out.old) (S.faults out.new) result }
{
    put_alternates(out, alternates)?;
    put(out, b"\n")
}

// Each address with a blank before it.
fn put_alternates<S: Sink>(out: &mut S, alternates: &[u32]) -> Result<(), Failed>
    ensures { Puts (spaced (map decimal alternates.now)) (S.written out.old) (S.written out.new) (S.faults out.old) (S.faults out.new) result }
{
    for address in alternates {
        put_spaced(out, *address)?;
    }
    Ok(())
}

fn put_spaced<S: Sink>(out: &mut S, number: u32) -> Result<(), Failed>
    ensures { Puts (spaced_word (decimal number)) (S.written out.old) (S.written out.new) (S.faults out.old) (S.faults out.new) result }
{
    let mut buffer = Buffer::new();
    put_pieces(out, &[b" ", buffer.format(number).as_bytes()])
}
