//! Which recovery blocks are open behind tokens, and how many alternates a block has.

ghost use Rattle.std.specs.Prelude.{◌≡◌, [], None, map, IfOk};
ghost use Rattle.rb_lex.specs.Reader.{lexeme_of};
ghost use Rattle.rb_why.specs.Blocks.{alternates, blocks_after, blocks_open, innermost_begun, innermost_private, named_behind_converse, outermost_named};

use rb_base::{Memory, Place};
use rb_lex::Token;
use std::alloc::Global;

/// A recovery block that is open: where its `ensure` stands, and the name of its conversation, if it has one.
#[derive(Clone, Copy)]
pub(crate) struct Block {
    pub(crate) begun: Place,
    pub(crate) named: Option<Place>,
}

/// The blocks that are open behind all these tokens, the outermost first.
pub(crate) fn blocks_open(alloc: Global, tokens: &[Token<'_>]) -> Result<Vec<Block>, Memory>
    ensures { IfOk result (λ blocks. blocks.items ≡ blocks_open (map lexeme_of tokens.now)) }
{
    let mut blocks = Vec::new(alloc);
    let mut named = None;
    let mut before: &[u8] = &[];
    let mut rest = tokens;
    while let [token, after @ ..] = rest {
        blocks = blocks_after(blocks, named, token)?;
        named = named_behind_converse(before, token);
        before = token.text;
        rest = after;
    }
    Ok(blocks)
}

// The blocks that are open behind a token, where this conversation is named right before it.
fn blocks_after(
    blocks: Vec<Block>,
    named: Option<Place>,
    token: &Token<'_>,
) -> Result<Vec<Block>, Memory>
    ensures { IfOk result (λ now. now.items ≡ blocks_after blocks.items named (lexeme_of token.now)) }
{
    let mut now = blocks;
    if token.text == b"ensure".as_slice() {
        now.push(Block {
            begun: token.place,
            named,
        })?;
    } else if token.text == b"error".as_slice() {
        let _ended = now.pop();
    }
    Ok(now)
}

// The place of a token that names a conversation, which one right behind a `converse` does.
fn named_behind_converse(before: &[u8], token: &Token<'_>) -> Option<Place>
    ensures { result ≡ named_behind_converse before.now (lexeme_of token.now) }
{
    if before == b"converse".as_slice() {
        Some(token.place)
    } else {
        None
    }
}

/// The `ensure` of the innermost block that is no conversation's.
pub(crate) fn innermost_private(blocks: &[Block]) -> Option<Place>
    ensures { result ≡ innermost_private blocks.now None }
{
    let mut found = None;
    let mut rest = blocks;
    while let [block, after @ ..] = rest {
        if block.named.is_none() {
            found = Some(block.begun);
        }
        rest = after;
    }
    found
}

/// The name of the outermost block that is a conversation's.
pub(crate) fn outermost_named(blocks: &[Block]) -> Option<Place>
    ensures { result ≡ outermost_named blocks.now }
{
    let mut rest = blocks;
    while let [block, after @ ..] = rest {
        if block.named.is_some() {
            return block.named;
        }
        rest = after;
    }
    None
}

/// The `ensure` of the innermost block of any kind.
pub(crate) fn innermost_begun(blocks: &[Block]) -> Option<Place>
    ensures { result ≡ innermost_begun blocks.now }
{
    let block = blocks.get(blocks.len().saturating_sub(1))?;
    Some(block.begun)
}

/// How many alternates the first block among these tokens has: those of blocks inside it are not counted.
pub(crate) fn alternates(tokens: &[Token<'_>]) -> usize
    ensures { result ≡ alternates 0 (map lexeme_of tokens.now) }
{
    let mut count = 0_usize;
    let mut depth = 0_usize;
    let mut rest = tokens;
    while let [token, after @ ..] = rest {
        if token.text == b"ensure".as_slice() {
            depth += 1;
        } else if token.text == b"error".as_slice() {
            if depth <= 1 {
                return count;
            }
            depth -= 1;
        } else if token.text == b"by".as_slice() && depth == 1 {
            count += 1;
        }
        rest = after;
    }
    count
}
