//! All faults and causes, in a line each.
ghost use Rattle.std.specs.Prelude.{◌≡◌, ◌++◌, map, IfOk, OnOk, take_while};
ghost use Rattle.std.specs.List.{flat_map, prefix_len};
ghost use Rattle.rb_reasons.specs.Headlines.{AreHeadlines, headline, is_of_line};

use crate::texts;
use rb_base::Memory;
use std::alloc::Global;

/// The first line of each text, in their order: its name, and what it means.
pub fn headlines(alloc: Global) -> Result<Vec<u8>, Memory>
    ensures { IfOk result (λ told. AreHeadlines told.items) }
{
    let mut told = Vec::new(alloc);
    push_headlines(&mut told, texts::of_source())?;
    push_headlines(&mut told, texts::of_scopes())?;
    push_headlines(&mut told, texts::of_nesting())?;
    push_headlines(&mut told, texts::of_files())?;
    push_headlines(&mut told, texts::of_causes())?;
    Ok(told)
}

// The first lines of these texts.
fn push_headlines(told: &mut Vec<u8>, texts: &[&[u8]]) -> Result<(), Memory>
    ensures { OnOk result (told.new.items ≡ told.old.items ++ flat_map headline (map (λ text. text.now) texts.now)) }
{
    let mut rest = texts;
    while let [text, after @ ..] = rest {
        push_headline(told, text)?;
        rest = after;
    }
    Ok(())
}

fn push_headline(told: &mut Vec<u8>, text: &[u8]) -> Result<(), Memory>
    ensures { OnOk result (told.new.items ≡ told.old.items ++ headline text.now) }
{
    told.extend_from_slice(first_line(text))?;
    told.extend_from_slice(b"\n")?;
    Ok(())
}

// What stands before the first line end of a text.
fn first_line(text: &[u8]) -> &[u8]
    ensures { result.now ≡ take_while is_of_line text.now }
{
    &text[..line_len(text)]
}

fn line_len(text: &[u8]) -> usize
    ensures { result ≡ prefix_len is_of_line text.now }
{
    text.iter().take_while(|b| is_of_line(**b)).count()
}

fn is_of_line(b: u8) -> bool
    ensures { result ≡ is_of_line b }
{
    b != b'\n'
}
