//! What faults and causes mean, how they usually come about and are mended, and a smallest example of each.
#![tactic(auto)]

pub mod laws;
mod lines;
mod listed;
mod texts;

ghost use Rattle.std.specs.Prelude.{◌≡◌, option_map};
ghost use Rattle.std.specs.List.{find, prefix_len};
ghost use Rattle.std.specs.Str.{str_eq_ignore_ascii_case};
ghost use Rattle.rb_reasons.specs.Names.{name_of, is_of_name, named};

pub use lines::headlines;
pub use listed::all_names;

/// The text of a fault or a cause; `None` where the word names neither. Large letters count as small ones. A text begins with its name and a colon.
pub fn reason_of(name: &[u8]) -> Option<&'static [u8]>
    ensures { option_map (λ text. name_of text.now) result ≡ named name.now }
{
    find_in(texts::of_source(), name)
        .or(find_in(texts::of_scopes(), name))
        .or(find_in(texts::of_nesting(), name))
        .or(find_in(texts::of_files(), name))
        .or(find_in(texts::of_causes(), name))
        .copied()
}

// The first of these texts that has this name.
fn find_in(texts: &'static [&'static [u8]], name: &[u8]) -> Option<&'static &'static [u8]>
    ensures { option_map (λ text. text.now) result ≡ find (λ text. str_eq_ignore_ascii_case (name_of text.now) name.now) texts.now }
{
    texts
        .iter()
        .find(|text| name_of(text).eq_ignore_ascii_case(name))
}

// What stands before the first colon of a text.
fn name_of(text: &[u8]) -> &[u8]
    ensures { result.now ≡ name_of text.now }
{
    &text[..name_len(text)]
}

fn name_len(text: &[u8]) -> usize
    ensures { result ≡ prefix_len is_of_name text.now }
{
    text.iter().take_while(|b| is_of_name(**b)).count()
}

fn is_of_name(b: u8) -> bool
    ensures { result ≡ is_of_name b }
{
    b != b':'
}
