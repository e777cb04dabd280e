//! Scopes, and what a name means in them.

ghost use Rattle.std.specs.Prelude.{◌≡◌, ◌<◌, length, option_map, slice_get, take, Some, IfOk};
ghost use Rattle.std.specs.List.{list_any};
ghost use Rattle.rb_meaning.specs.Environment.{same_name};
ghost use Rattle.rb_scope.specs.Memory.{all_held, held, scopes_of, IsIndex};
ghost use Rattle.rb_scope.specs.Scopes.{declared_in, meaning_of};

use crate::declared::Declared;
use rb_base::Memory;
use std::alloc::Global;
use std::collections::HashMap;
use std::marker::Model;

/// The declarations of a scope, in the order of the text, and the place of the first of each name among them.
pub struct Scope<'a> {
    declared: Vec<Declared<'a>>,
    places: HashMap<&'a [u8], usize>,
}

impl Drop for Scope<'_> {
    fn drop(self) {
        let Scope {
            declared: _,
            places: _,
        } = self;
    }
}

impl<'a> Model for Scope<'a> {
    ghost use Rattle.std.specs.Prelude.{List};
    ghost use Rattle.rb_scope.specs.Scopes.{Declared as Plain};

    ghost Value = { List Plain };

    ghost use Rattle.rb_scope.specs.Memory.{all_held, IsIndex};

    ghost view = { λ scope. all_held scope.declared.items };

    ghost invariant = { λ scope. IsIndex scope.places scope.declared.items };
}

impl<'a> Scope<'a> {
    /// A scope of these declarations.
    pub fn new(alloc: Global, declared: Vec<Declared<'a>>) -> Result<Self, Memory>
        ensures { IfOk result (λ scope. scope ≡ all_held declared.entry.items) }
    {
        let places = index(alloc, &declared)?;
        Ok(Scope { declared, places })
    }

    /// How many declarations it has.
    pub fn len(&self) -> usize
        ensures { result ≡ length self.now }
    {
        self.declared.len()
    }

    /// A declaration by its place.
    pub fn at(&self, place: usize) -> Declared<'a>
        requires { place < length self.now }
        ensures { slice_get self.now place ≡ Some (held result) }
    {
        self.declared[place]
    }

    /// Whether a name is declared before a place.
    pub fn is_before(&self, name: &[u8], place: usize) -> bool
        ensures { result ≡ list_any (λ one. same_name one.name.text name.now) (take place self.now) }
    {
        match self.places.get(name) {
            None => false,
            Some(first) => *first < place,
        }
    }

    /// The first declaration of a name.
    pub fn find(&self, name: &[u8]) -> Option<Declared<'a>>
        ensures { option_map held result ≡ declared_in name.now self.now }
    {
        match self.places.get(name) {
            None => None,
            Some(first) => Some(self.declared[*first]),
        }
    }
}

/// The place of the first declaration of each name.
fn index<'a>(alloc: Global, declared: &[Declared<'a>]) -> Result<HashMap<&'a [u8], usize>, Memory>
    ensures { IfOk result (λ places. IsIndex places declared.now) }
{
    let mut places = HashMap::new(alloc);
    let mut place = declared.len();
    'places: while place > 0 {
        place -= 1;
        // The earlier of two of one name takes the place of the later.
        places.insert(declared[place].name.text, place)?;
    }
    Ok(places)
}

/// The scopes around a place, the innermost first.
#[derive(Clone, Copy)]
pub enum Scopes<'s, 'a> {
    None,
    Within(&'s Scope<'a>, &'s Scopes<'s, 'a>),
}

impl<'a> Scopes<'_, 'a> {
    /// What a name means: its declaration in the innermost scope that has one.
    pub fn meaning_of(&self, name: &[u8]) -> Option<Declared<'a>>
        ensures { option_map held result ≡ meaning_of name.now (scopes_of self.now) }
    {
        let mut rest = self;
        'scopes: while let Scopes::Within(scope, around) = rest {
            if let Some(one) = scope.find(name) {
                return Some(one);
            }
            rest = around;
        }
        None
    }
}
