//! The counters of the quantified expressions around an expression.

ghost use Rattle.std.specs.Prelude.{◌≡◌, ◌∷◌};
ghost use Rattle.rb_meaning.specs.Value.{counter_of};
ghost use Rattle.rb_walk.specs.Counters.{counted};

/// What quantified names stand for, the innermost first.
#[derive(Clone, Copy)]
pub enum Counters<'c> {
    None,
    Inner(&'c [u8], i64, &'c Counters<'c>),
}

impl Counters<'_> {
    /// One more counter, which hides others of its name.
    pub fn with<'c>(&'c self, name: &'c [u8], value: i64) -> Counters<'c>
        ensures { counted result ≡ (name.now, value) ∷ counted self.now }
    {
        Counters::Inner(name, value, self)
    }

    /// What a name stands for, if it is a counter.
    pub fn get(&self, name: &[u8]) -> Option<i64>
        ensures { result ≡ counter_of (counted self.now) name.now }
    {
        let mut rest = self;
        while let Counters::Inner(counter, value, outer) = rest {
            if *counter == name {
                return Some(*value);
            }
            rest = outer;
        }
        None
    }
}
