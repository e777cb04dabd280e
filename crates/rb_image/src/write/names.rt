//! Names, and the conversations.

ghost use Rattle.std.specs.Prelude.{ℕ, ◌++◌};
ghost use Rattle.rb_world.specs.Kind.{Membership};
ghost use Rattle.rb_world.specs.Text.{Naming, ProcessNaming, VariableNaming};
ghost use Rattle.rb_trace.specs.Naming.{naming, process_naming, variable_naming};
ghost use Rattle.rb_nest.specs.Groups.{membership};
ghost use Rattle.rb_image.specs.Image.{group, process_names, variable};
ghost use Rattle.rb_image.specs.Pieces.{list, text as text_bytes};
ghost use Rattle.rb_image.specs.Ranges.{AreNames, AreProcessNames, IsGroup, IsNatural, IsVariable};

use crate::write::list::Spelled;
use rb_base::{Group, Names, ProcessNames, Variable};
use rb_outside::{Failed, Sink};

impl Spelled for Variable {
    ghost Plain = { VariableNaming };

    ghost plain = { variable_naming };

    ghost bytes = { variable };

    ghost Ranges = { IsVariable };

    fn put<S: Sink>(&self, out: &mut S) -> Result<(), Failed> {
        (&self.name, &(&self.at, &self.size)).put(out)
    }
}

impl Spelled for ProcessNames {
    ghost Plain = { ProcessNaming };

    ghost plain = { process_naming };

    ghost bytes = { process_names };

    ghost Ranges = { AreProcessNames };

    fn put<S: Sink>(&self, out: &mut S) -> Result<(), Failed> {
        (&self.name, &self.variables).put(out)
    }
}

impl Spelled for Group {
    ghost Plain = { Membership × ℕ };

    ghost plain = { λ one. (membership one, one.alternates) };

    ghost bytes = { group };

    ghost Ranges = { λ one. IsGroup one.0 × IsNatural one.1 };

    fn put<S: Sink>(&self, out: &mut S) -> Result<(), Failed> {
        (&self.members, &(&self.parent, &self.alternates)).put(out)
    }
}

/// The names that printed lines speak of.
impl Spelled for Names {
    ghost Plain = { Naming };

    ghost plain = { naming };

    ghost bytes = { λ names.
        list process_names names.processes ++ (list text_bytes names.channels ++ list text_bytes names.conversations) };

    ghost Ranges = { AreNames };

    fn put<S: Sink>(&self, out: &mut S) -> Result<(), Failed> {
        (&self.processes, &(&self.channels, &self.conversations)).put(out)
    }
}
