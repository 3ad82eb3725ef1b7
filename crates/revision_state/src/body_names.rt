//! The names of the locals of a body, each with a number.

ghost use Rattle.std.specs.Prelude.{◌≡◌, length};
ghost use Rattle.name_tables.specs.Table.{find};
ghost use Rattle.revision_state.specs.LocalPlaces.{AreApart, AreBelow};

use name_tables::NameTable;

/// The names of the locals of a body, each with a number of its own. It is made once, and all
/// frames of the body share it.
#[derive(Drop)]
pub struct BodyNames {
    pub(crate) numbers: NameTable<usize>,
    ghost below: { AreBelow numbers },
    ghost apart: { AreApart numbers },
}

impl BodyNames {
    /// How many names there are.
    pub fn len(&self) -> usize
        ensures { result ≡ length self.now.numbers }
    {
        self.numbers.len()
    }

    /// The number of this name, if it has one.
    pub fn number(&self, name: &[u8]) -> Option<usize>
        ensures { result ≡ find name.now self.now.numbers }
    {
        self.numbers.find(name)
    }
}
