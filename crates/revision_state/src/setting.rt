//! What a run is given, with the tables that its steps look into.

ghost use Rattle.std.specs.Prelude.{◌≡◌, ◌<◌, ℕ, Some, length, slice_get};
ghost use Rattle.rev_syntax.specs.View.{program as whole};
ghost use Rattle.name_tables.specs.Names as names;
ghost use Rattle.name_tables.specs.Table.{find};
ghost use Rattle.typed_programs.specs.Layout as layout;
ghost use Rattle.revision_calculus.specs.Join.{merges_of};
ghost use Rattle.revision_state.specs.Tables.{info_of, number_of};

use crate::bodies::Bodies;
use name_tables::NameTable;
use typed_programs::{SharedInfo, Typed};

/// A typed program with the input numbers and the most fuel that a fork gives to its child.
#[derive(Drop)]
pub struct Setting<'a> {
    pub typed: &'a Typed,
    pub input: &'a [i64],
    pub share: u64,
    /// The first shared variable of each name.
    pub(crate) variables: NameTable<SharedInfo>,
    /// The number of the declaration of the first procedure of each name.
    pub(crate) procedures: NameTable<u32>,
    /// The names of the locals of `main` and of each procedure.
    pub(crate) bodies: Bodies,
    /// The number of the merge of each location that has one.
    pub merges: Vec<Option<u32>>,
    ghost variables_found: { (name : names.Name) → find name variables
        ≡ info_of (whole typed.now.expanded.program) name },
    ghost procedures_found: { (name : names.Name) → find name procedures
        ≡ number_of (whole typed.now.expanded.program) name },
    ghost merges_listed: { merges.items
        ≡ merges_of (layout.variables (whole typed.now.expanded.program)) },
    ghost merges_known: { (k n : ℕ) → slice_get merges.items k ≡ Some (Some n)
        → n < length typed.now.expanded.merges },
}

impl<'a> Setting<'a> {
    /// The program.
    pub fn typed(&self) -> &'a Typed
        ensures { result.now ≡ self.now.typed.now }
    {
        self.typed
    }
}
