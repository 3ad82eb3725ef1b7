//! A program that was checked, with the tables that were made of it.

ghost use Rattle.std.specs.Prelude.{◌≡◌, [], map};
ghost use Rattle.rev_syntax.specs.View.{declaration, program as whole};
ghost use Rattle.typed_programs.specs.Program as program;

use crate::tables::Tables;
use rev_num::Items;
use typed_programs::{Expanded, Typed};

/// A checked program with its tables.
pub(crate) fn make_typed(expanded: Expanded, tables: Tables) -> Typed
    requires keeps { program.faults (whole expanded.program) ≡ [] }
    requires shared { tables.shared.items
        ≡ program.infos program.nothing_passed (map declaration expanded.program.decls.items) }
    requires procs { tables.procs.items
        ≡ program.proc_decls 0 (map declaration expanded.program.decls.items) }
    requires locations { tables.locations ≡ program.locations (whole expanded.program) }
    ensures { whole result.expanded.program ≡ whole expanded.program }
{
    let Tables {
        shared,
        procs,
        locations,
    } = tables;
    Typed {
        expanded,
        shared: Items::from_vec(shared),
        procs: Items::from_vec(procs),
        locations,
    }
}
