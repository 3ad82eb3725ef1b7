//! Well-typed programs.

ghost use Rattle.std.specs.Prelude.{◌≡◌, [], map};
ghost use Rattle.rev_syntax.specs.View.{declaration, program as whole};
ghost use Rattle.typed_programs.specs.Layout.{shared_rows, proc_rows};
ghost use Rattle.typed_programs.specs.Limits.{cells};
ghost use Rattle.typed_programs.specs.Program as program;

use crate::expanded::Expanded;
use crate::shared_info::SharedInfo;
use rev_num::Items;

/// A program that breaks no static rule and no limit, with the tables that its runs go by: its
/// shared variables in order, the numbers of the declarations that are procedures, and how many
/// locations there are.
#[derive(Drop)]
pub struct Typed {
    pub expanded: Expanded,
    pub shared: Items<SharedInfo>,
    pub procs: Items<u32>,
    pub locations: u32,
    ghost well_typed: { program.faults (whole expanded.program) ≡ [] },
    ghost shared_listed: { shared ≡ shared_rows (whole expanded.program) },
    ghost procs_listed: { procs ≡ proc_rows (whole expanded.program) },
    ghost located: { locations ≡ cells (map declaration expanded.program.decls.items) },
}
