//! Programs whose applications have the numbers of their funs.

ghost use Rattle.std.specs.Prelude.{◌≡◌, ◌<◌, ◌^◌, [], length, map};
ghost use Rattle.rev_syntax.specs.Small.{IsSmall};
ghost use Rattle.rev_syntax.specs.View.{declaration, program as whole};
ghost use Rattle.name_tables.specs.Names.{Name};
ghost use Rattle.name_tables.specs.Table.{find};
ghost use Rattle.typed_programs.specs.FunRules as rule;
ghost use Rattle.typed_programs.specs.Expands.{decls_of_funs, decls_of_merges};

use name_tables::NameTable;
use rev_num::Items;
use rev_syntax::Program;

/// A fun, by the number of its declaration.
#[derive(Clone, Copy, Drop)]
pub struct FunDef {
    pub decl: u32,
}

/// A merge, by the number of its declaration.
#[derive(Clone, Copy, Drop)]
pub struct MergeRef {
    pub decl: u32,
}

/// A fun: the number of its declaration, its number among the funs, and how many parameters it has.
#[derive(Clone, Copy, Drop)]
pub struct FunHead {
    pub decl: u32,
    pub number: u32,
    pub params: usize,
}

/// A small program that keeps the rules on funs: the declarations of its funs and of its merges in
/// order, and for each application, from left to right, the number of its fun.
#[derive(Drop)]
pub struct Expanded {
    pub program: Program,
    pub funs: Items<FunDef>,
    pub merges: Items<MergeRef>,
    pub uses: Items<u32>,
    /// The first fun of each name.
    pub table: NameTable<FunHead>,
    ghost small: { IsSmall (whole program) },
    ghost few: { length program.decls.items < 2 ^ 32 },
    ghost keeps_rules: { rule.fun_faults (whole program) ≡ [] },
    ghost funs_listed: { decls_of_funs funs
        ≡ rule.fun_decls 0 (map declaration program.decls.items) },
    ghost merges_listed: { decls_of_merges merges
        ≡ rule.merge_decls 0 (map declaration program.decls.items) },
    ghost uses_numbered: { uses
        ≡ rule.numbers_of (rule.fun_named (whole program)) (rule.uses_in (whole program)) },
    ghost funs_found: { (name : Name) → find name table ≡ rule.fun_named (whole program) name },
}
