//! What the names of a program mean.

use name_tables::NameTable;
use rev_num::ValueKind;
use rev_syntax::Param;
use typed_programs::Holder;

/// A fun or a procedure: its parameters, and the kind of its result, if it has one.
#[derive(Clone, Copy, Drop)]
pub struct Callee<'a> {
    pub params: &'a [Param],
    pub result: Option<ValueKind>,
}

/// The locals in scope, each with its kind. A local whose right side has no kind has none.
pub type Locals = NameTable<Option<ValueKind>>;

/// What names mean: the shared variables, the procedures and the funs of a program. Inside a fun or
/// a merge no shared variable and no input is known.
#[derive(Drop)]
pub struct Checker<'t, 'a> {
    pub shared: &'t NameTable<Holder>,
    pub procs: &'t NameTable<Callee<'a>>,
    pub funs: &'t NameTable<Callee<'a>>,
    pub inside: bool,
}
