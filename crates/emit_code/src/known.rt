//! What names mean in code.

ghost use Rattle.std.specs.Prelude.{◌≡◌};
ghost use Rattle.rev_syntax.specs.View.{placed_name};
ghost use Rattle.name_tables.specs.Table.{find};
ghost use Rattle.code_generation.specs.Expressions.{load};
ghost use Rattle.code_generation.specs.Statements.{store};
ghost use Rattle.emit_code.specs.Naming.{number_in, numbers_of};

use name_tables::NameTable;
use rev_code::Instr;
use rev_syntax::Name;

/// Numbers by names. A name that is not in the table has the next number.
#[derive(Drop)]
pub struct Numbered {
    pub table: NameTable<u16>,
    pub next: u16,
}

impl Numbered {
    /// The number of a name.
    fn number(&self, name: &Name) -> u16
        ensures { result ≡ number_in self.now name.now.text.items }
    {
        match self.table.find(&name.text) {
            Some(number) => number,
            None => self.next,
        }
    }
}

/// What names mean in the code of a program: the numbers of shared variables, the blocks of funs
/// and of procedures, and whether a call of a procedure leaves a result.
#[derive(Drop)]
pub struct NameNumbers {
    pub vars: Numbered,
    pub funs: Numbered,
    pub procs: Numbered,
    pub gives: NameTable<bool>,
}

impl NameNumbers {
    /// The number of the shared variable of a name.
    pub fn var(&self, name: &Name) -> u16
        ensures { result ≡ (numbers_of self.now).var name.now.text.items }
    {
        self.vars.number(name)
    }

    /// The block of the fun of a name.
    pub fn fun(&self, name: &Name) -> u16
        ensures { result ≡ (numbers_of self.now).fun name.now.text.items }
    {
        self.funs.number(name)
    }

    /// The block of the procedure of a name.
    pub fn proc(&self, name: &Name) -> u16
        ensures { result ≡ (numbers_of self.now).proc name.now.text.items }
    {
        self.procs.number(name)
    }

    /// Whether a call of the procedure of a name leaves a result.
    pub fn gives(&self, name: &Name) -> bool
        ensures { result ≡ (numbers_of self.now).gives name.now.text.items }
    {
        match self.gives.find(&name.text) {
            Some(gives) => gives,
            None => false,
        }
    }
}

/// What names mean in a block: those of the program, and the locals in scope.
#[derive(Clone, Copy, Drop)]
pub struct Known<'t> {
    pub numbers: &'t NameNumbers,
    pub scope: &'t NameTable<u8>,
}

impl Known<'_> {
    /// The instruction that pushes the local that the name means, or else the shared variable.
    pub fn load(&self, name: &Name) -> Instr
        ensures { result
            ≡ load (numbers_of self.now.numbers.now) (placed_name name.now)
            (find name.now.text.items self.now.scope.now) }
    {
        match self.scope.find(&name.text) {
            Some(local) => Instr::LoadLocal(local),
            None => Instr::LoadShared(self.numbers.var(name)),
        }
    }

    /// The instruction that pops into the local that the name means, or else into the shared
    /// variable.
    pub fn store(&self, name: &Name) -> Instr
        ensures { result
            ≡ store (numbers_of self.now.numbers.now) (placed_name name.now)
            (find name.now.text.items self.now.scope.now) }
    {
        match self.scope.find(&name.text) {
            Some(local) => Instr::StoreLocal(local),
            None => Instr::StoreShared(self.numbers.var(name)),
        }
    }
}
