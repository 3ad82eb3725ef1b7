//! The rules that code keeps, and those on its tables decided.
//!
//! `specs/Tables.antt` has the rules on tables, `specs/Shapes.antt` what each instruction takes and
//! gives, `specs/Pass.antt` the rules on instructions, as one pass that finds the first fault.
#![tactic(auto)]

mod classes;
mod tables;

pub use classes::{is_procedure, is_value_class};
pub use tables::{has_cells, is_name, is_small, is_start, is_text, names_well};

/// A rule on code. Where an instruction breaks several, the one that comes first here is reported.
#[derive(Clone, Copy)]
pub enum Rule {
    /// A target outside of the block, or one that is not after the jump, where it is no Charge or
    /// the block is a fun or merge.
    BadJump,
    /// An operand that names nothing of the right sort, or an instruction that has no place in a
    /// fun or merge.
    BadOperand,
    /// Too few words on the stack, shapes that differ where ways meet, words left where none may
    /// be, or a Call or Fork that no Charge has paid.
    StackShape,
    /// A word of another kind than the instruction takes.
    WrongKind,
    /// A local outside of those of the block.
    BadLocal,
    /// A last instruction that is neither Jump nor Return, or a block without instructions.
    FallsOff,
    /// A number above its limit.
    LimitOf,
}

/// What a fun or merge costs: the words that it needs, and how many instructions it has, with those
/// of the funs that it applies. Other blocks cost nothing.
#[derive(Clone, Copy)]
pub struct Cost {
    pub need: u64,
    pub count: u64,
}

/// Where code breaks a rule: the number of the block, and of the instruction in it. A fault of the
/// tables is BadOperand or LimitOf, at instruction 0 of block 0.
#[derive(Clone, Copy)]
pub struct Fault {
    pub block: usize,
    pub at: usize,
    pub rule: Rule,
}
