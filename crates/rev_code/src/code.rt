//! Instructions, blocks and tables.

use rev_num::{Bytes, Items, ValueKind};

/// An instruction. Jump targets are numbers of instructions of the same block, counted from 0; the
/// other operands are a value that is pushed, a line, or the number of a local of the block, or of
/// a variable, a layout or a block of the code.
#[derive(Clone, Copy)]
pub enum Instr {
    PushInt(i64),
    PushBool(bool),
    PushNone,
    LoadLocal(u8),
    StoreLocal(u8),
    LoadShared(u16),
    StoreShared(u16),
    LoadCell(u16),
    StoreCell(u16),
    CheckCell(u16),
    LoadInput,
    CountInput,
    Add,
    Sub,
    Mul,
    Div,
    Rem,
    Neg,
    Not,
    Eq,
    Ne,
    Lt,
    Le,
    Gt,
    Ge,
    Jump(u32),
    JumpIfFalse(u32),
    JumpIfTrue(u32),
    Apply(u16),
    /// The line of the statement that begins here, which costs 1.
    Charge(u32),
    Call(u16),
    Fork(u16),
    Join,
    Print(u32),
    Assert,
    Return,
    Pop,
    /// A join that goes on where the joined revision trapped, and tells it.
    TryJoin,
}

/// Code: the shared variables, the texts and layouts of what is printed, and the blocks.
#[derive(Drop)]
pub struct Code {
    pub vars: Items<CodeVar>,
    pub texts: Items<Bytes>,
    pub layouts: Items<Items<LayoutItem>>,
    pub blocks: Items<CodeBlock>,
}

/// A shared variable. Its locations follow those of the variable before it: one of a scalar,
/// `cells` of an array. Each starts with the word `start`: the 64 bits of an int, 1 or 0 for a
/// bool, and 0 for `none`. `merge` is the merge block of a cumulative variable, and 65,535
/// otherwise.
#[derive(Drop)]
pub struct CodeVar {
    pub name: Bytes,
    pub cumulative: bool,
    pub kind: ValueKind,
    pub array: bool,
    pub cells: u32,
    pub start: u64,
    pub merge: u16,
}

/// An item of a line that is printed: a number or a truth value from the stack, or the text of that
/// number.
#[derive(Clone, Copy)]
pub enum LayoutItem {
    Int,
    Bool,
    Text(u32),
}

/// A block of instructions. `locals` has the kinds of its locals, of which the first `params` are
/// its parameters. `result` is the kind of its result, and None where it has none.
#[derive(Drop)]
pub struct CodeBlock {
    pub class: BlockClass,
    pub params: u8,
    pub result: Option<ValueKind>,
    pub locals: Items<ValueKind>,
    pub instrs: Items<Instr>,
}

/// What a block is the code of.
#[derive(Clone, Copy)]
pub enum BlockClass {
    Fun,
    Merge,
    Proc,
    Main,
}
