//! What the rules ask of one instruction.

ghost use Rattle.std.specs.Prelude.{◌≡◌};
ghost use Rattle.rev_code.specs.Step as meaning;
ghost use Rattle.code_rules.specs.Pass as pass;

use rev_code::{BlockClass, Instr};

/// Where it jumps to.
pub(crate) fn target(x: Instr) -> Option<u32>
    ensures { result ≡ pass.target x }
{
    match x {
        Instr::Jump(to) => Some(to),
        Instr::JumpIfFalse(to) => Some(to),
        Instr::JumpIfTrue(to) => Some(to),
        _ => None,
    }
}

/// Whether the next instruction can follow it.
pub(crate) fn falls(x: Instr) -> bool
    ensures { result ≡ pass.falls x }
{
    !matches!(x, Instr::Jump(_) | Instr::Return)
}

/// Whether the stack below what it takes must be empty.
pub(crate) fn is_bare(x: Instr) -> bool
    ensures { result ≡ pass.is_bare x }
{
    matches!(
        x,
        Instr::Charge(_)
            | Instr::Call(_)
            | Instr::Fork(_)
            | Instr::Join
            | Instr::TryJoin
            | Instr::Return
    )
}

/// Whether a Charge pays for it.
pub(crate) fn is_paid_for(x: Instr) -> bool
    ensures { result ≡ pass.is_paid_for x }
{
    matches!(x, Instr::Call(_) | Instr::Fork(_))
}

pub(crate) fn paid_after(paid: bool, x: Instr) -> bool
    ensures { result ≡ pass.paid_after paid x }
{
    match x {
        Instr::Charge(_) => true,
        Instr::Call(_) => false,
        Instr::Fork(_) => false,
        _ => paid,
    }
}

pub(crate) fn is_charge(x: Option<Instr>) -> bool
    ensures { result ≡ pass.is_charge x }
{
    matches!(x, Some(Instr::Charge(_)))
}

/// Whether it may stand in a fun or merge.
pub(crate) fn is_pure(x: Instr) -> bool
    ensures { result ≡ pass.is_pure x }
{
    match x {
        Instr::LoadShared(_) => false,
        Instr::StoreShared(_) => false,
        Instr::LoadCell(_) => false,
        Instr::StoreCell(_) => false,
        Instr::CheckCell(_) => false,
        Instr::LoadInput => false,
        Instr::CountInput => false,
        Instr::Charge(_) => false,
        Instr::Call(_) => false,
        Instr::Fork(_) => false,
        Instr::Join => false,
        Instr::Print(_) => false,
        Instr::Assert => false,
        Instr::TryJoin => false,
        _ => true,
    }
}

pub(crate) fn is_fun(class: BlockClass) -> bool
    ensures { result ≡ meaning.is_fun class }
{
    match class {
        BlockClass::Fun => true,
        BlockClass::Merge => false,
        BlockClass::Proc => false,
        BlockClass::Main => false,
    }
}
