//! The classes of blocks.

ghost use Rattle.std.specs.Prelude.{◌≡◌};
ghost use Rattle.rev_code.specs.Step as meaning;
ghost use Rattle.code_rules.specs.Pass as pass;

use rev_code::BlockClass;

/// Whether a block of this class has a value, as funs and merges have.
pub fn is_value_class(class: BlockClass) -> bool
    ensures { result ≡ pass.is_value_class class }
{
    match class {
        BlockClass::Fun => true,
        BlockClass::Merge => true,
        BlockClass::Proc => false,
        BlockClass::Main => false,
    }
}

/// Whether a block of this class is a procedure.
pub fn is_procedure(class: BlockClass) -> bool
    ensures { result ≡ meaning.is_procedure class }
{
    match class {
        BlockClass::Proc => true,
        BlockClass::Fun => false,
        BlockClass::Merge => false,
        BlockClass::Main => false,
    }
}
