//! The values that fields can have.

ghost use Rattle.std.specs.Prelude.{◌≡◌};
ghost use Rattle.code_file.specs.Parts as part;

use crate::version::Version;
use code_rules::has_cells;
use rev_code::BlockClass;
use rev_num::ValueKind;

/// The truth value that a byte stands for, if it is 0 or 1.
pub fn flag_of(n: u8) -> Option<bool>
    ensures { result ≡ part.flag_of n }
{
    match n {
        0 => Some(false),
        1 => Some(true),
        _ => None,
    }
}

/// The kind that a byte stands for: 0, 1 and 2 are int, bool and rev.
pub fn kind_of(n: u8) -> Option<ValueKind>
    ensures { result ≡ part.kind_of n }
{
    match n {
        0 => Some(ValueKind::Int),
        1 => Some(ValueKind::Bool),
        2 => Some(ValueKind::Rev),
        _ => None,
    }
}

/// The kind of a result, or none.
pub fn result_of(n: u8) -> Option<Option<ValueKind>>
    ensures { result ≡ part.result_of n }
{
    match n {
        0 => Some(Some(ValueKind::Int)),
        1 => Some(Some(ValueKind::Bool)),
        2 => Some(Some(ValueKind::Rev)),
        3 => Some(None),
        _ => None,
    }
}

/// The class of a block that a byte stands for: 0 to 3 are fun, merge, proc and `main`.
pub fn class_of(n: u8) -> Option<BlockClass>
    ensures { result ≡ part.class_of n }
{
    match n {
        0 => Some(BlockClass::Fun),
        1 => Some(BlockClass::Merge),
        2 => Some(BlockClass::Proc),
        3 => Some(BlockClass::Main),
        _ => None,
    }
}

/// The version of the file that a number stands for, 1 to 3.
pub fn version_of(n: u16) -> Option<Version>
    ensures { result ≡ part.version_of n }
{
    match n {
        1 => Some(Version::One),
        2 => Some(Version::Two),
        3 => Some(Version::Three),
        _ => None,
    }
}

/// Whether code of this version can have more than 64 locations.
pub fn is_wide(version: Version) -> bool
    ensures { result ≡ part.is_wide version }
{
    match version {
        Version::One => false,
        Version::Two => false,
        Version::Three => true,
    }
}

/// Whether code of this version can have a `TryJoin`.
pub fn has_tries(version: Version) -> bool
    ensures { result ≡ part.has_tries version }
{
    match version {
        Version::One => false,
        Version::Two => true,
        Version::Three => true,
    }
}

/// Whether a number can be the merge block of a variable.
pub fn is_merge(cumulative: bool, merge: u16) -> bool
    ensures { result ≡ part.is_merge cumulative merge }
{
    (merge == 65535) != cumulative
}

/// Whether a number can be the cells of a variable, of so many locations before it.
pub fn are_cells(wide: bool, array: bool, before: u64, cells: u32) -> bool
    ensures { result ≡ part.are_cells wide array before cells }
{
    has_cells(array, cells) && (wide || before.saturating_add(cells as u64) <= 64)
}
