//! Numbers and paths as text.

ghost use Rattle.std.specs.Prelude.{◌≡◌, ◌++◌, OnErr, OnOk, IfNone, IfSome, IsTrue, length, take};
ghost use Rattle.std.specs.Prelude.{ℤ};
ghost use Rattle.std.specs.Fmt.{signed_decimal};
ghost use Rattle.rev_num.specs.Arith.{fits_i64};
ghost use Rattle.std.specs.List.{flat_map};
ghost use Rattle.rev_num.specs.Decimal.{IsDecimal, decimal_in};
ghost use Rattle.rev_num.specs.Text.{behind_dot, fault_text, path_text};

use crate::path::Path;
use crate::value::NumFault;
use itoa::Buffer;
use std::alloc::AllocError;

/// The number for which the bytes are a decimal: an optional `-` and one or more digits, in 64
/// bits. Zeros may stand in front, and `-0` is 0; a `+` may not stand in front.
pub fn read_decimal(bytes: &[u8]) -> Option<i64>
    ensures value { result ≡ decimal_in bytes.now }
    ensures spelled { IfSome result (λ n. IsDecimal bytes.now n) }
    ensures none { IfNone result ((n : ℤ) → IsTrue (fits_i64 n) → IsDecimal bytes.now n → ⊥) }
{
    if bytes.starts_with(b"+") {
        return None;
    }
    let text = str::from_utf8(bytes).ok()?;
    text.parse::<i64>().ok()
}

/// Appends the number in decimal, with a minus in front of it where it is negative. Where memory
/// is wanting, the text stays as it was.
pub fn append_decimal(text: &mut Vec<u8>, n: i64) -> Result<(), AllocError>
    ensures ok { OnOk result (text.new.items ≡ text.old.items ++ signed_decimal n) }
    ensures err { OnErr result (text.new.items ≡ text.old.items) }
{
    let mut buffer = Buffer::new();
    text.extend_from_slice(buffer.format(n).as_bytes())?;
    Ok(())
}

/// Appends the numbers of the path with a dot between them, and `main` for the empty path. Where
/// memory is wanting, the text stays as it was.
pub fn append_path(text: &mut Vec<u8>, path: &Path) -> Result<(), AllocError>
    ensures ok { OnOk result (text.new.items ≡ text.old.items ++ path_text path.now) }
    ensures err { OnErr result (text.new.items ≡ text.old.items) }
{
    let len = text.len();
    let appended = append_dotted(text, path.numbers());
    if appended.is_err() {
        text.truncate(len);
    }
    appended
}

/// Appends the path that the numbers name. Where memory is wanting, the text still begins as
/// before.
fn append_dotted(text: &mut Vec<u8>, numbers: &[u32]) -> Result<(), AllocError>
    ensures ok { OnOk result (text.new.items ≡ text.old.items ++ path_text numbers.now) }
    ensures kept { take (length text.old.items) text.new.items ≡ text.old.items }
{
    match numbers {
        [] => text.extend_from_slice(b"main"),
        [first, rest @ ..] => {
            append_decimal(text, *first as i64)?;
            append_behind_dots(text, rest)
        }
    }
}

/// Appends each number with a dot in front of it. Where memory is wanting, the text still begins as
/// before.
fn append_behind_dots(text: &mut Vec<u8>, numbers: &[u32]) -> Result<(), AllocError>
    ensures ok { OnOk result (text.new.items ≡ text.old.items ++ flat_map behind_dot numbers.now) }
    ensures kept { take (length text.old.items) text.new.items ≡ text.old.items }
{
    for number in numbers {
        text.push(b'.')?;
        append_decimal(text, *number as i64)?;
    }
    Ok(())
}

/// How a fault of a number is written.
pub fn fault_name(fault: NumFault) -> &'static [u8]
    ensures { result.now ≡ fault_text fault }
{
    match fault {
        NumFault::Overflow => b"overflow",
        NumFault::ZeroDivisor => b"zero divisor",
    }
}
