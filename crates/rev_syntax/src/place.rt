//! Lines and columns of a text.
ghost use Rattle.std.specs.Prelude.{◌≡◌, ◌<◌, ◌≤◌, ◌^◌, ◌-◌, length};
ghost use Rattle.std.specs.List.{suffix_len};
ghost use Rattle.rev_syntax.specs.Bytes.{is_no_line_feed};
ghost use Rattle.rev_syntax.specs.Places.{line_of, column_of};

/// The number of bytes after the last line feed.
fn last_line(before: &[u8]) -> usize
    ensures bound { result ≤ length before.now }
    ensures count { result ≡ suffix_len is_no_line_feed before.now }
{
    before.iter().rev().take_while(|b| **b != b'\n').count()
}

/// The line and the column of an offset, both counted from 1. Only a line feed ends a line, and
/// columns count bytes.
pub fn line_column(bytes: &[u8], at: u32) -> (u32, u32)
    requires inside { at ≤ length bytes.now }
    requires small { length bytes.now < 2 ^ 32 - 1 }
    ensures line { result.0 ≡ line_of bytes.now at }
    ensures column { result.1 ≡ column_of bytes.now at }
{
    let before = &bytes[..at as usize];
    let line = before.iter().filter(|b| **b == b'\n').count();
    (1 + line as u32, 1 + last_line(before) as u32)
}
