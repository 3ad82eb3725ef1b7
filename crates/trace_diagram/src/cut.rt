//! Bytes that are cut in two.
ghost use Rattle.std.specs.Prelude.{MatchOption};
ghost use Rattle.trace_diagram.specs.Cuts.{IsCut, IsWithout};

/// What stands before the first such byte, and what stands behind it.
pub(crate) fn cut(bytes: &[u8], byte: u8) -> Option<(&[u8], &[u8])>
    ensures { MatchOption result (IsWithout byte bytes.now)
        (λ x. IsCut byte bytes.now x.0.now x.1.now) }
{
    let front = bytes.iter().take_while(|b| **b != byte).count();
    if front < bytes.len() {
        Some((&bytes[..front], &bytes[front + 1..]))
    } else {
        None
    }
}
