//! Bits of one word.

ghost use Rattle.std.specs.Prelude.{◌≡◌, ◌≢◌, ℕ, ◌<◌, ◌≤◌, IfNone, IfSome};
ghost use Rattle.std.specs.Int.{bit_at};

/// The least bit from this one on that is 1, if there is one. A word has no bit from 64 on.
#[inline(always)]
pub fn next_bit(bits: u64, from: usize) -> Option<usize>
    ensures found { IfSome result (λ k. (from ≤ k) × (k < 64) × (bit_at bits k ≡ 1)) }
    ensures between { IfSome result (λ k. (i : ℕ) → from ≤ i → i < k → bit_at bits i ≡ 0) }
    ensures none { IfNone result ((i : ℕ) → from ≤ i → bit_at bits i ≡ 0) }
{
    if from >= 64 {
        return None;
    }
    let rest = bits >> from;
    if rest == 0 {
        return None;
    }
    Some(from + rest.trailing_zeros() as usize)
}

/// The word with this bit 1, and as it is where it has no such bit.
#[inline(always)]
pub fn with_bit(bits: u64, k: usize) -> u64
    ensures here { k < 64 → bit_at result k ≡ 1 }
    ensures others { (i : ℕ) → i < 64 → i ≢ k → bit_at result i ≡ bit_at bits i }
{
    if k < 64 { bits | 1 << k } else { bits }
}

/// The word with this bit 0.
#[inline(always)]
pub fn without_bit(bits: u64, k: usize) -> u64
    ensures here { k < 64 → bit_at result k ≡ 0 }
    ensures others { (i : ℕ) → i < 64 → i ≢ k → bit_at result i ≡ bit_at bits i }
{
    if k < 64 { bits & !(1 << k) } else { bits }
}
