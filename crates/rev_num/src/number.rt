//! Arithmetic on signed numbers of 64 bits, and their bits as words.

ghost use Rattle.std.specs.Prelude.{◌≡◌};
ghost use Rattle.rev_num.specs.Arith.{difference_of, negation_of, product_of};
ghost use Rattle.rev_num.specs.Arith.{quotient_of, remainder_of, sum_of};
ghost use Rattle.rev_num.specs.Words.{int_of, word_of};

use crate::value::NumFault;

/// The sum, or `Overflow` where it is outside of 64 bits.
pub fn add(a: i64, b: i64) -> Result<i64, NumFault>
    ensures { result ≡ sum_of a b }
{
    a.checked_add(b).ok_or(NumFault::Overflow)
}

/// The difference, or `Overflow` where it is outside of 64 bits.
pub fn sub(a: i64, b: i64) -> Result<i64, NumFault>
    ensures { result ≡ difference_of a b }
{
    a.checked_sub(b).ok_or(NumFault::Overflow)
}

/// The product, or `Overflow` where it is outside of 64 bits.
pub fn mul(a: i64, b: i64) -> Result<i64, NumFault>
    ensures { result ≡ product_of a b }
{
    a.checked_mul(b).ok_or(NumFault::Overflow)
}

/// The negation, or `Overflow` at the least number.
pub fn neg(a: i64) -> Result<i64, NumFault>
    ensures { result ≡ negation_of a }
{
    a.checked_neg().ok_or(NumFault::Overflow)
}

/// The quotient, rounded toward zero; `ZeroDivisor` where the divisor is 0, and `Overflow` at the
/// least number by -1.
pub fn div(a: i64, b: i64) -> Result<i64, NumFault>
    ensures { result ≡ quotient_of a b }
{
    if b == 0 {
        return Err(NumFault::ZeroDivisor);
    }
    a.checked_div(b).ok_or(NumFault::Overflow)
}

/// The remainder, with the sign of the dividend. It fails where the quotient does.
pub fn rem(a: i64, b: i64) -> Result<i64, NumFault>
    ensures { result ≡ remainder_of a b }
{
    if b == 0 {
        return Err(NumFault::ZeroDivisor);
    }
    a.checked_rem(b).ok_or(NumFault::Overflow)
}

/// The same 64 bits as a word.
pub fn word_of_int(n: i64) -> u64
    ensures value { result ≡ word_of n }
    ensures back { int_of result ≡ n }
{
    n.cast_unsigned()
}

/// The same 64 bits as a signed number.
pub fn int_of_word(w: u64) -> i64
    ensures value { result ≡ int_of w }
    ensures back { word_of result ≡ w }
{
    w.cast_signed()
}
