//! Eight sums at once, by lanes.

ghost use Rattle.std.specs.Prelude.{◌≡◌, ◌≤◌, ◌+◌, ◌++◌, FitsSigned, length, map, take};
ghost use Rattle.std.specs.Int.{w64};
ghost use Rattle.rev_num.specs.Words.{word_of};
ghost use Rattle.merge_kernels.specs.Lanes.{AreLanes, lanes_answer};
ghost use Rattle.merge_kernels.specs.Terms.{answer_of};
ghost use Rattle.merge_kernels.specs.Three.{sum_expression};

use rev_num::word_of_int;
use std::simd::prelude::*;

/// A number tells that it has 64 bits.
fn note_number(x: i64)
    ensures { FitsSigned w64 x }
{}

/// Reads eight numbers, since what holds them does not tell that they have 64 bits.
pub fn note_lanes(xs: &[i64])
    requires { length xs.now ≡ 8 }
    ensures { AreLanes xs.now }
{
    for k in 0..xs.len() {
        note_number(xs[k]);
    }
}

/// The value of `m + j - r` for each lane; none exactly where a lane's sum or difference is outside
/// of 64 bits. It takes no memory.
pub fn sum_lanes(main: [i64; 8], join: [i64; 8], root: [i64; 8]) -> Option<[i64; 8]>
    ensures { result ≡ lanes_answer (answer_of sum_expression) main join root }
{
    note_lanes(&main);
    note_lanes(&join);
    note_lanes(&root);
    let m = i64x8::from_array(main);
    let j = i64x8::from_array(join);
    let r = i64x8::from_array(root);
    let zero = i64x8::splat(0);
    let sum = m + j;
    let all = sum - r;
    let below = sum.simd_lt(zero);
    let past_sum = (below ^ m.simd_lt(zero)) & (below ^ j.simd_lt(zero));
    let past_all = (below ^ all.simd_lt(zero)) & (below ^ r.simd_lt(zero));
    if (past_sum | past_all).any() {
        None
    } else {
        Some(all.to_array())
    }
}

/// Puts the words of eight numbers from this place on.
#[inline(always)]
pub(crate) fn put_lanes(ints: &[i64; 8], values: &mut [u64], at: usize)
    requires { at + 8 ≤ length values.old }
    ensures length { length values.new ≡ length values.old }
    ensures put { take (at + 8) values.new ≡ take at values.old ++ map word_of ints.now }
{
    for k in 0..8usize {
        values[at + k] = word_of_int(ints[k]);
    }
}
