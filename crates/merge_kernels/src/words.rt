//! Merges of words by kernels.

ghost use Rattle.std.specs.Prelude.{◌≡◌, map, option_map};
ghost use Rattle.rev_num.specs.Words.{int_of, word_of};
ghost use Rattle.merge_kernels.specs.Lanes.{AreLanes};
ghost use Rattle.merge_kernels.specs.Terms.{definition};
ghost use Rattle.merge_kernels.specs.Words.{merged, merged_lanes, word_answer};

use crate::kernel::{Kernel, RowKernel};
use crate::lanes::note_lanes;
use rev_num::{NumFault, int_of_word, word_of_int};
use std::simd::prelude::*;

/// The word of a number, or the fault.
fn word_of_answer(answer: Result<i64, NumFault>) -> Result<u64, NumFault>
    ensures { result ≡ word_answer answer }
{
    match answer {
        Ok(n) => Ok(word_of_int(n)),
        Err(fault) => Err(fault),
    }
}

/// The merge of three words by the definition of a kernel. It takes no memory of its own.
#[inline(always)]
pub fn by_kernel(kernel: &Kernel, main: u64, join: u64, root: u64) -> Result<u64, NumFault>
    ensures { result ≡ merged (definition kernel.now.def) main join root }
{
    let main = int_of_word(main);
    let join = int_of_word(join);
    let root = int_of_word(root);
    word_of_answer(kernel.call(main, join, root))
}

/// The numbers of eight words. They are stored by twos as vectors: a row loads them as vectors,
/// and such a load waits where its lanes were stored one by one.
#[inline(always)]
pub(crate) fn ints_of(words: [u64; 8]) -> [i64; 8]
    ensures ints { result ≡ map int_of words }
    ensures lanes { AreLanes result }
{
    let mut ints = [0i64; 8];
    for pair in 0..4usize {
        let k = 2 * pair;
        let two = i64x2::from_array([int_of_word(words[k]), int_of_word(words[k + 1])]);
        two.copy_to_slice(&mut ints[k..k + 2]);
    }
    note_lanes(&ints);
    ints
}

/// The words of eight numbers.
fn words_of(ints: [i64; 8]) -> [u64; 8]
    ensures { result ≡ map word_of ints }
{
    let mut words = [0u64; 8];
    for k in 0..8usize {
        words[k] = word_of_int(ints[k]);
    }
    words
}

/// The merges of eight triples of words by the definition of a row, or none where one faults. It
/// takes no memory of its own.
pub fn by_row(row: &RowKernel, main: [u64; 8], join: [u64; 8], root: [u64; 8]) -> Option<[u64; 8]>
    ensures { result ≡ merged_lanes (definition row.now.def) main join root }
{
    match row.call(ints_of(main), ints_of(join), ints_of(root)) {
        Some(eight) => Some(words_of(eight)),
        None => None,
    }
}
