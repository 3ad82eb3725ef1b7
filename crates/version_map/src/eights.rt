//! Eight words, and eight written locations that follow each other.

ghost use Rattle.std.specs.Prelude.{◌≡◌, ◌<◌, ◌≤◌, ◌+◌, ◌++◌, ◌^◌, true, false, drop, length, map, take};
ghost use Rattle.version_map.specs.Ascending.{IsAscending};
ghost use Rattle.version_map.specs.Following.{Follow};

use crate::end::Written;

/// Eight words from this place on.
pub fn eight_words(words: &[u64], at: usize) -> [u64; 8]
    requires { at + 8 ≤ length words.now }
    ensures { result ≡ take 8 (drop at words.now) }
{
    let mut eight = [0u64; 8];
    for k in 0..8usize {
        eight[k] = words[at + k];
    }
    eight
}

/// What eight written locations hold, from this place on.
pub fn eight_values(written: &[Written], at: usize) -> [u64; 8]
    requires { at + 8 ≤ length written.now }
    ensures { result ≡ map (λ w. w.value) (take 8 (drop at written.now)) }
{
    let mut eight = [0u64; 8];
    for k in 0..8usize {
        eight[k] = written[at + k].value;
    }
    eight
}

/// Their roots.
pub fn eight_roots(written: &[Written], at: usize) -> [u64; 8]
    requires { at + 8 ≤ length written.now }
    ensures { result ≡ map (λ w. w.root) (take 8 (drop at written.now)) }
{
    let mut eight = [0u64; 8];
    for k in 0..8usize {
        eight[k] = written[at + k].root;
    }
    eight
}

/// Whether so many written locations follow each other, from this place and this location on. They
/// ascend, so the first and the last of them tell.
pub fn follow(written: &[Written], at: usize, first: u32, many: u32) -> bool
    requires within { at + many ≤ length written.now }
    requires some { 0 < many }
    requires ascending { IsAscending written.now }
    ensures run { result ≡ true → Follow (drop at written.now) first many }
    ensures short { result ≡ true → first + many ≤ 2 ^ 32 }
    ensures apart { result ≡ false → Follow (drop at written.now) first many → ⊥ }
{
    let last = written[at + many as usize - 1].location;
    if written[at].location != first || last as u64 != first as u64 + many as u64 - 1 {
        return false;
    }
    true
}

/// Puts eight words from this place on.
pub fn put_eight(values: &mut [u64], at: usize, eight: [u64; 8])
    requires { at + 8 ≤ length values.old }
    ensures length { length values.new ≡ length values.old }
    ensures eight { take (at + 8) values.new ≡ take at values.old ++ eight }
    ensures behind { drop (at + 8) values.new ≡ drop (at + 8) values.old }
{
    for k in 0..8usize {
        values[at + k] = eight[k];
    }
}
