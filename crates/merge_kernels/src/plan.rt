//! Which kernel merges which location.

ghost use Rattle.std.specs.Prelude.{◌≡◌, ◌<◌, ◌≤◌, ◌+◌, ◌*◌, IfSome, MatchBool, None, Some, true, drop, is_some, length, map, option_map, take};
ghost use Rattle.std.specs.Option.{option_copied};
ghost use Rattle.merge_kernels.specs.Plans.{AreWithin, IsRowFor, choice_at, chosen_at, has_row, have, row_choice};
ghost use Rattle.merge_kernels.specs.Plans.{AreLevel, AreLike};
ghost use Rattle.merge_kernels.specs.Terms.{definition};

use crate::finding::kernel_at;
use crate::kernel::{Kernel, RowKernel};

/// For each location the number of a kernel, or none. It is made once, and lent to all threads of a
/// run.
#[derive(Drop)]
pub struct KernelPlan<'k> {
    choices: Vec<Option<u32>>,
    // For each of the first 64 rows of 64 locations, of how many locations from the first of the
    // row on it is known that they have one choice, or none at all.
    level: [u32; 64],
    kernels: &'k [Kernel],
    ghost within: { AreWithin choices.items (map (λ k. definition k.def) kernels.now) },
    ghost levels: { AreLevel level choices.items },
}

impl<'k> KernelPlan<'k> {
    /// A choice for each location, which is a place of these kernels. It takes no memory.
    pub fn new(choices: Vec<Option<u32>>, kernels: &'k [Kernel]) -> KernelPlan<'k>
        requires { AreWithin choices.items (map (λ k. definition k.def) kernels.now) }
        ensures choices { result.choices ≡ choices }
        ensures kernels { result.kernels.now ≡ kernels.entry.now }
    {
        let level = level_rows(choices.as_slice());
        KernelPlan {
            choices,
            level,
            kernels,
        }
    }

    /// The choices, by location.
    pub fn into_choices(self) -> Vec<Option<u32>>
        ensures { result ≡ self.entry.choices }
    {
        self.choices
    }

    /// The kernel that was chosen for this location.
    #[inline(always)]
    pub fn at(&self, location: u32) -> Option<&Kernel>
        ensures { option_map (λ k. definition k.def) (option_copied result)
            ≡ chosen_at self.now.choices.items
            (map (λ k. definition k.def) self.now.kernels.now) location }
    {
        match self.choice(location) {
            Some(n) => Some(kernel_at(self.kernels, n as usize)),
            None => None,
        }
    }

    /// What was chosen for this location.
    #[inline(always)]
    fn choice(&self, location: u32) -> Option<u32>
        ensures { result ≡ choice_at self.now.choices.items location }
    {
        match self.choices.get(location as usize) {
            Some(choice) => *choice,
            None => None,
        }
    }

    /// The row of the one kernel that was chosen for the eight locations from this one on; none
    /// where they have no one choice, and where its kernel has no row.
    #[inline(always)]
    pub fn row(&self, first: u32) -> Option<&RowKernel>
        ensures any { is_some result ≡ has_row self.now.choices.items
            (map (λ k. is_some k.row) self.now.kernels.now) first }
        ensures row { IfSome result (λ r. IsRowFor self.now.choices.items
            (map (λ k. definition k.def) self.now.kernels.now) first (definition r.now.def)) }
    {
        let Some(n) = self.choice(first) else {
            return None;
        };
        let Some(row) = kernel_at(self.kernels, n as usize).row() else {
            return None;
        };
        if self.is_one_choice(first, n) {
            Some(row)
        } else {
            None
        }
    }

    /// Whether all eight locations from this one on have the choice that this one has.
    #[inline(always)]
    fn is_one_choice(&self, first: u32, n: u32) -> bool
        requires { choice_at self.now.choices.items first ≡ Some n }
        ensures { MatchBool result (row_choice self.now.choices.items first ≡ Some n)
            (row_choice self.now.choices.items first ≡ None) }
    {
        if self.level_from(first) >= 8 {
            return true;
        }
        self.have_eight(first, n)
    }

    /// Of how many locations from this one on it is known that they have one choice, or none at
    /// all. It is 0 where nothing is known.
    #[inline(always)]
    pub(crate) fn level_from(&self, first: u32) -> u32
        ensures { 0 < result → AreLike self.now.choices.items first result }
    {
        let row = first as usize / 64;
        if row >= 64 {
            return 0;
        }
        self.level[row].saturating_sub(first % 64)
    }

    /// The same as `is_one_choice`, by a look at each of the eight.
    fn have_eight(&self, first: u32, n: u32) -> bool
        requires { choice_at self.now.choices.items first ≡ Some n }
        ensures { MatchBool result (row_choice self.now.choices.items first ≡ Some n)
            (row_choice self.now.choices.items first ≡ None) }
    {
        let at = first as usize;
        let choices = self.choices.as_slice();
        if choices.len() < at + 8 {
            return false;
        }
        all_have(&eight_choices(choices, at), n)
    }
}

/// Of each of the first 64 rows of 64 locations, how many locations from its first on have one
/// choice, or none at all, as far as whole rows tell: 0 where the row has several.
fn level_rows(choices: &[Option<u32>]) -> [u32; 64]
    ensures { AreLevel result choices.now }
{
    let mut rows = [0u32; 64];
    let count = (choices.len() / 64).min(64);
    let mut behind = 0;
    for k in 0..count {
        let row = count - 1 - k;
        behind = level_with(choices, row, behind);
        rows[row] = behind;
    }
    rows
}

/// The same of one row, where so many locations behind it are alike.
fn level_with(choices: &[Option<u32>], row: usize, behind: u32) -> u32
    requires inside { 64 * row + 64 ≤ length choices.now }
    requires behind { 0 < behind → AreLike choices.now (64 * row + 64) behind }
    requires few { behind ≤ 4_096 }
    ensures level { 0 < result → AreLike choices.now (64 * row) result }
    ensures few { result ≤ behind + 64 }
{
    if !is_level(choices, row) {
        return 0;
    }
    if behind > 0 && choices[64 * row] == choices[64 * row + 64] {
        return behind + 64;
    }
    64
}

/// Whether the 64 locations of a row have one choice, or none at all.
fn is_level(choices: &[Option<u32>], row: usize) -> bool
    requires { 64 * row + 64 ≤ length choices.now }
    ensures { result ≡ true → AreLike choices.now (64 * row) 64 }
{
    let first = 64 * row;
    for k in 0..64usize {
        if choices[first + k] != choices[first] {
            return false;
        }
    }
    true
}

/// The choices of eight locations.
fn eight_choices(choices: &[Option<u32>], at: usize) -> [Option<u32>; 8]
    requires { at + 8 ≤ length choices.now }
    ensures { result ≡ take 8 (drop at choices.now) }
{
    let mut eight = [None; 8];
    for k in 0..8usize {
        eight[k] = choices[at + k];
    }
    eight
}

/// Whether each of these is this choice.
fn all_have(choices: &[Option<u32>], n: u32) -> bool
    ensures { result ≡ have n choices.now }
{
    for at in 0..choices.len() {
        if choices[at] != Some(n) {
            return false;
        }
    }
    true
}
