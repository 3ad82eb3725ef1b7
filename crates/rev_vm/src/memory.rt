//! What a joiner reads and writes at its join.

ghost use Rattle.std.specs.Prelude.{◌≡◌, ◌<◌, ◌≤◌, ◌+◌, ◌++◌, ℕ, true, false, All, None};
ghost use Rattle.std.specs.Prelude.{IfOk, IfSome, drop, length, map, take, vec_capacity, vec_len};
ghost use Rattle.version_map.specs.declared.snapshot.Collapsed.{Collapsed};
ghost use Rattle.version_map.specs.Ascending.{IsAscending};
ghost use Rattle.version_map.specs.Deltas.{at, locations};
ghost use Rattle.version_map.specs.Overlay.{under};
ghost use Rattle.block_run.specs.Remembering.{Kept};
ghost use Rattle.rev_vm.specs.Rows.{IsRow, WroteRow};
ghost use Rattle.rev_vm.specs.Writes.{HasWritten};

use block_run::Memory;
use std::alloc::{AllocError, Global};
use version_map::{Delta, Snapshot, Written};

/// The row of 64 locations that stands whole from this place on, if one does.
fn row_at(written: &[Written], place: usize) -> Option<usize>
    requires ascending { IsAscending written.now }
    requires here { place < length written.now }
    ensures row { IfSome result (λ row. IsRow written.now place row) }
    ensures none { result ≡ None → (row : ℕ) → IsRow written.now place row → ⊥ }
{
    let first = written[place].location as usize;
    if first % 64 != 0 || written.len() - place < 64 {
        return None;
    }
    if written[place + 63].location as usize != first + 63 {
        return None;
    }
    Some(first / 64)
}

/// Appends the words of a row that stands whole from this place on, where the delta has all of
/// them, and tells whether it did.
fn append_row(delta: &Delta, written: &[Written], place: usize, words: &mut Vec<u64>) -> bool
    requires within { All (λ w. w.location < locations delta.now) written.now }
    requires ascending { IsAscending written.now }
    requires here { place < length written.now }
    ensures row { result ≡ true → (place + 64 ≤ length written.now) × ((base : ℕ → ℕ)
        → words.new.items ≡ words.old.items
        ++ map (λ w. under delta.now base w.location) (take 64 (drop place written.now))) }
    ensures many { result ≡ true → vec_len words.new ≡ vec_len words.old + 64 }
    ensures none { result ≡ false → words.new.items ≡ words.old.items }
    ensures as_many { result ≡ false → vec_len words.new ≡ vec_len words.old }
    ensures room { vec_capacity words.old ≤ vec_capacity words.new }
{
    match row_at(written, place) {
        None => false,
        Some(row) => {
            if !delta.has_row(row) {
                return false;
            }
            words.extend_from_slice(delta.row_words(row)).is_ok()
        },
    }
}

/// The words that a revision sees at written locations. A row that stands whole in the list is read
/// at once where the delta has all of it.
pub fn read_all<P: Snapshot>(
    alloc: Global,
    memory: &mut Memory<P>,
    written: &[Written],
) -> Result<Vec<u64>, AllocError>
    requires within { All (λ w. w.location < P.size memory.old.snapshot) written.now }
    requires ascending { IsAscending written.now }
    ensures words { IfOk result (λ ws. ws.items ≡ map (λ w. under memory.old.delta
        (P.base memory.old.snapshot) w.location) written.now) }
    ensures kept { Kept (P.size memory.old.snapshot)
        (under memory.old.delta (P.base memory.old.snapshot))
        (under memory.new.delta (P.base memory.new.snapshot))
        (at memory.old.first.roots) (at memory.new.first.roots) }
    ensures size { P.size memory.new.snapshot ≡ P.size memory.old.snapshot }
    ensures group { P.group memory.new.snapshot ≡ P.group memory.old.snapshot }
    ensures answered { (c : Collapsed) → P.answered memory.old.snapshot c
        → P.answered memory.new.snapshot c }
{
    let mut words = Vec::with_capacity(alloc, written.len())?;
    let mut at = 0;
    while at < written.len() {
        if append_row(&memory.delta, written, at, &mut words) {
            at += 64;
        } else {
            words.push_reserved(memory.read(written[at].location));
            at += 1;
        }
    }
    Ok(words)
}

/// Writes the words of a row that stands whole from this place on, where the words at the fork are
/// known for all of it, and tells whether it did.
fn write_row<P: Snapshot>(
    memory: &mut Memory<P>,
    written: &[Written],
    place: usize,
    values: &[u64],
) -> bool
    requires within { All (λ w. w.location < P.size memory.old.snapshot) written.now }
    requires ascending { IsAscending written.now }
    requires many { length values.now ≡ length written.now }
    requires here { place < length written.now }
    ensures row { result ≡ true → (row : ℕ) × IsRow written.now place row
        × WroteRow (P.size memory.old.snapshot) row place values.now
        (under memory.old.delta (P.base memory.old.snapshot))
        (under memory.new.delta (P.base memory.new.snapshot))
        (at memory.old.first.roots) (at memory.new.first.roots) }
    ensures none { result ≡ false → memory.new ≡ memory.old }
    ensures snapshot { memory.new.snapshot ≡ memory.old.snapshot }
{
    match row_at(written, place) {
        None => false,
        Some(row) => {
            if !memory.first.has_row(row) {
                return false;
            }
            memory.delta.set_row(row, &values[place..place + 64]);
            true
        },
    }
}

/// Writes words to written locations. A row that stands whole in the list is written at once where
/// the words at the fork are known for all of it.
pub fn write_all<P: Snapshot>(memory: &mut Memory<P>, written: &[Written], values: &[u64])
    requires within { All (λ w. w.location < P.size memory.old.snapshot) written.now }
    requires ascending { IsAscending written.now }
    requires many { length values.now ≡ length written.now }
    ensures wrote { HasWritten (P.size memory.old.snapshot) written.now values.now
        (under memory.old.delta (P.base memory.old.snapshot)) (at memory.old.first.roots)
        (under memory.new.delta (P.base memory.new.snapshot)) (at memory.new.first.roots) }
    ensures size { P.size memory.new.snapshot ≡ P.size memory.old.snapshot }
    ensures group { P.group memory.new.snapshot ≡ P.group memory.old.snapshot }
    ensures answered { (c : Collapsed) → P.answered memory.old.snapshot c
        → P.answered memory.new.snapshot c }
{
    let mut at = 0;
    while at < written.len() {
        if write_row(memory, written, at, values) {
            at += 64;
        } else {
            memory.write(written[at].location, values[at]);
            at += 1;
        }
    }
}
