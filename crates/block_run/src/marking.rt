//! What one instruction reads.

ghost use Rattle.std.specs.Prelude.{◌≡◌, ◌<◌, ◌≤◌, ◌+◌, ◌^◌, ℕ, ◌∷◌, [], length};
ghost use Rattle.rev_num.specs.Words.{int_of};
ghost use Rattle.rev_code.specs.Variables.{Place, array, cell_at, scalar};
ghost use Rattle.version_map.specs.Deltas.{at, locations};
ghost use Rattle.block_run.specs.Area.{run_of, IsPlaced, IsVariable};
ghost use Rattle.block_run.specs.Marks as marks;
ghost use Rattle.block_run.specs.Marks.{HasMarked, cell_marks, if_first, input_marks};
ghost use Rattle.block_run.specs.Marks.{place_marks, scalar_marks};
ghost use Rattle.block_run.specs.WhereOn.{HasNoted, HasPlacesIfOn};

use crate::memory::Memory;
use crate::notes::{Notes, ReadMarks};
use crate::registers::{Registers, Variable};
use crate::table::cell;
use crate::values::top;
use rev_code::{Code, CodeBlock};
use version_map::Snapshot;

/// Notes a location that is read, unless the revision has written it.
#[inline(always)]
fn note_location<P: Snapshot>(memory: &Memory<P>, location: u32, noted: &mut ReadMarks)
    requires within { location < P.size memory.now.snapshot }
    requires size { locations noted.old.locations ≡ P.size memory.now.snapshot }
    ensures { HasMarked noted.old noted.new
        (if_first location (at memory.now.first.roots location)) }
{
    match memory.first.get(location) {
        Some(_) => {},
        None => noted.locations.set(location, 0),
    }
}

/// Notes a position of the input.
#[inline(always)]
fn note_input(index: u32, noted: &mut ReadMarks)
    requires within { index < locations noted.old.inputs }
    ensures { HasMarked noted.old noted.new (marks.input index ∷ []) }
{
    noted.inputs.set(index, 0);
}

/// Notes the count of inputs.
#[inline(always)]
fn note_count(noted: &mut ReadMarks)
    ensures { HasMarked noted.old noted.new (marks.count ∷ []) }
{
    noted.count = true;
}

/// Notes a position of the input that is read, or the count where it is out of range.
#[inline(always)]
fn note_position(inputs: &[i64], index: u64, noted: &mut ReadMarks)
    requires few { length inputs.now < 2 ^ 32 }
    requires positions { locations noted.old.inputs ≡ length inputs.now }
    ensures { HasMarked noted.old noted.new (marks.index_marks inputs.now (int_of index)) }
{
    if index < inputs.len() as u64 {
        note_input(index as u32, noted);
    } else {
        note_count(noted);
    }
}

/// Notes a cell that is read, where the index is inside.
#[inline(always)]
fn note_cell<P: Snapshot>(memory: &Memory<P>, t: Variable, index: u64, noted: &mut ReadMarks)
    requires within { t.first + t.cells ≤ P.size memory.now.snapshot }
    requires few { t.first + t.cells < 2 ^ 32 }
    requires size { locations noted.old.locations ≡ P.size memory.now.snapshot }
    ensures { (p : Place) → p.first ≡ t.first → p.var.cells ≡ t.cells
        → HasMarked noted.old noted.new
        (place_marks (at memory.now.first.roots) (cell_at p (int_of index))) }
{
    match cell(t, index) {
        None => {},
        Some(location) => note_location(memory, location, noted),
    }
}

/// Notes a scalar that is read.
#[inline(always)]
fn note_scalar<P: Snapshot>(
    code: &Code,
    memory: &Memory<P>,
    t: Variable,
    v: u16,
    noted: &mut ReadMarks,
)
    requires variable { IsVariable (scalar code.now.vars v) t (P.size memory.now.snapshot) }
    requires size { locations noted.old.locations ≡ P.size memory.now.snapshot }
    ensures { HasMarked noted.old noted.new
        (scalar_marks (at memory.now.first.roots) (scalar code.now.vars v)) }
{
    note_location(memory, t.first, noted);
}

/// Notes a cell that is read, by the index on top.
#[inline(always)]
fn note_element<P: Snapshot>(
    code: &Code,
    b: &CodeBlock,
    memory: &Memory<P>,
    words: &[u64],
    r: &Registers,
    t: Variable,
    v: u16,
    noted: &mut ReadMarks,
)
    requires placed { IsPlaced b.now r.now (length words.now) 1 }
    requires variable { IsVariable (array code.now.vars v) t (P.size memory.now.snapshot) }
    requires few { t.first + t.cells < 2 ^ 32 }
    requires size { locations noted.old.locations ≡ P.size memory.now.snapshot }
    ensures { HasMarked noted.old noted.new (cell_marks (at memory.now.first.roots)
        (array code.now.vars v) (run_of b.now words.now r.now).stack) }
{
    note_cell(memory, t, top(b, words, r), noted);
}

/// Notes a scalar that is read, with `NOTING` and where notes are on.
#[inline(always)]
pub(crate) fn note_load<P: Snapshot, const NOTING: bool>(
    code: &Code,
    inputs: &[i64],
    memory: &Memory<P>,
    t: Variable,
    v: u16,
    notes: &mut Notes,
)
    requires variable { IsVariable (scalar code.now.vars v) t (P.size memory.now.snapshot) }
    requires places { HasPlacesIfOn (P.size memory.now.snapshot) inputs.now notes.old }
    ensures { HasNoted NOTING notes.old notes.new
        (scalar_marks (at memory.now.first.roots) (scalar code.now.vars v)) }
{
    match notes {
        Notes::On(noted) if NOTING => note_scalar(code, memory, t, v, noted),
        _ => {},
    }
}

/// Notes a cell that is read, by the index on top, with `NOTING` and where notes are on.
#[inline(always)]
pub(crate) fn note_load_cell<P: Snapshot, const NOTING: bool>(
    code: &Code,
    inputs: &[i64],
    b: &CodeBlock,
    memory: &Memory<P>,
    words: &[u64],
    r: &Registers,
    t: Variable,
    v: u16,
    notes: &mut Notes,
)
    requires placed { IsPlaced b.now r.now (length words.now) 1 }
    requires variable { IsVariable (array code.now.vars v) t (P.size memory.now.snapshot) }
    requires few { t.first + t.cells < 2 ^ 32 }
    requires places { HasPlacesIfOn (P.size memory.now.snapshot) inputs.now notes.old }
    ensures { HasNoted NOTING notes.old notes.new (cell_marks (at memory.now.first.roots)
        (array code.now.vars v) (run_of b.now words.now r.now).stack) }
{
    match notes {
        Notes::On(noted) if NOTING => note_element(code, b, memory, words, r, t, v, noted),
        _ => {},
    }
}

/// Notes a position of the input that is read, by the index on top, with `NOTING` and where notes are
/// on.
#[inline(always)]
pub(crate) fn note_load_input<const NOTING: bool>(
    inputs: &[i64],
    b: &CodeBlock,
    words: &[u64],
    r: &Registers,
    notes: &mut Notes,
)
    requires placed { IsPlaced b.now r.now (length words.now) 1 }
    requires places { (size : ℕ) × HasPlacesIfOn size inputs.now notes.old }
    ensures { HasNoted NOTING notes.old notes.new
        (input_marks inputs.now (run_of b.now words.now r.now).stack) }
{
    match notes {
        Notes::On(noted) if NOTING => note_position(inputs, top(b, words, r), noted),
        _ => {},
    }
}

/// Notes the count of inputs, with `NOTING` and where notes are on.
#[inline(always)]
pub(crate) fn note_count_input<const NOTING: bool>(notes: &mut Notes)
    ensures { HasNoted NOTING notes.old notes.new (marks.count ∷ []) }
{
    match notes {
        Notes::On(noted) if NOTING => note_count(noted),
        _ => {},
    }
}
