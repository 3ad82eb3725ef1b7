//! One instruction.

ghost use Rattle.std.specs.Prelude.{◌≡◌, ◌+◌, ◌<◌, ◌≤◌, ◌^◌, IfSome, length};
ghost use Rattle.rev_num.specs.Words.{int_of};
ghost use Rattle.rev_code.specs.Variables.{Place, array, cell_at, scalar};
ghost use Rattle.block_run.specs.Plain as p;
ghost use Rattle.block_run.specs.Agreement.{PushesInt};
ghost use Rattle.version_map.specs.Deltas.{at};
ghost use Rattle.version_map.specs.Overlay.{under};
ghost use Rattle.block_run.specs.Remembering.{Kept, Wrote};
ghost use Rattle.block_run.specs.Area.{count, pushes, run_of, taken, Does, IsOperand};
ghost use Rattle.block_run.specs.Area.{IsPlaced, IsTable, IsVariable, StaysIn};
ghost use Rattle.block_run.specs.Deeds.{registers_after, run_after, stop_after, words_after};
ghost use Rattle.block_run.specs.Deeds.{Fits, IsDeedOf};
ghost use Rattle.block_run.specs.Marks.{plain_marks};
ghost use Rattle.block_run.specs.Stops.{stop_of};
ghost use Rattle.block_run.specs.WhereOn.{HasNoted, HasPlacesIfOn};

use crate::deed::{Deed, settle};
use crate::marking::{note_count_input, note_load, note_load_cell, note_load_input};
use crate::memory::Memory;
use crate::notes::Notes;
use crate::registers::{Act, BlockTrap, Registers, Variable};
use crate::table::cell;
use crate::values;
use rev_code::{Code, CodeBlock, Instr};
use rev_num::word_of_int;
use version_map::Snapshot;

/// Where a scalar lies.
#[inline(always)]
fn scalar_at(code: &Code, table: &[Variable], v: u16) -> Variable
    requires table { IsTable code.now.vars table.now }
    requires operand { (p : Place) × (scalar code.now.vars v ≡ Some p) }
    ensures { IsVariable (scalar code.now.vars v) result (count code.now.vars) }
{
    table[v as usize]
}

/// Where an array lies.
#[inline(always)]
fn array_at(code: &Code, table: &[Variable], v: u16) -> Variable
    requires table { IsTable code.now.vars table.now }
    requires operand { (p : Place) × (array code.now.vars v ≡ Some p) }
    ensures { IsVariable (array code.now.vars v) result (count code.now.vars) }
{
    table[v as usize]
}

/// Puts a scalar on the stack.
#[inline(always)]
fn act_load_shared<P: Snapshot>(
    code: &Code,
    b: &CodeBlock,
    memory: &mut Memory<P>,
    words: &[u64],
    r: &Registers,
    v: u16,
    t: Variable,
) -> Deed
    requires placed { IsPlaced b.now r.now (length words.now) 0 }
    requires room { r.now.top < length words.now }
    requires variable { IsVariable (scalar code.now.vars v) t (P.size memory.old.snapshot) }
    ensures does { Does (p.from_scalar (under memory.old.delta (P.base memory.old.snapshot))
        (run_of b.now words.now r.now) (scalar code.now.vars v))
        (run_of b.now words.now r.now) (run_after b.now words.now r.now result)
        (stop_after result)
        (Kept (P.size memory.old.snapshot)
        (under memory.old.delta (P.base memory.old.snapshot))
        (under memory.new.delta (P.base memory.new.snapshot))
        (at memory.old.first.roots) (at memory.new.first.roots))
        (Wrote (P.size memory.old.snapshot)
        (under memory.old.delta (P.base memory.old.snapshot))
        (under memory.new.delta (P.base memory.new.snapshot))
        (at memory.old.first.roots) (at memory.new.first.roots)) }
    ensures stays { StaysIn b.now words.now (words_after result words.now r.now)
        r.now (registers_after result r.now) }
    ensures fits { Fits result (length words.now) r.now }
    ensures size { P.size memory.new.snapshot ≡ P.size memory.old.snapshot }
    ensures group { P.group memory.new.snapshot ≡ P.group memory.old.snapshot }
{
    let word = memory.read(t.first);
    values::push(b, words, r, word)
}

/// Takes the word on top into a scalar.
#[inline(always)]
fn act_store_shared<P: Snapshot>(
    code: &Code,
    b: &CodeBlock,
    memory: &mut Memory<P>,
    words: &[u64],
    r: &Registers,
    v: u16,
    t: Variable,
) -> Deed
    requires placed { IsPlaced b.now r.now (length words.now) 1 }
    requires variable { IsVariable (scalar code.now.vars v) t (P.size memory.old.snapshot) }
    ensures does { Does (p.into_scalar (run_of b.now words.now r.now) (scalar code.now.vars v)
        (run_of b.now words.now r.now).stack)
        (run_of b.now words.now r.now) (run_after b.now words.now r.now result)
        (stop_after result)
        (Kept (P.size memory.old.snapshot)
        (under memory.old.delta (P.base memory.old.snapshot))
        (under memory.new.delta (P.base memory.new.snapshot))
        (at memory.old.first.roots) (at memory.new.first.roots))
        (Wrote (P.size memory.old.snapshot)
        (under memory.old.delta (P.base memory.old.snapshot))
        (under memory.new.delta (P.base memory.new.snapshot))
        (at memory.old.first.roots) (at memory.new.first.roots)) }
    ensures stays { StaysIn b.now words.now (words_after result words.now r.now)
        r.now (registers_after result r.now) }
    ensures fits { Fits result (length words.now) r.now }
    ensures size { P.size memory.new.snapshot ≡ P.size memory.old.snapshot }
    ensures group { P.group memory.new.snapshot ≡ P.group memory.old.snapshot }
{
    let word = values::top(b, words, r);
    memory.write(t.first, word);
    Deed::Takes
}

/// Puts a cell in place of its index.
#[inline(always)]
fn act_load_cell<P: Snapshot>(
    code: &Code,
    b: &CodeBlock,
    memory: &mut Memory<P>,
    words: &[u64],
    r: &Registers,
    v: u16,
    t: Variable,
) -> Deed
    requires placed { IsPlaced b.now r.now (length words.now) 1 }
    requires variable { IsVariable (array code.now.vars v) t (P.size memory.old.snapshot) }
    requires few { t.first + t.cells < 2 ^ 32 }
    ensures does { Does (p.from_cell (under memory.old.delta (P.base memory.old.snapshot))
        (run_of b.now words.now r.now) (array code.now.vars v) (run_of b.now words.now r.now).stack)
        (run_of b.now words.now r.now) (run_after b.now words.now r.now result)
        (stop_after result)
        (Kept (P.size memory.old.snapshot)
        (under memory.old.delta (P.base memory.old.snapshot))
        (under memory.new.delta (P.base memory.new.snapshot))
        (at memory.old.first.roots) (at memory.new.first.roots))
        (Wrote (P.size memory.old.snapshot)
        (under memory.old.delta (P.base memory.old.snapshot))
        (under memory.new.delta (P.base memory.new.snapshot))
        (at memory.old.first.roots) (at memory.new.first.roots)) }
    ensures stays { StaysIn b.now words.now (words_after result words.now r.now)
        r.now (registers_after result r.now) }
    ensures fits { Fits result (length words.now) r.now }
    ensures size { P.size memory.new.snapshot ≡ P.size memory.old.snapshot }
    ensures group { P.group memory.new.snapshot ≡ P.group memory.old.snapshot }
{
    match cell(t, values::top(b, words, r)) {
        None => Deed::Traps(BlockTrap::Index),
        Some(location) => {
            let word = memory.read(location);
            values::put(b, words, r, word)
        },
    }
}

/// Takes an index and a word into the cell.
#[inline(always)]
fn act_store_cell<P: Snapshot>(
    code: &Code,
    b: &CodeBlock,
    memory: &mut Memory<P>,
    words: &[u64],
    r: &mut Registers,
    v: u16,
    t: Variable,
) -> Deed
    requires placed { IsPlaced b.now r.old (length words.now) 2 }
    requires variable { IsVariable (array code.now.vars v) t (P.size memory.old.snapshot) }
    requires few { t.first + t.cells < 2 ^ 32 }
    ensures does { Does (p.into_cell (run_of b.now words.now r.old) (array code.now.vars v)
        (run_of b.now words.now r.old).stack)
        (run_of b.now words.now r.old) (run_after b.now words.now r.new result)
        (stop_after result)
        (Kept (P.size memory.old.snapshot)
        (under memory.old.delta (P.base memory.old.snapshot))
        (under memory.new.delta (P.base memory.new.snapshot))
        (at memory.old.first.roots) (at memory.new.first.roots))
        (Wrote (P.size memory.old.snapshot)
        (under memory.old.delta (P.base memory.old.snapshot))
        (under memory.new.delta (P.base memory.new.snapshot))
        (at memory.old.first.roots) (at memory.new.first.roots)) }
    ensures stays { StaysIn b.now words.now (words_after result words.now r.new)
        r.old (registers_after result r.new) }
    ensures fits { Fits result (length words.now) r.new }
    ensures size { P.size memory.new.snapshot ≡ P.size memory.old.snapshot }
    ensures group { P.group memory.new.snapshot ≡ P.group memory.old.snapshot }
{
    let (index, word) = values::two(b, words, r);
    match cell(t, index) {
        None => Deed::Traps(BlockTrap::Index),
        Some(location) => {
            memory.write(location, word);
            r.top -= 1;
            Deed::Takes
        },
    }
}

/// Traps where the index on top is outside.
#[inline(always)]
fn act_check_cell(
    code: &Code,
    b: &CodeBlock,
    words: &[u64],
    r: &Registers,
    v: u16,
    t: Variable,
) -> Deed
    requires placed { IsPlaced b.now r.now (length words.now) 1 }
    requires variable { IsVariable (array code.now.vars v) t (count code.now.vars) }
    requires few { t.first + t.cells < 2 ^ 32 }
    ensures { IsDeedOf (λ q stack. p.over_cell q (array code.now.vars v) stack) b.now words.now r.now result }
{
    match cell(t, values::top(b, words, r)) {
        None => Deed::Traps(BlockTrap::Index),
        Some(_) => Deed::Goes,
    }
}

/// Does one instruction up to what it leaves to be done, and notes what `act` notes.
#[inline(always)]
fn deed_of<P: Snapshot, const NOTING: bool>(
    code: &Code,
    table: &[Variable],
    inputs: &[i64],
    b: &CodeBlock,
    memory: &mut Memory<P>,
    words: &mut [u64],
    r: &mut Registers,
    x: &Instr,
    notes: &mut Notes,
) -> Deed
    requires table { IsTable code.now.vars table.now }
    requires size { P.size memory.old.snapshot ≡ count code.now.vars }
    requires operand { IsOperand code.now.vars b.now x.now }
    requires placed { IsPlaced b.now r.old (length words.old) (taken x.now) }
    requires room { r.old.top + pushes x.now ≤ length words.old }
    requires places { HasPlacesIfOn (P.size memory.old.snapshot) inputs.now notes.old }
    ensures marked { HasNoted NOTING notes.old notes.new (plain_marks code.now.vars inputs.now
        (at memory.old.first.roots) (run_of b.now words.old r.old) x.now) }
    ensures does { Does (p.plain code.now.vars inputs.now
        (under memory.old.delta (P.base memory.old.snapshot))
        (run_of b.now words.old r.old) x.now)
        (run_of b.now words.old r.old) (run_after b.now words.new r.new result)
        (stop_after result)
        (Kept (P.size memory.old.snapshot)
        (under memory.old.delta (P.base memory.old.snapshot))
        (under memory.new.delta (P.base memory.new.snapshot))
        (at memory.old.first.roots) (at memory.new.first.roots))
        (Wrote (P.size memory.old.snapshot)
        (under memory.old.delta (P.base memory.old.snapshot))
        (under memory.new.delta (P.base memory.new.snapshot))
        (at memory.old.first.roots) (at memory.new.first.roots)) }
    ensures int { PushesInt x.now }
    ensures stays { StaysIn b.now words.old (words_after result words.new r.new) r.old
        (registers_after result r.new) }
    ensures fits { Fits result (length words.new) r.new }
    ensures size { P.size memory.new.snapshot ≡ P.size memory.old.snapshot }
    ensures group { P.group memory.new.snapshot ≡ P.group memory.old.snapshot }
{
    match *x {
        Instr::PushInt(n) => values::push(b, words, r, word_of_int(n)),
        Instr::PushBool(v) => values::push(b, words, r, u64::from(v)),
        Instr::PushNone => values::push(b, words, r, 0),
        Instr::LoadLocal(n) => values::act_load(b, words, r, n),
        Instr::StoreLocal(n) => values::act_store(b, words, r, n),
        Instr::LoadShared(v) => {
            let t = scalar_at(code, table, v);
            note_load::<P, NOTING>(code, inputs, memory, t, v, notes);
            act_load_shared(code, b, memory, words, r, v, t)
        },
        Instr::StoreShared(v) => {
            let t = scalar_at(code, table, v);
            act_store_shared(code, b, memory, words, r, v, t)
        },
        Instr::LoadCell(v) => {
            let t = array_at(code, table, v);
            note_load_cell::<P, NOTING>(code, inputs, b, memory, words, r, t, v, notes);
            act_load_cell(code, b, memory, words, r, v, t)
        },
        Instr::StoreCell(v) => {
            let t = array_at(code, table, v);
            act_store_cell(code, b, memory, words, r, v, t)
        },
        Instr::CheckCell(v) => {
            let t = array_at(code, table, v);
            act_check_cell(code, b, words, r, v, t)
        },
        Instr::LoadInput => {
            note_load_input::<NOTING>(inputs, b, words, r, notes);
            values::act_load_input(b, words, r, inputs)
        },
        Instr::CountInput => {
            note_count_input::<NOTING>(notes);
            values::act_count_input(b, words, r, inputs)
        },
        Instr::Add => values::act_add(b, words, r),
        Instr::Sub => values::act_sub(b, words, r),
        Instr::Mul => values::act_mul(b, words, r),
        Instr::Div => values::act_div(b, words, r),
        Instr::Rem => values::act_rem(b, words, r),
        Instr::Neg => values::act_neg(b, words, r),
        Instr::Not => values::act_not(b, words, r),
        Instr::Eq => values::act_eq(b, words, r),
        Instr::Ne => values::act_ne(b, words, r),
        Instr::Lt => values::act_lt(b, words, r),
        Instr::Le => values::act_le(b, words, r),
        Instr::Gt => values::act_gt(b, words, r),
        Instr::Ge => values::act_ge(b, words, r),
        Instr::Jump(to) => values::act_jump(b, words, r, to),
        Instr::JumpIfFalse(to) => values::act_jump_if_false(b, words, r, to),
        Instr::JumpIfTrue(to) => values::act_jump_if_true(b, words, r, to),
        Instr::Charge(line) => values::act_charge(b, words, r, line),
        Instr::Assert => values::act_assert(b, words, r),
        Instr::Pop => values::act_pop(b, words, r),
        Instr::Apply(_) => Deed::Leaves,
        Instr::Call(_) => Deed::Leaves,
        Instr::Fork(_) => Deed::Leaves,
        Instr::Join => Deed::Leaves,
        Instr::Print(_) => Deed::Leaves,
        Instr::Return => Deed::Leaves,
        Instr::TryJoin => Deed::Leaves,
    }
}

/// Does one instruction of a block, unless it leaves the block or meets another revision. With
/// `NOTING` it notes what the instruction reads where notes are on, and without it nothing looks at
/// the notes, so that the compiler makes code of each case.
#[inline(always)]
pub fn act<P: Snapshot, const NOTING: bool>(
    code: &Code,
    table: &[Variable],
    inputs: &[i64],
    b: &CodeBlock,
    memory: &mut Memory<P>,
    words: &mut [u64],
    r: &mut Registers,
    x: &Instr,
    notes: &mut Notes,
) -> Act
    requires table { IsTable code.now.vars table.now }
    requires size { P.size memory.old.snapshot ≡ count code.now.vars }
    requires operand { IsOperand code.now.vars b.now x.now }
    requires placed { IsPlaced b.now r.old (length words.old) (taken x.now) }
    requires room { r.old.top + pushes x.now ≤ length words.old }
    requires places { HasPlacesIfOn (P.size memory.old.snapshot) inputs.now notes.old }
    ensures marked { HasNoted NOTING notes.old notes.new (plain_marks code.now.vars inputs.now
        (at memory.old.first.roots) (run_of b.now words.old r.old) x.now) }
    ensures does { Does (p.plain code.now.vars inputs.now
        (under memory.old.delta (P.base memory.old.snapshot))
        (run_of b.now words.old r.old) x.now)
        (run_of b.now words.old r.old) (run_of b.now words.new r.new) (stop_of result)
        (Kept (P.size memory.old.snapshot)
        (under memory.old.delta (P.base memory.old.snapshot))
        (under memory.new.delta (P.base memory.new.snapshot))
        (at memory.old.first.roots) (at memory.new.first.roots))
        (Wrote (P.size memory.old.snapshot)
        (under memory.old.delta (P.base memory.old.snapshot))
        (under memory.new.delta (P.base memory.new.snapshot))
        (at memory.old.first.roots) (at memory.new.first.roots)) }
    ensures int { PushesInt x.now }
    ensures stays { StaysIn b.now words.old words.new r.old r.new }
    ensures size { P.size memory.new.snapshot ≡ P.size memory.old.snapshot }
    ensures group { P.group memory.new.snapshot ≡ P.group memory.old.snapshot }
{
    let deed = deed_of::<P, NOTING>(code, table, inputs, b, memory, words, r, x, notes);
    settle(words, r, deed)
}
