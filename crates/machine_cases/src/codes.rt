//! Codes with a child, and what they leave.

ghost use Rattle.std.specs.Prelude.{◌≡◌, IfOk};
ghost use Rattle.block_run.specs.Agreement.{AreInputs};
ghost use Rattle.block_run.specs.Area.{count};
ghost use Rattle.fun_run.specs.Merging.{AreMergesOf};
ghost use Rattle.rev_vm.specs.Starts.{run_under};

use crate::driver::run_to_end;
use code_verifier::{CodeFault, verify};
use fun_run::BlockMerges;
use leg_run::CodeSetting;
use rev_code::{BlockClass, Code, CodeBlock, CodeVar, Instr, LayoutItem};
use rev_num::{Items, ValueKind};
use rev_vm::{start_main, start_whole};
use std::alloc::{AllocError, Global};
use version_map::{EndValue, MergeBy, Snapshot};

/// A copy of these items.
pub fn items<T: Copy>(alloc: Global, all: &[T]) -> Result<Items<T>, AllocError> {
    Ok(Items::from_vec(Vec::from_slice(alloc, all)?))
}

/// A block of these parts. The kinds of its locals are those of its parameters first.
pub fn block(
    alloc: Global,
    class: BlockClass,
    params: u8,
    result_kind: Option<ValueKind>,
    locals: &[ValueKind],
    instrs: &[Instr],
) -> Result<CodeBlock, AllocError> {
    Ok(CodeBlock {
        class,
        params,
        result: result_kind,
        locals: items(alloc, locals)?,
        instrs: items(alloc, instrs)?,
    })
}

/// A variable of so many cells. A cumulative one is merged by block 1.
pub fn variable(
    alloc: Global,
    name: u8,
    cumulative: bool,
    cells: u32,
) -> Result<CodeVar, AllocError>
    ensures { IfOk result (λ v. v.cells ≡ cells) }
{
    Ok(CodeVar {
        name: items(alloc, &[name])?,
        cumulative,
        kind: ValueKind::Int,
        array: cells > 1,
        cells,
        start: 0,
        merge: if cumulative { 1 } else { 65_535 },
    })
}

/// Fun 0 gives the sum of its first number and the difference of the two others, and merge 1
/// applies it.
pub fn fun_and_merge(alloc: Global) -> Result<Vec<CodeBlock>, AllocError> {
    let int = Some(ValueKind::Int);
    let three = [ValueKind::Int, ValueKind::Int, ValueKind::Int];
    let sum: &[Instr] = &[
        Instr::LoadLocal(0),
        Instr::LoadLocal(1),
        Instr::LoadLocal(2),
        Instr::Sub,
        Instr::Add,
        Instr::Return,
    ];
    let applied: &[Instr] = &[
        Instr::LoadLocal(0),
        Instr::LoadLocal(1),
        Instr::LoadLocal(2),
        Instr::Apply(0),
        Instr::Return,
    ];
    let mut blocks = Vec::new(alloc);
    blocks.push(block(alloc, BlockClass::Fun, 3, int, three.as_slice(), sum)?)?;
    blocks.push(block(alloc, BlockClass::Merge, 3, int, three.as_slice(), applied)?)?;
    Ok(blocks)
}

/// Behind the fun and the merge, block 2 is the child, with a local of each kind, and block 3
/// `main`, with the same.
fn blocks_of(
    alloc: Global,
    child: &[Instr],
    main: &[Instr],
) -> Result<Items<CodeBlock>, AllocError> {
    let kinds = [ValueKind::Int, ValueKind::Bool, ValueKind::Rev];
    let mut blocks = fun_and_merge(alloc)?;
    blocks.push(block(alloc, BlockClass::Proc, 0, None, kinds.as_slice(), child)?)?;
    blocks.push(block(alloc, BlockClass::Main, 0, None, kinds.as_slice(), main)?)?;
    Ok(Items::from_vec(blocks))
}

/// The variables are `v` and the cumulative `n` of ten cells each, and `x` of one. Layout 0 prints
/// a number, layout 1 a truth value.
pub fn code_of(alloc: Global, child: &[Instr], main: &[Instr]) -> Result<Code, AllocError> {
    let mut vars = Vec::new(alloc);
    vars.push(variable(alloc, b'v', false, 10)?)?;
    vars.push(variable(alloc, b'n', true, 10)?)?;
    vars.push(variable(alloc, b'x', false, 1)?)?;
    let mut layouts = Vec::new(alloc);
    layouts.push(items(alloc, &[LayoutItem::Int])?)?;
    layouts.push(items(alloc, &[LayoutItem::Bool])?)?;
    Ok(Code {
        vars: Items::from_vec(vars),
        texts: Items::from_vec(Vec::new(alloc)),
        layouts: Items::from_vec(layouts),
        blocks: blocks_of(alloc, child, main)?,
    })
}

/// The setting of verified code with these inputs, where a child gets at most 100 of the fuel.
pub fn setting_of(
    alloc: Global,
    code: Code,
    inputs: Vec<i64>,
) -> Result<Option<CodeSetting>, AllocError>
    requires { AreInputs inputs.items }
{
    match verify(alloc, code) {
        Ok(verified) => {
            let setting = CodeSetting::new(alloc, verified.into_code(), inputs, 100)?;
            Ok(Some(setting))
        },
        Err(CodeFault::OutOfMemory) => Err(AllocError),
        Err(_) => Ok(None),
    }
}

/// What the code of a setting leaves that ends in so many legs, with fuel 10,000.
pub fn left_under<M: MergeBy>(
    alloc: Global,
    setting: &CodeSetting,
    merges: &mut M,
    legs: u32,
) -> Result<Option<EndValue>, AllocError>
    requires size { M.size merges.old ≡ count setting.now.code.vars }
    requires merges { AreMergesOf (run_under setting.now) (M.merges merges.old) }
    ensures merges_size { M.size merges.new ≡ M.size merges.old }
    ensures merges_same { M.merges merges.new ≡ M.merges merges.old }
{
    let snapshot = start_whole(alloc, setting.code())?;
    match start_main(alloc, setting, snapshot, 10_000) {
        Ok(runner) => match run_to_end(alloc, setting, merges, runner, legs)? {
            Some((end, ())) => Ok(Some(end)),
            None => Ok(None),
        },
        Err(snapshot) => {
            snapshot.release();
            Err(AllocError)
        },
    }
}
