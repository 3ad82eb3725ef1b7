//! The blocks of funs and merges.

ghost use Rattle.std.specs.Prelude.{◌≡◌, ◌<◌, ◌^◌, ◌++◌, ◌∷◌, [], IfOk, OnOk, length, map};
ghost use Rattle.rev_syntax.specs.View.{declaration, expression, parameter, placed_name};
ghost use Rattle.rev_code.specs.declared.code.Instr.TheVariants as i;
ghost use Rattle.code_generation.specs.Expressions.{expression_code};
ghost use Rattle.code_generation.specs.Generated.{fun_block, merge_block, value_blocks};
ghost use Rattle.emit_code.specs.Naming.{numbers_of};
ghost use Rattle.emit_program.specs.Fitting.{DeclarationFits, DeclarationsFit, ValueFits};
ghost use Rattle.emit_program.specs.Parts.{value_block_of};

use crate::params::{merge_scope, params_kinds, params_scope};
use emit_code::{Known, NameNumbers, emit_expression, put};
use name_tables::NameTable;
use rev_code::{BlockClass, CodeBlock, Instr};
use rev_num::{Items, ValueKind};
use rev_syntax::{Decl, Expr, Name, Param};
use std::alloc::{AllocError, Global};

/// The instructions of a fun or merge, where these are its parameters.
fn value_code(
    alloc: Global,
    numbers: &NameNumbers,
    scope: &NameTable<u8>,
    body: &Expr,
) -> Result<Items<Instr>, AllocError>
    requires { ValueFits (expression body.now) }
    ensures { IfOk result
        (λ code. code
        ≡ expression_code (numbers_of numbers.now) scope.now (expression body.now) 0
        ++ i.Return ∷ []) }
{
    let mut code = Vec::new(alloc);
    emit_expression(alloc, &Known { numbers, scope }, &mut code, body)?;
    put(&mut code, Instr::Return)?;
    Ok(Items::from_vec(code))
}

/// The block of a fun.
fn fun_block(
    alloc: Global,
    numbers: &NameNumbers,
    params: &[Param],
    gives: ValueKind,
    body: &Expr,
) -> Result<CodeBlock, AllocError>
    requires params { length params.now < 2 ^ 8 }
    requires room { ValueFits (expression body.now) }
    ensures { IfOk result
        (λ b. b ≡ fun_block (numbers_of numbers.now) (map parameter params.now) gives
        (expression body.now)) }
{
    let scope = params_scope(alloc, params)?;
    let instrs = value_code(alloc, numbers, &scope, body)?;
    let locals = params_kinds(alloc, params)?;
    Ok(CodeBlock {
        class: BlockClass::Fun,
        params: params.len() as u8,
        result: Some(gives),
        locals: Items::from_vec(locals),
        instrs,
    })
}

/// The block of a merge.
fn merge_block(
    alloc: Global,
    numbers: &NameNumbers,
    main: &Name,
    join: &Name,
    root: &Name,
    body: &Expr,
) -> Result<CodeBlock, AllocError>
    requires { ValueFits (expression body.now) }
    ensures { IfOk result
        (λ b. b ≡ merge_block (numbers_of numbers.now) (placed_name main.now)
        (placed_name join.now) (placed_name root.now) (expression body.now)) }
{
    let scope = merge_scope(alloc, main, join, root)?;
    let instrs = value_code(alloc, numbers, &scope, body)?;
    let locals = Vec::from_slice(alloc, &[ValueKind::Int, ValueKind::Int, ValueKind::Int])?;
    Ok(CodeBlock {
        class: BlockClass::Merge,
        params: 3,
        result: Some(ValueKind::Int),
        locals: Items::from_vec(locals),
        instrs,
    })
}

/// Enters the block of a declaration, if it is a fun or a merge.
fn enter_value(
    alloc: Global,
    numbers: &NameNumbers,
    blocks: &mut Vec<CodeBlock>,
    d: &Decl,
) -> Result<(), AllocError>
    requires { DeclarationFits (numbers_of numbers.now) (declaration d.now) }
    ensures { OnOk result
        (blocks.new.items
        ≡ blocks.old.items ++ value_block_of (numbers_of numbers.now) (declaration d.now)) }
{
    match d {
        Decl::Fun {
            params,
            result,
            body,
            ..
        } => {
            blocks.push(fun_block(alloc, numbers, params, *result, body)?)?;
            Ok(())
        }
        Decl::Merge {
            main,
            join,
            root,
            body,
            ..
        } => {
            blocks.push(merge_block(alloc, numbers, main, join, root, body)?)?;
            Ok(())
        }
        Decl::Shared { .. } => Ok(()),
        Decl::Proc { .. } => Ok(()),
    }
}

/// The blocks of the funs and merges in order.
pub fn emit_values(
    alloc: Global,
    numbers: &NameNumbers,
    decls: &[Decl],
) -> Result<Vec<CodeBlock>, AllocError>
    requires { DeclarationsFit (numbers_of numbers.now) (map declaration decls.now) }
    ensures { IfOk result
        (λ bs. bs.items ≡ value_blocks (numbers_of numbers.now) (map declaration decls.now)) }
{
    let mut blocks = Vec::new(alloc);
    for d in decls {
        enter_value(alloc, numbers, &mut blocks, d)?;
    }
    Ok(blocks)
}
