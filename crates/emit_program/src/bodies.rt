//! The blocks of procedures and of `main`, and the tables of what they print.

ghost use Rattle.std.specs.Prelude.{◌≡◌, ◌<◌, ◌+◌, ◌^◌, ◌++◌, [], IfOk, OnOk, None, length};
ghost use Rattle.std.specs.Prelude.{map};
ghost use Rattle.rev_syntax.specs.View.{block, declaration, parameter, program as whole};
ghost use Rattle.rev_syntax.specs.View.{statement_form};
ghost use Rattle.rev_kinds.specs.Walk.{names_of};
ghost use Rattle.typed_programs.specs.Scopes as scopes;
ghost use Rattle.code_generation.specs.Sizes.{statements_prints};
ghost use Rattle.code_generation.specs.Prints.{statements_layouts, statements_texts};
ghost use Rattle.code_generation.specs.Generated.{body_blocks, body_code, body_locals, end_code};
ghost use Rattle.code_generation.specs.Generated.{ends_in_return, is_return, layouts_of};
ghost use Rattle.code_generation.specs.Generated.{main_block, proc_block, texts_of, zero_code};
ghost use Rattle.emit_code.specs.Naming.{numbers_of};
ghost use Rattle.emit_program.specs.Fitting.{BodyFits, DeclarationFits, DeclarationsFit};
ghost use Rattle.emit_program.specs.Parts.{body_block_of, layouts_in, prints_of, texts_in};

use crate::listed::Listed;
use crate::params::{params_kinds, params_locals, params_scope};
use crate::statements::list_block;
use emit_code::{Body, NameNumbers, emit_block, put};
use name_tables::NameTable;
use rev_code::{BlockClass, CodeBlock, Instr};
use rev_kinds::Checker;
use rev_num::{Items, ValueKind};
use rev_syntax::{Block, Decl, Form, Param, Program};
use std::alloc::{AllocError, Global};
use std::mem;

/// Whether a statement is a `return`.
fn is_return(form: &Form) -> bool
    ensures { result ≡ is_return (statement_form form.now) }
{
    match form {
        Form::Return { .. } => true,
        Form::Let { .. } => false,
        Form::Assign { .. } => false,
        Form::AssignCell { .. } => false,
        Form::If { .. } => false,
        Form::While { .. } => false,
        Form::Call { .. } => false,
        Form::Fork { .. } => false,
        Form::Join { .. } => false,
        Form::Print { .. } => false,
        Form::Assert { .. } => false,
    }
}

/// Whether the last statement of a block is a `return`.
fn ends_in_return(b: &Block) -> bool
    ensures { result ≡ ends_in_return (block b.now) }
{
    let mut last = false;
    for s in &b.stmts {
        last = is_return(&s.form);
    }
    last
}

/// Pushes 0, `false` or `none`.
fn zero(kind: ValueKind) -> Instr
    ensures { result ≡ zero_code kind }
{
    match kind {
        ValueKind::Int => Instr::PushInt(0),
        ValueKind::Bool => Instr::PushBool(false),
        ValueKind::Rev => Instr::PushNone,
    }
}

/// Writes what stands behind the statements of a body.
fn end(code: &mut Vec<Instr>, gives: Option<ValueKind>, b: &Block) -> Result<(), AllocError>
    ensures { OnOk result (code.new.items ≡ code.old.items ++ end_code gives (block b.now)) }
{
    let Some(kind) = gives else {
        return put(code, Instr::Return);
    };
    if ends_in_return(b) {
        return Ok(());
    }
    put(code, zero(kind))?;
    put(code, Instr::Return)
}

/// The instructions of a body, whose first layout has this number.
fn body_code(
    alloc: Global,
    numbers: &NameNumbers,
    params: &[Param],
    gives: Option<ValueKind>,
    b: &Block,
    layout: u32,
) -> Result<Items<Instr>, AllocError>
    requires fits { BodyFits (numbers_of numbers.now) (map parameter params.now) (block b.now) }
    requires layouts { layout + statements_prints (block b.now) < 2 ^ 32 }
    ensures { IfOk result
        (λ code. code ≡ body_code (numbers_of numbers.now) (map parameter params.now) gives
        (block b.now) layout) }
{
    let mut body = Body {
        code: Vec::new(alloc),
        scope: params_scope(alloc, params)?,
        local: params.len() as u8,
        layout,
    };
    emit_block(alloc, numbers, &mut body, b)?;
    end(&mut body.code, gives, b)?;
    let Body { code, .. } = body;
    Ok(Items::from_vec(code))
}

/// The kinds of the locals of a body, whose texts and layouts are listed behind the others.
fn body_locals(
    alloc: Global,
    checker: &Checker,
    listed: &mut Listed,
    params: &[Param],
    b: &Block,
) -> Result<Items<ValueKind>, AllocError>
    requires { length listed.old.texts.items + length (statements_texts (block b.now)) < 2 ^ 32 }
    ensures kinds { IfOk result
        (λ ks. ks ≡ body_locals (names_of checker.now) (map parameter params.now) (block b.now)) }
    ensures texts { OnOk result
        (listed.new.texts.items ≡ listed.old.texts.items ++ statements_texts (block b.now)) }
    ensures layouts { OnOk result
        (listed.new.layouts.items
        ≡ listed.old.layouts.items ++ statements_layouts (names_of checker.now)
        (scopes.with_params [] (map parameter params.now)) (length listed.old.texts.items)
        (block b.now)) }
{
    listed.locals = params_locals(alloc, params)?;
    listed.kinds = params_kinds(alloc, params)?;
    list_block(alloc, checker, listed, b)?;
    Ok(Items::from_vec(mem::replace(&mut listed.kinds, Vec::new(alloc))))
}

/// The block of a procedure, of which the first layout is the next.
fn proc_block(
    alloc: Global,
    numbers: &NameNumbers,
    checker: &Checker,
    listed: &mut Listed,
    params: &[Param],
    gives: Option<ValueKind>,
    b: &Block,
) -> Result<CodeBlock, AllocError>
    requires fits { BodyFits (numbers_of numbers.now) (map parameter params.now) (block b.now) }
    requires texts { length listed.old.texts.items + length (statements_texts (block b.now))
        < 2 ^ 32 }
    requires layouts { length listed.old.layouts.items + statements_prints (block b.now) < 2 ^ 32 }
    ensures block { IfOk result
        (λ x. x ≡ proc_block (numbers_of numbers.now) (names_of checker.now)
        (map parameter params.now) gives (block b.now) (length listed.old.layouts.items)) }
    ensures texts { OnOk result
        (listed.new.texts.items ≡ listed.old.texts.items ++ statements_texts (block b.now)) }
    ensures layouts { OnOk result
        (listed.new.layouts.items
        ≡ listed.old.layouts.items ++ statements_layouts (names_of checker.now)
        (scopes.with_params [] (map parameter params.now)) (length listed.old.texts.items)
        (block b.now)) }
{
    let layout = listed.layouts.len() as u32;
    let instrs = body_code(alloc, numbers, params, gives, b, layout)?;
    let locals = body_locals(alloc, checker, listed, params, b)?;
    Ok(CodeBlock {
        class: BlockClass::Proc,
        params: params.len() as u8,
        result: gives,
        locals,
        instrs,
    })
}

/// The block of `main`.
fn main_block(
    alloc: Global,
    numbers: &NameNumbers,
    checker: &Checker,
    listed: &mut Listed,
    b: &Block,
) -> Result<CodeBlock, AllocError>
    requires fits { BodyFits (numbers_of numbers.now) [] (block b.now) }
    requires texts { length listed.old.texts.items + length (statements_texts (block b.now))
        < 2 ^ 32 }
    requires layouts { length listed.old.layouts.items + statements_prints (block b.now) < 2 ^ 32 }
    ensures block { IfOk result
        (λ x. x ≡ main_block (numbers_of numbers.now) (names_of checker.now) (block b.now)
        (length listed.old.layouts.items)) }
    ensures texts { OnOk result
        (listed.new.texts.items ≡ listed.old.texts.items ++ statements_texts (block b.now)) }
    ensures layouts { OnOk result
        (listed.new.layouts.items
        ≡ listed.old.layouts.items ++ statements_layouts (names_of checker.now) []
        (length listed.old.texts.items) (block b.now)) }
{
    let layout = listed.layouts.len() as u32;
    let instrs = body_code(alloc, numbers, &[], None, b, layout)?;
    let locals = body_locals(alloc, checker, listed, &[], b)?;
    Ok(CodeBlock {
        class: BlockClass::Main,
        params: 0,
        result: None,
        locals,
        instrs,
    })
}

/// Enters the block of a declaration, if it is a procedure.
fn enter_body(
    alloc: Global,
    numbers: &NameNumbers,
    checker: &Checker,
    listed: &mut Listed,
    blocks: &mut Vec<CodeBlock>,
    d: &Decl,
) -> Result<(), AllocError>
    requires fits { DeclarationFits (numbers_of numbers.now) (declaration d.now) }
    requires texts { length listed.old.texts.items + length (texts_in (declaration d.now))
        < 2 ^ 32 }
    requires layouts { length listed.old.layouts.items + prints_of (declaration d.now) < 2 ^ 32 }
    ensures blocks { OnOk result
        (blocks.new.items
        ≡ blocks.old.items ++ body_block_of (numbers_of numbers.now) (names_of checker.now)
        (length listed.old.layouts.items) (declaration d.now)) }
    ensures texts { OnOk result
        (listed.new.texts.items ≡ listed.old.texts.items ++ texts_in (declaration d.now)) }
    ensures layouts { OnOk result
        (listed.new.layouts.items
        ≡ listed.old.layouts.items ++ layouts_in (names_of checker.now)
        (length listed.old.texts.items) (declaration d.now)) }
{
    match d {
        Decl::Proc {
            params,
            result,
            body,
            ..
        } => {
            blocks.push(proc_block(alloc, numbers, checker, listed, params, *result, body)?)?;
            Ok(())
        }
        Decl::Fun { .. } => Ok(()),
        Decl::Merge { .. } => Ok(()),
        Decl::Shared { .. } => Ok(()),
    }
}

/// Enters the blocks of the procedures in order and of `main` behind others, and gives what they
/// print.
pub fn emit_bodies(
    alloc: Global,
    numbers: &NameNumbers,
    checker: &Checker,
    blocks: &mut Vec<CodeBlock>,
    program: &Program,
) -> Result<Listed, AllocError>
    requires declarations { DeclarationsFit (numbers_of numbers.now)
        (whole program.now).declarations }
    requires main { BodyFits (numbers_of numbers.now) [] (whole program.now).main }
    requires texts { length (texts_of (whole program.now).declarations (whole program.now).main)
        < 2 ^ 32 }
    requires layouts { length
        (layouts_of (names_of checker.now) 0 (whole program.now).declarations
        (whole program.now).main)
        < 2 ^ 32 }
    ensures blocks { OnOk result
        (blocks.new.items
        ≡ blocks.old.items ++ body_blocks (numbers_of numbers.now) (names_of checker.now)
        (whole program.now).declarations (whole program.now).main 0) }
    ensures texts { IfOk result
        (λ l. l.texts.items ≡ texts_of (whole program.now).declarations (whole program.now).main) }
    ensures layouts { IfOk result
        (λ l. l.layouts.items
        ≡ layouts_of (names_of checker.now) 0 (whole program.now).declarations
        (whole program.now).main) }
{
    let mut listed = Listed {
        locals: NameTable::new(alloc),
        kinds: Vec::new(alloc),
        texts: Vec::new(alloc),
        layouts: Vec::new(alloc),
    };
    for d in &program.decls {
        enter_body(alloc, numbers, checker, &mut listed, blocks, d)?;
    }
    blocks.push(main_block(alloc, numbers, checker, &mut listed, &program.main)?)?;
    Ok(listed)
}
