//! The tables of the names of locals, one for each body of a program.

ghost use Rattle.revision_state.specs.LocalPlaces.{AreApart, AreBelow};

use crate::body_names::BodyNames;
use name_tables::NameTable;
use rev_syntax::{Arm, Block, Decl, Form, Param, Program, Stmt};
use std::alloc::{AllocError, Global};
use std::rc::Rc;

/// The tables of the bodies of a program, which its frames share.
#[derive(Drop)]
pub struct Bodies {
    main: Rc<BodyNames>,
    /// By the numbers of declarations; those that are no procedures have the table of no names.
    declared: Vec<Rc<BodyNames>>,
    none: Rc<BodyNames>,
}

/// Enters the name with the next number, unless it has one already.
fn enter(alloc: Global, numbers: &mut NameTable<usize>, name: &[u8]) -> Result<(), AllocError>
    requires below { AreBelow numbers.old }
    requires apart { AreApart numbers.old }
    ensures below { AreBelow numbers.new }
    ensures apart { AreApart numbers.new }
{
    let next = numbers.len();
    numbers.add(alloc, name, next)
}

/// The table of these names, which are numbered in their order.
fn numbered(alloc: Global, names: &[&[u8]]) -> Result<Rc<BodyNames>, AllocError> {
    let mut numbers = NameTable::new(alloc);
    for name in names {
        enter(alloc, &mut numbers, *name)?;
    }
    Ok(Rc::new(alloc, BodyNames { numbers })?)
}

/// Lists the name that a statement binds, and those in its blocks.
#[cycle(bound)]
fn list_stmt<'a>(names: &mut Vec<&'a [u8]>, stmt: &'a Stmt) -> Result<(), AllocError> {
    list_form(names, &stmt.form)
}

#[cycle(bound)]
fn list_form<'a>(names: &mut Vec<&'a [u8]>, form: &'a Form) -> Result<(), AllocError> {
    match form {
        Form::Let { name, .. } => {
            names.push(name.text.as_slice())?;
            Ok(())
        }
        Form::If { arms, last } => {
            list_arms(names, arms)?;
            match last {
                None => Ok(()),
                Some(last) => list_block(names, last),
            }
        }
        Form::While { body, .. } => list_block(names, body),
        _ => Ok(()),
    }
}

/// Lists the names that the statements of a block bind.
#[cycle(bound)]
fn list_block<'a>(names: &mut Vec<&'a [u8]>, block: &'a Block) -> Result<(), AllocError> {
    for stmt in &block.stmts {
        list_stmt(names, stmt)?;
    }
    Ok(())
}

#[cycle(bound)]
fn list_arms<'a>(names: &mut Vec<&'a [u8]>, arms: &'a [Arm]) -> Result<(), AllocError> {
    for arm in arms {
        list_arm(names, arm)?;
    }
    Ok(())
}

#[cycle(bound)]
fn list_arm<'a>(names: &mut Vec<&'a [u8]>, arm: &'a Arm) -> Result<(), AllocError> {
    list_block(names, &arm.body)
}

/// The table of the names of these parameters and of the `let`s of this body.
fn names_of(alloc: Global, params: &[Param], body: &Block) -> Result<Rc<BodyNames>, AllocError> {
    let mut names = Vec::new(alloc);
    for param in params {
        names.push(param.name.text.as_slice())?;
    }
    list_block(&mut names, body)?;
    numbered(alloc, &names)
}

/// The table of the names of a procedure; for another declaration this one of no names.
fn names_of_decl(
    alloc: Global,
    none: &Rc<BodyNames>,
    decl: &Decl,
) -> Result<Rc<BodyNames>, AllocError> {
    match decl {
        Decl::Proc { params, body, .. } => names_of(alloc, params, body),
        _ => Ok(none.clone()?),
    }
}

impl Bodies {
    /// The tables of the bodies of this program.
    pub fn of(alloc: Global, program: &Program) -> Result<Bodies, AllocError> {
        let none = numbered(alloc, &[])?;
        let main = names_of(alloc, &[], &program.main)?;
        let mut declared = Vec::with_capacity(alloc, program.decls.len())?;
        for decl in &program.decls {
            declared.push(names_of_decl(alloc, &none, decl)?)?;
        }
        Ok(Bodies {
            main,
            declared,
            none,
        })
    }

    /// The names of the locals of `main`.
    pub fn main(&self) -> &Rc<BodyNames> {
        &self.main
    }

    /// No names.
    pub fn none(&self) -> &Rc<BodyNames> {
        &self.none
    }

    /// The names of the locals of the declared procedure of this number.
    pub fn declared(&self, number: u32) -> &Rc<BodyNames> {
        match self.declared.get(number as usize) {
            Some(names) => names,
            None => &self.none,
        }
    }
}
