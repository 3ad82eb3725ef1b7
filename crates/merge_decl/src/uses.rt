//! The applications of funs in a program.

ghost use Rattle.std.specs.Prelude.{◌≡◌, ◌++◌, OnOk, IfOk, map};
ghost use Rattle.rev_syntax.specs.View.{statement_form, arms, block, declaration, links};
ghost use Rattle.rev_syntax.specs.View.{program as whole, right_side, expression_form, print_item};
ghost use Rattle.rev_syntax.specs.View.{expression, expressions};
ghost use Rattle.typed_programs.specs.FunRules as rule;
ghost use Rattle.merge_decl.specs.Uses.{uses_of};

use rev_syntax::{Arm, Block, Decl, Expr, Form, Item, Link, Name, Node, Program, Rhs};
use std::alloc::{AllocError, AllocFailed, Global};

/// An application of a fun: the name, how many arguments it has, and how many of the program's
/// first declarations it may use.
#[derive(Drop)]
pub struct Use<'a> {
    pub name: &'a Name,
    pub args: usize,
    pub within: usize,
}

/// Appends the applications of an expression that may use the first `within` declarations.
#[cycle(expression)]
fn add_expression<'a>(
    uses: &mut Vec<Use<'a>>,
    within: usize,
    e: &'a Expr,
) -> Result<(), AllocFailed<Use<'a>>>
    ensures { OnOk result
        (uses_of uses.new.items
        ≡ uses_of uses.old.items ++ rule.expression_uses within (expression e.now)) }
{
    add_node(uses, within, &e.node)
}

#[cycle(expression)]
fn add_node<'a>(
    uses: &mut Vec<Use<'a>>,
    within: usize,
    node: &'a Node,
) -> Result<(), AllocFailed<Use<'a>>>
    ensures { OnOk result
        (uses_of uses.new.items
        ≡ uses_of uses.old.items ++ rule.expression_form_uses within (expression_form node.now)) }
{
    match node {
        Node::Cell { index, .. } => add_expression(uses, within, index),
        Node::Apply { name, args } => {
            uses.push(Use {
                name,
                args: args.len(),
                within,
            })?;
            add_expressions(uses, within, args)?;
            Ok(())
        }
        Node::Input { index, .. } => add_expression(uses, within, index),
        Node::Pick { test, yes, no } => {
            add_expression(uses, within, test)?;
            add_expression(uses, within, yes)?;
            add_expression(uses, within, no)?;
            Ok(())
        }
        Node::Unary { part, .. } => add_expression(uses, within, part),
        Node::Chain { first, rest } => {
            add_expression(uses, within, first)?;
            add_links(uses, within, rest)?;
            Ok(())
        }
        Node::Int(_) => Ok(()),
        Node::Bool(_) => Ok(()),
        Node::NoRev => Ok(()),
        Node::Var(_) => Ok(()),
        Node::Inputs { .. } => Ok(()),
    }
}

#[cycle(expression)]
fn add_expressions<'a>(
    uses: &mut Vec<Use<'a>>,
    within: usize,
    args: &'a [Expr],
) -> Result<(), AllocFailed<Use<'a>>>
    ensures { OnOk result
        (uses_of uses.new.items
        ≡ uses_of uses.old.items ++ rule.expressions_uses within (expressions args.now)) }
{
    for arg in args {
        add_expression(uses, within, arg)?;
    }
    Ok(())
}

#[cycle(expression)]
fn add_links<'a>(
    uses: &mut Vec<Use<'a>>,
    within: usize,
    rest: &'a [Link],
) -> Result<(), AllocFailed<Use<'a>>>
    ensures { OnOk result
        (uses_of uses.new.items
        ≡ uses_of uses.old.items ++ rule.links_uses within (links rest.now)) }
{
    for link in rest {
        add_expression(uses, within, &link.part)?;
    }
    Ok(())
}

/// Appends the applications of a right side.
fn add_right<'a>(
    uses: &mut Vec<Use<'a>>,
    within: usize,
    rhs: &'a Rhs,
) -> Result<(), AllocFailed<Use<'a>>>
    ensures { OnOk result
        (uses_of uses.new.items
        ≡ uses_of uses.old.items ++ rule.right_side_uses within (right_side rhs.now)) }
{
    match rhs {
        Rhs::Plain(e) => add_expression(uses, within, e),
        Rhs::Call { args, .. } => add_expressions(uses, within, args),
        Rhs::Fork { args, .. } => add_expressions(uses, within, args),
        Rhs::Try { handle, .. } => add_expression(uses, within, handle),
    }
}

/// Appends the applications of a print's items.
fn add_items<'a>(
    uses: &mut Vec<Use<'a>>,
    within: usize,
    items: &'a [Item],
) -> Result<(), AllocFailed<Use<'a>>>
    ensures { OnOk result
        (uses_of uses.new.items
        ≡ uses_of uses.old.items ++ rule.items_uses within (map print_item items.now)) }
{
    for it in items {
        if let Item::Value(e) = it {
            add_expression(uses, within, e)?;
        }
    }
    Ok(())
}

/// Appends the applications of a statement.
#[cycle(form)]
#[tactic(auto, using(typed_programs::proofs::Appends::appends))]
fn add_form<'a>(
    uses: &mut Vec<Use<'a>>,
    within: usize,
    form: &'a Form,
) -> Result<(), AllocFailed<Use<'a>>>
    ensures { OnOk result
        (uses_of uses.new.items
        ≡ uses_of uses.old.items ++ rule.statement_form_uses within (statement_form form.now)) }
{
    match form {
        Form::Let { rhs, .. } => add_right(uses, within, rhs),
        Form::Assign { rhs, .. } => add_right(uses, within, rhs),
        Form::AssignCell { index, value, .. } => {
            add_expression(uses, within, index)?;
            add_expression(uses, within, value)
        }
        Form::If { arms, last } => {
            add_arms(uses, within, arms)?;
            match last {
                Some(block) => add_block(uses, within, block),
                None => Ok(()),
            }
        }
        Form::While { test, body } => {
            add_expression(uses, within, test)?;
            add_block(uses, within, body)
        }
        Form::Call { args, .. } => add_expressions(uses, within, args),
        Form::Return { value } => match value {
            Some(e) => add_expression(uses, within, e),
            None => Ok(()),
        },
        Form::Fork { args, .. } => add_expressions(uses, within, args),
        Form::Join { handle } => add_expression(uses, within, handle),
        Form::Print { items } => add_items(uses, within, items),
        Form::Assert { test } => add_expression(uses, within, test),
    }
}

#[cycle(form)]
#[tactic(auto, using(typed_programs::proofs::Appends::appends))]
fn add_arms<'a>(
    uses: &mut Vec<Use<'a>>,
    within: usize,
    all: &'a [Arm],
) -> Result<(), AllocFailed<Use<'a>>>
    ensures { OnOk result
        (uses_of uses.new.items ≡ uses_of uses.old.items ++ rule.arms_uses within (arms all.now)) }
{
    for arm in all {
        add_expression(uses, within, &arm.test)?;
        add_block(uses, within, &arm.body)?;
    }
    Ok(())
}

/// Appends the applications of a block.
#[cycle(form)]
fn add_block<'a>(
    uses: &mut Vec<Use<'a>>,
    within: usize,
    body: &'a Block,
) -> Result<(), AllocFailed<Use<'a>>>
    ensures { OnOk result
        (uses_of uses.new.items
        ≡ uses_of uses.old.items ++ rule.statements_uses within (block body.now)) }
{
    for stmt in &body.stmts {
        add_form(uses, within, &stmt.form)?;
    }
    Ok(())
}

/// Appends the applications of a declaration of this number, in a program of `all` declarations.
fn add_decl<'a>(
    uses: &mut Vec<Use<'a>>,
    all: usize,
    number: usize,
    decl: &'a Decl,
) -> Result<(), AllocFailed<Use<'a>>>
    ensures { OnOk result
        (uses_of uses.new.items
        ≡ uses_of uses.old.items ++ rule.declaration_uses all number (declaration decl.now)) }
{
    match decl {
        Decl::Fun { body, .. } => add_expression(uses, number, body),
        Decl::Merge { body, .. } => add_expression(uses, number, body),
        Decl::Shared { .. } => Ok(()),
        Decl::Proc { body, .. } => add_block(uses, all, body),
    }
}

#[tactic(auto, using(typed_programs::proofs::Appends::appends))]
/// The applications of a program, from left to right.
pub fn uses_in(alloc: Global, program: &Program) -> Result<Vec<Use<'_>>, AllocError>
    ensures { IfOk result (λ us. uses_of us.items ≡ rule.uses_in (whole program.now)) }
{
    let mut uses = Vec::new(alloc);
    let all = program.decls.len();
    for (number, decl) in program.decls.iter().enumerate() {
        add_decl(&mut uses, all, number, decl)?;
    }
    add_block(&mut uses, all, &program.main)?;
    Ok(uses)
}
