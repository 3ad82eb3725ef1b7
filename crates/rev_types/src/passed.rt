//! What the declarations before a place declare.

ghost use Rattle.std.specs.Prelude.{◌≡◌, ◌+◌, ◌<◌, ◌≤◌, ◌^◌, OnOk, min, option_map};
ghost use Rattle.rev_syntax.specs.View.{declaration, array_size, links};
ghost use Rattle.rev_syntax.specs.View.{expression_form, expression, expressions};
ghost use Rattle.name_tables.specs.Table.{find};
ghost use Rattle.rev_types.specs.Passing.{passed_of};
ghost use Rattle.typed_programs.specs.Weights.{known_weight};
ghost use Rattle.rev_report.specs.Limits.{first_past};
ghost use Rattle.rev_report.specs.declared.limit.Limit.TheVariants as limits;
ghost use Rattle.typed_programs.specs.Program as program;
ghost use Rattle.typed_programs.specs.Scopes as scopes;

use name_tables::NameTable;
use rev_report::Limit;
use rev_syntax::{Decl, Expr, Link, Name, Node, Size};
use std::alloc::{AllocError, Global};

/// What the declarations before a place declare: their names, each with the number of its first
/// declaration; the numbers of the merges and the weights of the funs by name; the locations; and
/// how many more procedures and how many more funs and merges there may be, up to and with the
/// first past the limit. Weights and locations stop at one past their limits.
#[derive(Drop)]
pub struct Passed {
    pub number: u32,
    pub names: NameTable<u32>,
    pub merges: NameTable<u32>,
    pub merge_count: u32,
    pub weights: NameTable<u32>,
    pub located: u32,
    pub procs_left: usize,
    pub funs_left: usize,
}

/// The sum of weights, up to one past the limit.
fn plus(a: u32, b: u32) -> u32
    ensures { result ≡ program.plus a b }
{
    a.saturating_add(b).min(Limit::Weight.most() + 1)
}

/// The weight of a fun of this name.
fn known_weight(weights: &NameTable<u32>, name: &Name) -> u32
    ensures { result ≡ known_weight (find name.now.text.items weights.now) }
{
    weights.find(&name.text).unwrap_or(0)
}

/// The weight of an expression, where the funs have these weights.
#[cycle(weight)]
fn weight(weights: &NameTable<u32>, e: &Expr) -> u32
    ensures { result ≡ program.weight weights.now (expression e.now) }
{
    node_weight(weights, &e.node)
}

#[cycle(weight)]
fn node_weight(weights: &NameTable<u32>, node: &Node) -> u32
    ensures { result ≡ program.expression_form_weight weights.now (expression_form node.now) }
{
    match node {
        Node::Int(_) => 1,
        Node::Bool(_) => 1,
        Node::NoRev => 1,
        Node::Var(_) => 1,
        Node::Inputs { .. } => 1,
        Node::Cell { index, .. } => plus(1, weight(weights, index)),
        Node::Input { index, .. } => plus(1, weight(weights, index)),
        Node::Apply { name, args } => {
            args_weight(weights, plus(1, known_weight(weights, name)), args)
        }
        Node::Pick { test, yes, no } => {
            let test = weight(weights, test);
            let yes = weight(weights, yes);
            plus(plus(plus(1, test), yes), weight(weights, no))
        }
        Node::Unary { part, .. } => plus(1, weight(weights, part)),
        Node::Chain { first, rest } => links_weight(weights, weight(weights, first), rest),
    }
}

/// The weight of arguments, with this weight before.
#[cycle(weight)]
fn args_weight(weights: &NameTable<u32>, before: u32, args: &[Expr]) -> u32
    ensures { result ≡ program.expressions_weight weights.now before (expressions args.now) }
{
    let mut sum = before;
    for arg in args {
        sum = plus(sum, weight(weights, arg));
    }
    sum
}

/// The weight of links, with this weight before.
#[cycle(weight)]
fn links_weight(weights: &NameTable<u32>, before: u32, rest: &[Link]) -> u32
    ensures { result ≡ program.links_weight weights.now before (links rest.now) }
{
    let mut sum = before;
    for link in rest {
        sum = plus(sum, plus(1, weight(weights, &link.part)));
    }
    sum
}

/// The locations of a variable of this size, up to one past the limit.
pub fn cells_in(size: Option<Size>) -> u32
    ensures { result ≡ program.cells_in (option_map array_size size) }
{
    match size {
        None => 1,
        Some(size) => capped_cells(size.cells),
    }
}

fn capped_cells(cells: i64) -> u32
    ensures { result ≡ min (scopes.size_cells cells) (first_past limits.Locations) }
{
    let limit = Limit::Locations.most();
    if cells < 0 {
        0
    } else if cells > limit as i64 {
        limit + 1
    } else {
        cells as u32
    }
}

/// The locations of cells after others, up to one past the limit.
pub fn located_after(before: u32, cells: u32) -> u32
    ensures { result ≡ program.located_after before cells }
{
    before
        .saturating_add(cells)
        .min(Limit::Locations.most() + 1)
}

impl Passed {
    /// Before all declarations.
    pub fn new(alloc: Global) -> Passed
        ensures { passed_of result ≡ program.nothing_passed }
    {
        Passed {
            number: 0,
            names: NameTable::new(alloc),
            merges: NameTable::new(alloc),
            merge_count: 0,
            weights: NameTable::new(alloc),
            located: 0,
            procs_left: Limit::Procedures.first_past(),
            funs_left: Limit::Funs.first_past(),
        }
    }

    /// The weight of the body of a fun or of a merge behind these declarations.
    pub fn body_weight(&self, decl: &Decl) -> u32
        ensures { result ≡ program.body_weight (passed_of self.now) (declaration decl.now) }
    {
        match decl {
            Decl::Fun { body, .. } => weight(&self.weights, body),
            Decl::Merge { body, .. } => weight(&self.weights, body),
            Decl::Shared { .. } => 0,
            Decl::Proc { .. } => 0,
        }
    }

    /// Goes past a declaration, whose body has this weight.
    pub fn pass(&mut self, alloc: Global, decl: &Decl, weight: u32) -> Result<(), AllocError>
        requires weighed { weight
            ≡ program.body_weight (passed_of self.old) (declaration decl.now) }
        requires fits { self.old.number + 1 < 2 ^ 32 }
        requires counted { self.old.merge_count ≤ self.old.number }
        ensures passed { OnOk result
            (passed_of self.new ≡ program.passed_with (passed_of self.old) (declaration decl.now)) }
        ensures number { OnOk result (self.new.number ≡ self.old.number + 1) }
        ensures counts { OnOk result (self.new.merge_count ≤ self.new.number) }
    {
        match decl {
            Decl::Fun { name, .. } => {
                self.names.add(alloc, &name.text, self.number)?;
                self.weights.add(alloc, &name.text, weight)?;
                self.funs_left = self.funs_left.saturating_sub(1);
            }
            Decl::Merge { name, .. } => {
                self.names.add(alloc, &name.text, self.number)?;
                self.merges.add(alloc, &name.text, self.merge_count)?;
                self.funs_left = self.funs_left.saturating_sub(1);
                self.number += 1;
                self.merge_count += 1;
                return Ok(());
            }
            Decl::Shared { name, size, .. } => {
                self.names.add(alloc, &name.text, self.number)?;
                self.located = located_after(self.located, cells_in(*size));
            }
            Decl::Proc { name, .. } => {
                self.names.add(alloc, &name.text, self.number)?;
                self.procs_left = self.procs_left.saturating_sub(1);
            }
        }
        self.number += 1;
        Ok(())
    }
}
