//! The rules on expressions.

ghost use Rattle.std.specs.Prelude.{◌≡◌, map, option_map, slice_get};
ghost use Rattle.std.specs.Option.{option_copied};
ghost use Rattle.rev_syntax.specs.View.{parameter, links, right_side, expression_form};
ghost use Rattle.rev_syntax.specs.View.{expression, expressions, placed_name};
ghost use Rattle.typed_programs.specs.FunRules.{count};
ghost use Rattle.typed_programs.specs.Kinds as kind;
ghost use Rattle.rev_kinds.specs.Walk as rule;

use crate::fault::first;
use crate::kinds::{
    alike, array_use, callee_use, first_operand, fits, input_use, links_kind, name_kind,
    operand_kind, params_of, result_of, result_use, right_operand, scalar_use, wants,
};
use crate::names::{Callee, Checker, Locals};
use rev_num::ValueKind;
use rev_syntax::{Expr, Link, Name, Node, Param, Rhs};
use typed_programs::{Holder, TypeFault};

/// An expression that was checked: its kind, if it has one, and the first rule that it breaks.
#[derive(Clone, Copy, Drop)]
pub struct CheckedExpression {
    pub kind: Option<ValueKind>,
    pub fault: Option<TypeFault>,
}

impl CheckedExpression {
    fn new(kind: Option<ValueKind>, fault: Option<TypeFault>) -> CheckedExpression
        ensures kind { result.kind ≡ kind }
        ensures fault { result.fault ≡ fault }
    {
        CheckedExpression { kind, fault }
    }
}

/// The parameter of this number.
#[tactic(auto, using(typed_programs::proofs::Declared::slice_get_mapped))]
fn param_at(params: &[Param], i: usize) -> Option<&Param>
    ensures { option_map parameter (option_copied result) ≡ slice_get (map parameter params.now) i }
{
    params.get(i)
}

impl<'a> Checker<'_, 'a> {
    /// The shared variable of a name.
    pub fn holder(&self, name: &Name) -> Option<Holder>
        ensures { result ≡ (rule.names_of self.now).shared name.now.text.items }
    {
        if self.inside {
            None
        } else {
            self.shared.find(&name.text)
        }
    }

    /// The procedure of a name.
    pub fn proc(&self, name: &Name) -> Option<Callee<'a>>
        ensures { option_map rule.callee result
            ≡ (rule.names_of self.now).procs name.now.text.items }
    {
        self.procs.find(&name.text)
    }

    /// The fun of a name.
    fn fun(&self, name: &Name) -> Option<Callee<'a>>
        ensures { option_map rule.callee result
            ≡ (rule.names_of self.now).funs name.now.text.items }
    {
        self.funs.find(&name.text)
    }

    /// An expression, with the locals that are in scope.
    #[cycle(expression)]
    pub fn expression(&self, locals: &Locals, e: &Expr) -> CheckedExpression
        ensures kind { result.kind
            ≡ kind.kind_in (rule.names_of self.now) locals.now (expression e.now) }
        ensures fault { result.fault
            ≡ rule.broken_in_expression (rule.names_of self.now) locals.now (expression e.now) }
    {
        self.node(locals, &e.node)
    }

    #[cycle(expression)]
    fn node(&self, locals: &Locals, node: &Node) -> CheckedExpression
        ensures kind { result.kind
            ≡ kind.expression_form_kind (rule.names_of self.now) locals.now
            (expression_form node.now) }
        ensures fault { result.fault
            ≡ rule.broken_in_expression_form (rule.names_of self.now) locals.now
            (expression_form node.now) }
    {
        match node {
            Node::Int(_) => CheckedExpression::new(Some(ValueKind::Int), None),
            Node::Bool(_) => CheckedExpression::new(Some(ValueKind::Bool), None),
            Node::NoRev => CheckedExpression::new(Some(ValueKind::Rev), None),
            Node::Var(name) => {
                let local = locals.find(&name.text);
                let shared = self.holder(name);
                CheckedExpression::new(name_kind(local, shared), scalar_use(name, local, shared))
            }
            Node::Cell { name, index } => {
                let local = locals.find(&name.text);
                let shared = self.holder(name);
                let fault = first(
                    array_use(name, local, shared),
                    self.part(locals, index, ValueKind::Int),
                );
                CheckedExpression::new(name_kind(local, shared), fault)
            }
            Node::Apply { name, args } => {
                let fun = self.fun(name);
                CheckedExpression::new(result_of(fun), self.args(locals, params_of(fun), args))
            }
            Node::Input { word_at, index } => {
                let fault = first(
                    input_use(self.inside, *word_at),
                    self.part(locals, index, ValueKind::Int),
                );
                CheckedExpression::new(Some(ValueKind::Int), fault)
            }
            Node::Inputs { word_at } => CheckedExpression::new(
                Some(ValueKind::Int),
                input_use(self.inside, *word_at),
            ),
            Node::Pick { test, yes, no } => {
                let test = self.part(locals, test, ValueKind::Bool);
                let left = self.expression(locals, yes);
                let right = self.expression(locals, no);
                let branches = first(left.fault, right.fault);
                let fault = first(test, first(branches, alike(no.at, left.kind, right.kind)));
                CheckedExpression::new(left.kind, fault)
            }
            Node::Unary { op, part } => {
                let wanted = operand_kind(*op);
                CheckedExpression::new(Some(wanted), self.part(locals, part, wanted))
            }
            Node::Chain { first: head, rest } => {
                let left = self.expression(locals, head);
                let found = first(left.fault, first_operand(rest, head.at, left.kind));
                CheckedExpression::new(links_kind(rest), self.links(locals, left.kind, found, rest))
            }
        }
    }

    /// An expression where this kind is wanted.
    #[cycle(expression)]
    pub fn part(&self, locals: &Locals, e: &Expr, wanted: ValueKind) -> Option<TypeFault>
        ensures { result
            ≡ rule.part_by (rule.names_of self.now) locals.now (expression e.now) wanted }
    {
        let found = self.expression(locals, e);
        first(found.fault, wants(e.at, found.kind, wanted))
    }

    /// Argument number `i` for these parameters.
    #[cycle(expression)]
    fn arg(&self, locals: &Locals, params: &[Param], i: usize, e: &Expr) -> Option<TypeFault>
        ensures { result
            ≡ rule.arg_by (rule.names_of self.now) locals.now (map parameter params.now) i
            (expression e.now) }
    {
        let seen = self.expression(locals, e);
        first(seen.fault, fits(e.at, seen.kind, param_at(params, i)))
    }

    /// The arguments for these parameters.
    #[cycle(expression)]
    fn args(&self, locals: &Locals, params: &[Param], args: &[Expr]) -> Option<TypeFault>
        ensures { result
            ≡ rule.args_by (rule.names_of self.now) locals.now (map parameter params.now) 0 None
            (expressions args.now) }
    {
        let mut found = None;
        for (i, arg) in args.iter().enumerate() {
            found = first(found, self.arg(locals, params, i, arg));
        }
        found
    }

    /// The links of a chain whose first operand has this kind, after these faults.
    #[cycle(expression)]
    fn links(
        &self,
        locals: &Locals,
        left: Option<ValueKind>,
        before: Option<TypeFault>,
        rest: &[Link],
    ) -> Option<TypeFault>
        ensures { result
            ≡ rule.broken_in_links (rule.names_of self.now) locals.now left before
            (links rest.now) }
    {
        let mut found = before;
        for link in rest {
            let seen = self.expression(locals, &link.part);
            let operand = right_operand(link.op, left, link.part.at, seen.kind);
            found = first(found, first(seen.fault, operand));
        }
        found
    }

    /// A name after `call` or `rfork`, which means this procedure if it means one, with its arguments.
    #[tactic(auto, using(typed_programs::proofs::Appends::count_expressions))]
    fn call_of(
        &self,
        locals: &Locals,
        name: &Name,
        proc: Option<Callee<'a>>,
        args: &[Expr],
    ) -> Option<TypeFault>
        ensures { result
            ≡ rule.both
            (rule.callee_use (placed_name name.now) (count (expressions args.now))
            (option_map rule.callee proc.entry))
            (rule.args_by (rule.names_of self.now) locals.now
            (rule.params_of (option_map rule.callee proc.entry)) 0 None (expressions args.now)) }
    {
        first(
            callee_use(name, args.len(), proc),
            self.args(locals, params_of(proc), args),
        )
    }

    /// A name after `call` or `rfork`, with its arguments.
    pub fn call(&self, locals: &Locals, name: &Name, args: &[Expr]) -> Option<TypeFault>
        ensures { result
            ≡ rule.call_by (rule.names_of self.now) locals.now (placed_name name.now)
            (expressions args.now) }
    {
        self.call_of(locals, name, self.proc(name), args)
    }

    /// A right side.
    pub fn right_side(&self, locals: &Locals, rhs: &Rhs) -> CheckedExpression
        ensures kind { result.kind
            ≡ kind.right_side_kind (rule.names_of self.now) locals.now (right_side rhs.now) }
        ensures fault { result.fault
            ≡ rule.broken_in_right_side (rule.names_of self.now) locals.now (right_side rhs.now) }
    {
        match rhs {
            Rhs::Plain(e) => self.expression(locals, e),
            Rhs::Call { name, args, .. } => {
                let proc = self.proc(name);
                let fault = first(
                    result_use(name.at, proc),
                    self.call_of(locals, name, proc, args),
                );
                CheckedExpression::new(result_of(proc), fault)
            }
            Rhs::Fork { name, args, .. } => {
                CheckedExpression::new(Some(ValueKind::Rev), self.call(locals, name, args))
            }
            Rhs::Try { handle, .. } => {
                CheckedExpression::new(
                    Some(ValueKind::Bool),
                    self.part(locals, handle, ValueKind::Rev),
                )
            }
        }
    }
}

/// The place of a right side's first token.
pub fn right_side_place(rhs: &Rhs) -> u32
    ensures { result ≡ kind.right_side_place (right_side rhs.now) }
{
    match rhs {
        Rhs::Plain(e) => e.at,
        Rhs::Call { at, .. } => *at,
        Rhs::Fork { at, .. } => *at,
        Rhs::Try { at, .. } => *at,
    }
}
