//! The pass over the instructions of a block.

ghost use Rattle.std.specs.Prelude.{◌≡◌, ◌+◌, ◌<◌, ◌^◌, length, Some, None, if◌then◌else◌};
ghost use Rattle.std.specs.Prelude.{slice_get, replicate, ◌≤◌, IfErr, IfOk};
ghost use Rattle.code_rules.specs.Pass as pass;
ghost use Rattle.code_verifier.specs.Passing.{Arrived, IsReady, IsFirst, IsStep, rule_of};
ghost use Rattle.code_verifier.specs.Passing.{shape_faulty, spent_cost, verdict_of};
ghost use Rattle.code_verifier.specs.Spending.{AllCheap, IsCheap};

use crate::instr::{falls, is_bare, is_charge, is_paid_for, paid_after, target};
use crate::mark::{Mark, clashes, leap_on, meet};
use crate::operands::bad_operand;
use crate::shapes::Shapes;
use crate::spent::{Spent, applied, is_over_limit, with_one};
use crate::stack::{Effect, effect_of};
use code_rules::{Cost, Rule, is_value_class};
use rev_code::{Code, CodeBlock, Instr};
use std::alloc::{AllocError, Global};

/// A block with its number, the code, and the costs of the blocks before it.
#[derive(Clone, Copy)]
pub(crate) struct Scope<'a> {
    pub(crate) code: &'a Code,
    pub(crate) costs: &'a [Cost],
    pub(crate) number: usize,
    pub(crate) block: &'a CodeBlock,
}

/// What is known at a place: the shapes that were met, what each later place was left by jumps,
/// what the instruction before left, and what was spent.
#[derive(Drop)]
pub(crate) struct Known {
    pub(crate) shapes: Shapes,
    pub(crate) ahead: Vec<Option<Mark>>,
    pub(crate) last: Option<Mark>,
    pub(crate) spent: Spent,
}

fn bad_jump(block: &CodeBlock, at: usize, to: Option<u32>) -> bool
    ensures { result ≡ pass.bad_jump block.now at to }
{
    match to {
        None => false,
        Some(to) => {
            let instrs = block.instrs.as_slice();
            let to = to as usize;
            to >= instrs.len()
                || (at >= to && (is_value_class(block.class) || !is_charge(Some(instrs[to]))))
        }
    }
}

fn bad_local(block: &CodeBlock, x: Instr) -> bool
    ensures { result ≡ pass.bad_local block.now x }
{
    match x {
        Instr::LoadLocal(n) => n as usize >= block.locals.as_slice().len(),
        Instr::StoreLocal(n) => n as usize >= block.locals.as_slice().len(),
        _ => false,
    }
}

fn falls_off(block: &CodeBlock, at: usize, x: Instr) -> bool
    requires { at < length block.now.instrs }
    ensures { result ≡ pass.falls_off block.now at x }
{
    let len = block.instrs.as_slice().len();
    falls(x) && at + 1 == len
}

/// Whether the shape is faulty: too few words, too many, no payment, or another shape than an
/// earlier jump left.
fn is_faulty(effect: Effect, paid: bool, clash: bool, x: Instr) -> bool
    ensures { result ≡ shape_faulty effect.words effect.wanted paid clash x }
{
    effect.words < effect.wanted
        || (is_bare(x) && effect.wanted < effect.words)
        || (is_paid_for(x) && !paid)
        || clash
}

fn mark_if(falls: bool, mark: Mark) -> Option<Mark>
    ensures { result ≡ (if falls then Some mark else None) }
{
    if falls { Some(mark) } else { None }
}

/// The first of these that is so.
fn first_rule(shape: bool, kind: bool, local: bool, off: bool, limit: bool) -> Option<Rule>
    ensures { result ≡ rule_of shape kind local off limit }
{
    if shape {
        Some(Rule::StackShape)
    } else if kind {
        Some(Rule::WrongKind)
    } else if local {
        Some(Rule::BadLocal)
    } else if off {
        Some(Rule::FallsOff)
    } else if limit {
        Some(Rule::LimitOf)
    } else {
        None
    }
}

impl Known {
    /// At the first of so many instructions.
    fn new(alloc: Global, count: usize) -> Result<Known, AllocError>
        ensures { IfOk result (λ k. IsFirst count k) }
    {
        Ok(Known {
            shapes: Shapes::new(alloc)?,
            ahead: nothing_ahead(alloc, count)?,
            last: None,
            spent: Spent {
                depth: 0,
                need: 0,
                count: 0,
            },
        })
    }

    /// The first rule that the instruction at this place breaks; else it is passed.
    fn step(
        &mut self,
        alloc: Global,
        scope: &Scope,
        at: usize,
        x: Instr,
    ) -> Result<Option<Rule>, AllocError>
        requires ready { IsReady scope.now at self.old }
        requires here { slice_get scope.now.block.now.instrs at ≡ Some x }
        ensures { IfOk result (λ r. IsStep scope.now at x self.new r) }
    {
        let arrived = meet(&self.shapes, self.last, self.ahead[at]);
        if bad_jump(scope.block, at, target(x)) {
            return Ok(Some(Rule::BadJump));
        }
        if bad_operand(scope.code, scope.number, scope.block, x) {
            return Ok(Some(Rule::BadOperand));
        }
        match arrived {
            None => Ok(Some(Rule::StackShape)),
            Some(mark) => self.pass(alloc, scope, at, mark, x),
        }
    }

    /// The same, of an instruction whose jump and operand are right, with what is known on arrival.
    fn pass(
        &mut self,
        alloc: Global,
        scope: &Scope,
        at: usize,
        mark: Mark,
        x: Instr,
    ) -> Result<Option<Rule>, AllocError>
        requires ready { IsReady scope.now at self.old }
        requires here { slice_get scope.now.block.now.instrs at ≡ Some x }
        requires arrived { Arrived scope.now at x self.old mark }
        ensures { IfOk result (λ r. IsStep scope.now at x self.new r) }
    {
        let effect = effect_of(
            alloc,
            scope.code,
            scope.block,
            &mut self.shapes,
            mark.shape,
            x,
        )?;
        let clash = clashes(&self.shapes, &self.ahead, at, effect.after, target(x));
        let depth = self.shapes.depth(effect.after);
        let spent = with_one(self.spent, depth, applied(scope.costs, x));
        let shape = is_faulty(effect, mark.paid, clash, x);
        let limit = is_over_limit(scope.block, spent, depth);
        let rule = first_rule(
            shape,
            !effect.found,
            bad_local(scope.block, x),
            falls_off(scope.block, at, x),
            limit,
        );
        if rule.is_none() {
            let after = Mark {
                shape: effect.after,
                paid: paid_after(mark.paid, x),
            };
            leap_on(&mut self.ahead, at, after, target(x));
            self.last = mark_if(falls(x), after);
            self.spent = spent;
        }
        Ok(rule)
    }
}

fn nothing_ahead(alloc: Global, count: usize) -> Result<Vec<Option<Mark>>, AllocError>
    ensures { IfOk result (λ ahead. ahead.items ≡ replicate count None) }
{
    let mut ahead = Vec::with_capacity(alloc, count)?;
    for i in 0..count {
        prove!(i < count);
        ahead.push(None)?;
    }
    Ok(ahead)
}

/// What the block costs, whose instructions spent this.
fn cost_of(block: &CodeBlock, spent: Spent) -> Cost
    requires locals { length block.now.locals < 2 ^ 32 }
    requires depth { spent.depth < 2 ^ 63 }
    requires need { spent.need < 2 ^ 32 }
    ensures { result ≡ spent_cost block.now spent }
{
    if is_value_class(block.class) {
        Cost {
            need: block.locals.as_slice().len() as u64 + spent.depth + spent.need,
            count: spent.count,
        }
    } else {
        Cost { need: 0, count: 0 }
    }
}

/// The first instruction of the block that breaks a rule, with the first such rule; or what the
/// block costs.
pub(crate) fn check_block(
    alloc: Global,
    scope: &Scope,
) -> Result<Result<Cost, (usize, Rule)>, AllocError>
    requires cheap { AllCheap scope.now.costs.now }
    requires locals { length scope.now.block.now.locals ≤ 64 }
    requires instrs { length scope.now.block.now.instrs < 2 ^ 32 }
    ensures verdict { IfOk result (λ r. r ≡ verdict_of scope.now) }
    ensures cheap { IfOk result (λ r. IfOk r IsCheap) }
    ensures place { IfOk result (λ r. IfErr r (λ f. f.0 < 2 ^ 32)) }
{
    let instrs = scope.block.instrs.as_slice();
    if instrs.is_empty() {
        return Ok(Err((0, Rule::FallsOff)));
    }
    let mut known = Known::new(alloc, instrs.len())?;
    for at in 0..instrs.len() {
        match known.step(alloc, scope, at, instrs[at])? {
            Some(rule) => return Ok(Err((at, rule))),
            None => {}
        }
    }
    Ok(Ok(cost_of(scope.block, known.spent)))
}
