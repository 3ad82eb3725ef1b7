//! The value of a merge, without memory.

ghost use Rattle.std.specs.Prelude.{◌≡◌, ◌<◌, ◌≤◌, ◌+◌, length};
ghost use Rattle.rev_num.specs.declared.value.Value.TheVariants as v;
ghost use Rattle.rev_syntax.specs.View.{declaration, expression, program as whole};
ghost use Rattle.rev_report.specs.Limits.{most};
ghost use Rattle.rev_report.specs.declared.limit.Limit.TheVariants as limits;
ghost use Rattle.typed_programs.specs.Definitions.{merge_value_of};
ghost use Rattle.typed_programs.specs.Evaluation as meant;
ghost use Rattle.typed_programs.specs.Value.{bind, closed};
ghost use Rattle.typed_programs.specs.Weights.{declaration_weight, merge_weight, weight_within};
ghost use Rattle.typed_programs.specs.Weights.{weights_before};
ghost use Rattle.rev_evaluator.specs.Declarations.{declared_by};
ghost use Rattle.rev_evaluator.specs.Locals.{local};
ghost use Rattle.rev_evaluator.specs.Seen.{answer};

use crate::environment::{Nothing, Reads};
use crate::funs::declared;
use crate::locals::{Locals, bound};
use crate::operators::number;
use crate::seen::Seen;
use crate::value::{Scope, take_turns};
use rev_num::{Cause, NumFault};
use rev_report::Limit;
use rev_syntax::{Decl, Expr, Name};
use typed_programs::Expanded;

/// What is answered for the value of a merge.
fn outcome(value: Result<Seen, Cause>) -> Result<i64, NumFault>
    ensures { result ≡ meant.merge_answer (answer value.entry) }
{
    match value {
        Ok(x) => Ok(number(x)),
        Err(Cause::Overflow) => Err(NumFault::Overflow),
        Err(Cause::ZeroDivisor) => Err(NumFault::ZeroDivisor),
        Err(_) => Ok(0),
    }
}

/// A parameter of a merge, and its number.
#[derive(Clone, Copy, Drop)]
struct Given<'a> {
    name: &'a Name,
    number: i64,
}

/// The answer for the body of a merge before which so many declarations stand, where this last
/// parameter is bound behind others.
fn with_last<'a>(
    expanded: &'a Expanded,
    within: usize,
    body: &'a Expr,
    earlier: &Locals<'_, 'a>,
    last: Given<'a>,
    left: &mut u32,
) -> Result<i64, NumFault>
    ensures work { left.old ≤ left.new
        + weight_within (declared_by expanded.now) within (expression body.now) }
    ensures answer { result ≡ meant.merge_answer
        (meant.value_within (declared_by expanded.now) within
        (closed (bind (local earlier.now) last.entry.name.now.text.items
        (v.Int last.entry.number)))
        (expression body.now)) }
{
    let locals = bound(last.name, Seen::Int(last.number), &*earlier);
    let reads: Reads<'_, 'a, Nothing> = Reads::Inside(&locals);
    let scope = Scope {
        expanded,
        within,
        reads: &reads,
    };
    outcome(take_turns(&scope, body, left))
}

/// The answer for the body of a merge before which so many declarations stand, where these two
/// parameters are bound behind others.
fn with_two<'a>(
    expanded: &'a Expanded,
    within: usize,
    body: &'a Expr,
    earlier: &Locals<'_, 'a>,
    join: Given<'a>,
    root: Given<'a>,
    left: &mut u32,
) -> Result<i64, NumFault>
    ensures work { left.old ≤ left.new
        + weight_within (declared_by expanded.now) within (expression body.now) }
    ensures answer { result ≡ meant.merge_answer
        (meant.value_within (declared_by expanded.now) within
        (closed (bind (bind (local earlier.now) join.entry.name.now.text.items
        (v.Int join.entry.number))
        root.entry.name.now.text.items (v.Int root.entry.number)))
        (expression body.now)) }
{
    let locals = bound(join.name, Seen::Int(join.number), &*earlier);
    with_last(expanded, within, body, &locals, root, left)
}

/// The answer for the merge that this declaration, of this number, declares.
fn merged<'a>(
    expanded: &'a Expanded,
    number: usize,
    decl: &'a Decl,
    main: i64,
    join: i64,
    root: i64,
    left: &mut u32,
) -> Result<i64, NumFault>
    ensures work { left.old ≤ left.new
        + declaration_weight (weights_before (declared_by expanded.now) number)
        (declaration decl.now) }
    ensures answer { result ≡ meant.merge_answer
        (meant.declaration_value (declared_by expanded.now) number
        (declaration decl.now) (v.Int main) (v.Int join) (v.Int root)) }
{
    match decl {
        Decl::Merge {
            main: of_main,
            join: of_join,
            root: of_root,
            body,
            ..
        } => {
            let empty = Locals::Empty;
            let locals = bound(of_main, Seen::Int(main), &empty);
            let join = Given {
                name: of_join,
                number: join,
            };
            let root = Given {
                name: of_root,
                number: root,
            };
            with_two(expanded, number, body, &locals, join, root, left)
        }
        _ => Ok(0),
    }
}

/// The value of the merge of this number, as `merge_value` gives it, where each part that is
/// evaluated but a chain, and each link of a chain, takes 1 from what is left.
///
/// No more is taken than the weight of the merge, and no less than that weight may be left before.
pub fn counted_merge_value(
    expanded: &Expanded,
    merge: u32,
    main: i64,
    join: i64,
    root: i64,
    left: &mut u32,
) -> Result<i64, NumFault>
    requires declared { merge < length expanded.now.merges }
    requires enough { merge_weight (whole expanded.now.program) merge ≤ left.old }
    ensures work { left.old ≤ left.new + merge_weight (whole expanded.now.program) merge }
    ensures answer { result ≡ meant.merge_answer
        (merge_value_of (whole expanded.now.program) merge (v.Int main) (v.Int join) (v.Int root)) }
{
    let merges = expanded.merges.as_slice();
    let number = merges[merge as usize].decl as usize;
    match declared(expanded, number) {
        Some(decl) => merged(expanded, number, decl, main, join, root, left),
        None => Ok(0),
    }
}

/// The value of the merge of this number, counted from 0 in order of declaration, of the joiner's,
/// the joinee's and the root's value; or the fault of the first part that faults, from left to
/// right.
///
/// It takes no memory but the stack. The weight of the merge is at most the greatest weight, and so
/// no more parts are evaluated. In a program that keeps the rules on kinds the value is a number,
/// and a fault is one of arithmetic.
pub fn merge_value(
    expanded: &Expanded,
    merge: u32,
    main: i64,
    join: i64,
    root: i64,
) -> Result<i64, NumFault>
    requires declared { merge < length expanded.now.merges }
    requires light { merge_weight (whole expanded.now.program) merge ≤ most limits.Weight }
    ensures { result
        ≡ meant.merge_answer
        (merge_value_of (whole expanded.now.program) merge (v.Int main) (v.Int join) (v.Int root)) }
{
    let mut left = Limit::Weight.most();
    counted_merge_value(expanded, merge, main, join, root, &mut left)
}
