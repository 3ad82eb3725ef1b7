//! What is left to do while an expression is evaluated.

ghost use Rattle.std.specs.Prelude.{◌≡◌, ◌<◌, ◌≤◌, ◌+◌, ◌-◌, ◌*◌, ◌∷◌, ◌++◌, [], ℕ, List, None, Ok};
ghost use Rattle.std.specs.Prelude.{true, IfOk, IfSome, length};
ghost use Rattle.rev_num.specs.declared.value.Value.{Value};
ghost use Rattle.rev_syntax.specs.Trees.{Declaration, apply};
ghost use Rattle.rev_syntax.specs.View.{links, expression_form, expression, expressions};
ghost use Rattle.rev_syntax.specs.View.{placed_name};
ghost use Rattle.rev_syntax.specs.Small.{links_count, expression_count, expressions_count};
ghost use Rattle.typed_programs.specs.Evaluation.{chained_within, expression_form_within, value_within};
ghost use Rattle.rev_evaluator.specs.Environment as spec;
ghost use Rattle.rev_evaluator.specs.Seen.{seen};
ghost use Rattle.rev_evaluator.specs.Work.{after, application, call_turn, continued, ended};
ghost use Rattle.rev_evaluator.specs.Work.{goes_on, kept, kept_behind, keeps, lasts, link_cost};
ghost use Rattle.rev_evaluator.specs.Work.{part_cost, part_turn, pending_cost, pending_size};
ghost use Rattle.rev_evaluator.specs.Work.{pending_weight, turn_size, turn_weight, value_turn};
ghost use Rattle.rev_evaluator.specs.Work.{waiting, waits, without};
ghost use Rattle.name_tables.specs.Table.{Table, find};
ghost use Rattle.typed_programs.specs.Weights.{known_weight, links_weight, expression_weight};
ghost use Rattle.typed_programs.specs.Weights.{expressions_weight};
ghost use Rattle.typed_programs.specs.Value.{Env};
ghost use Rattle.rev_evaluator.specs.declared.work.Pending.{Pending as Waits};
ghost use Rattle.rev_evaluator.specs.declared.work.Pending.TheVariants as on;

use crate::environment::{Environment, Reads};
use crate::operators::{number, operated, reversed, short, truth};
use crate::seen::Seen;
use rev_num::Cause;
use rev_syntax::{BinaryOp, Expr, Link, Name, Node, UnaryOp};

/// How many parts of an expression may wait in one call, and how many values of arguments may be
/// kept.
pub const ROOM: usize = 64;

/// What is to be done with the value of a part of an expression.
#[derive(Clone, Copy, Drop)]
pub enum Pending<'a> {
    /// It is the index of a cell of the array of this name.
    Cell(&'a Name),
    /// It is the position of an input number.
    Input,
    Unary(UnaryOp),
    /// It chooses between two expressions.
    Pick {
        yes: &'a Expr,
        no: &'a Expr,
    },
    /// It is the left operand of the first of these links.
    Left(&'a [Link]),
    /// It is a right operand, with links behind it.
    Right {
        op: BinaryOp,
        left: Seen<'a>,
        rest: &'a [Link],
    },
    /// It is an argument; this many values of others are kept, and the rest comes after it.
    Argument {
        name: &'a Name,
        before: usize,
        rest: &'a [Expr],
    },
}

/// An application: the values of this many arguments are the last that are kept, the value of one
/// more may come behind them, and the rest is not evaluated yet.
#[derive(Clone, Copy, Drop)]
pub struct Call<'a> {
    pub name: &'a Name,
    pub before: usize,
    pub value: Option<Seen<'a>>,
    pub rest: &'a [Expr],
}

/// What comes next: a part is evaluated, or has a value, or a fun is applied.
#[derive(Clone, Copy, Drop)]
pub enum Next<'a> {
    Part(&'a Expr),
    Value(Seen<'a>),
    Call(Call<'a>),
}

/// A turn of the evaluation: a value that is kept, what waits for the value of the part that comes
/// next, and what comes next.
#[derive(Clone, Copy, Drop)]
pub struct Turn<'a> {
    pub keep: Option<Seen<'a>>,
    pub wait: Option<Pending<'a>>,
    pub next: Next<'a>,
}

impl<'a> Turn<'a> {
    /// A part has a value.
    pub fn value(x: Seen<'a>) -> Turn<'a>
        ensures { result ≡ value_turn x.entry }
    {
        Turn {
            keep: None,
            wait: None,
            next: Next::Value(x),
        }
    }

    /// The value of a part is awaited.
    fn part(what: Pending<'a>, part: &'a Expr) -> Turn<'a>
        ensures { result ≡ part_turn what.entry part.entry }
    {
        Turn {
            keep: None,
            wait: Some(what),
            next: Next::Part(part),
        }
    }

    /// A fun is applied.
    fn call(call: Call<'a>) -> Turn<'a>
        ensures { result ≡ call_turn call.entry }
    {
        Turn {
            keep: None,
            wait: None,
            next: Next::Call(call),
        }
    }
}

/// What a part counts where it is begun: a chain counts with its links.
fn part_cost(node: &Node) -> u32
    ensures { result ≡ part_cost (expression_form node.now) }
{
    match node {
        Node::Chain { .. } => 0,
        Node::Int(_) => 1,
        Node::Bool(_) => 1,
        Node::NoRev => 1,
        Node::Var(_) => 1,
        Node::Cell { .. } => 1,
        Node::Apply { .. } => 1,
        Node::Input { .. } => 1,
        Node::Inputs { .. } => 1,
        Node::Pick { .. } => 1,
        Node::Unary { .. } => 1,
    }
}

/// What the link counts that comes next, where the value of a left operand is awaited.
fn pending_cost(what: &Pending) -> u32
    ensures { result ≡ pending_cost what.now }
{
    match what {
        Pending::Left(rest) => { if rest.is_empty() { 0 } else { 1 } }
        _ => 0,
    }
}

/// What comes first in a part, which takes what the part counts from what is left.
pub fn begin<'l, 'a, E: Environment>(
    reads: &Reads<'l, 'a, E>,
    e: &'a Expr,
    left: &mut u32,
) -> Turn<'a>
    ensures paid { left.new ≡ left.old - part_cost (expression_form e.now.node) }
    ensures meaning { (es : List Declaration) (n : ℕ) (ps : List Waits) (vs : List Value)
        → after es n (spec.reads E.env reads.now) ps vs result
        ≡ ended es n (spec.reads E.env reads.now) ps vs
        (value_within es n (spec.reads E.env reads.now) (expression e.now)) }
    ensures keeps_nothing { result.keep ≡ None }
    ensures smaller { turn_size result < 3 * expression_count (expression e.now) }
    ensures lighter { (ws : Table ℕ)
        → turn_weight ws result + part_cost (expression_form e.now.node)
        ≤ expression_weight ws (expression e.now) }
{
    *left = left.saturating_sub(part_cost(&e.node));
    match &e.node {
        Node::Int(n) => Turn::value(Seen::Int(*n)),
        Node::Bool(b) => Turn::value(Seen::Bool(*b)),
        Node::NoRev => Turn::value(Seen::Rev(None)),
        Node::Var(name) => Turn::value(reads.variable(name)),
        Node::Inputs { .. } => Turn::value(Seen::Int(reads.inputs())),
        Node::Cell { name, index } => Turn::part(Pending::Cell(name), index),
        Node::Input { index, .. } => Turn::part(Pending::Input, index),
        Node::Pick { test, yes, no } => Turn::part(Pending::Pick { yes, no }, test),
        Node::Unary { op, part } => Turn::part(Pending::Unary(*op), part),
        Node::Chain { first, rest } => Turn::part(Pending::Left(rest), first),
        Node::Apply { name, args } => begin_application(name, args),
    }
}

/// The arguments of an application come first, from left to right.
fn begin_application<'a>(name: &'a Name, args: &'a [Expr]) -> Turn<'a>
    ensures meaning { (es : List Declaration) (n : ℕ) (l : Env) (ps : List Waits) (vs : List Value)
        → after es n l ps vs result
        ≡ ended es n l ps vs
        (expression_form_within es n l (apply (placed_name name.now) (expressions args.now))) }
    ensures keeps_nothing { result.keep ≡ None }
    ensures smaller { turn_size result < 3 * (1 + expressions_count (expressions args.now)) }
    ensures lighter { (ws : Table ℕ)
        → turn_weight ws result ≤ known_weight (find name.now.text.items ws) + expressions_weight ws
        (expressions args.now) }
{
    match args.split_first() {
        Some((arg, rest)) => Turn::part(
            Pending::Argument {
                name,
                before: 0,
                rest,
            },
            arg,
        ),
        None => Turn::call(Call {
            name,
            before: 0,
            value: None,
            rest: args,
        }),
    }
}

/// What comes after the value of a part, or the fault of what is done with it. A value is kept only
/// where there is room for it. A link that comes next takes 1 from what is left.
pub fn give<'l, 'a, E: Environment>(
    reads: &Reads<'l, 'a, E>,
    what: Pending<'a>,
    x: Seen<'a>,
    room: bool,
    left: &mut u32,
) -> Result<Turn<'a>, Cause>
    ensures paid { left.new ≡ left.old - pending_cost what.entry }
    ensures meaning { (es : List Declaration) (n : ℕ) (ps : List Waits) (vs : List Value)
        → goes_on es n (spec.reads E.env reads.now) ps vs result
        ≡ ended es n (spec.reads E.env reads.now) ps (kept_behind what.entry vs)
        (continued es n (spec.reads E.env reads.now) what.entry vs (seen x.entry)) }
    ensures kept { IfOk result (λ t. IfSome t.keep (λ y. room ≡ true)) }
    ensures smaller { IfOk result (λ t. turn_size t < 1 + pending_size what.entry) }
    ensures lighter { (ws : Table ℕ)
        → IfOk result
        (λ t. turn_weight ws t + pending_cost what.entry ≤ pending_weight ws what.entry) }
{
    *left = left.saturating_sub(pending_cost(&what));
    match what {
        Pending::Cell(name) => Ok(Turn::value(reads.cell(name, number(x))?)),
        Pending::Input => Ok(Turn::value(reads.input(number(x))?)),
        Pending::Unary(op) => Ok(Turn::value(reversed(op, x)?)),
        Pending::Pick { yes, no } => Ok(chosen(x, yes, no)),
        Pending::Left(rest) => Ok(give_left(x, rest)),
        Pending::Right { op, left, rest } => Ok(Turn {
            keep: None,
            wait: Some(Pending::Left(rest)),
            next: Next::Value(operated(op, left, x)?),
        }),
        Pending::Argument { name, before, rest } => {
            Ok(give_argument(name, before, x, rest, room))
        }
    }
}

/// The expression that a test chooses comes next.
fn chosen<'a>(test: Seen<'a>, yes: &'a Expr, no: &'a Expr) -> Turn<'a>
    ensures meaning { (es : List Declaration) (n : ℕ) (l : Env) (ps : List Waits) (vs : List Value)
        → after es n l ps vs result
        ≡ ended es n l ps vs (continued es n l (on.Pick yes.entry no.entry) vs (seen test.entry)) }
    ensures keeps_nothing { result.keep ≡ None }
    ensures smaller { turn_size result < 2 + 3 *
        (expression_count (expression yes.now) + expression_count (expression no.now)) }
    ensures lighter { (ws : Table ℕ)
        → turn_weight ws result ≤ expression_weight ws (expression yes.now) + expression_weight ws
        (expression no.now) }
{
    Turn {
        keep: None,
        wait: None,
        next: Next::Part(if truth(test) { yes } else { no }),
    }
}

/// What comes after a left operand, which may decide without the right one.
fn give_left<'a>(left: Seen<'a>, behind: &'a [Link]) -> Turn<'a>
    ensures meaning { (es : List Declaration) (n : ℕ) (l : Env) (ps : List Waits) (vs : List Value)
        → after es n l ps vs result
        ≡ ended es n l ps vs (chained_within es n l (seen left.entry) (links behind.now)) }
    ensures keeps_nothing { result.keep ≡ None }
    ensures smaller { turn_size result < 2 + 3 * links_count (links behind.now) }
    ensures lighter { (ws : Table ℕ)
        → turn_weight ws result + link_cost (links behind.now) ≤ links_weight ws
        (links behind.now) }
{
    let Some((link, rest)) = behind.split_first() else {
        return Turn::value(left);
    };
    match short(link.op, left) {
        Some(decided) => Turn {
            keep: None,
            wait: Some(Pending::Left(rest)),
            next: Next::Value(decided),
        },
        None => Turn::part(
            Pending::Right {
                op: link.op,
                left,
                rest,
            },
            &link.part,
        ),
    }
}

/// What comes after the value of an argument: the next argument, where there is one and room for
/// the value, or the fun.
fn give_argument<'a>(
    name: &'a Name,
    before: usize,
    x: Seen<'a>,
    args: &'a [Expr],
    room: bool,
) -> Turn<'a>
    ensures meaning { (es : List Declaration) (n : ℕ) (l : Env) (ps : List Waits) (vs : List Value)
        → after es n l ps vs result
        ≡ ended es n l ps (without before vs)
        (application es n l name.now.text.items (lasts before vs ++ seen x.entry ∷ [])
        (expressions args.now)) }
    ensures kept { IfSome result.keep (λ y. room ≡ true) }
    ensures smaller { turn_size result < 3 + 3 * expressions_count (expressions args.now) }
    ensures lighter { (ws : Table ℕ)
        → turn_weight ws result ≤ known_weight (find name.now.text.items ws) + expressions_weight ws
        (expressions args.now) }
{
    match args.split_first() {
        Some((arg, rest)) if room && before < ROOM => Turn {
            keep: Some(x),
            wait: Some(Pending::Argument {
                name,
                before: before + 1,
                rest,
            }),
            next: Next::Part(arg),
        },
        _ => Turn::call(Call {
            name,
            before,
            value: Some(x),
            rest: args,
        }),
    }
}

/// Where something waits, it waits behind the first `depth` that wait; how many wait then.
pub fn wait<'a>(pending: &mut [Pending<'a>; ROOM], depth: usize, what: Option<Pending<'a>>) -> usize
    requires { depth < 64 }
    ensures room { result ≤ 64 }
    ensures waits { waiting pending.new result ≡ waits what.entry (waiting pending.old depth) }
    ensures places { length pending.new ≡ 64 }
{
    match what {
        Some(what) => {
            pending[depth] = what;
            depth + 1
        }
        None => depth,
    }
}

/// Where a value is kept, it is kept behind the first `held` values; how many are kept then.
pub fn keep<'a>(values: &mut [Seen<'a>; ROOM], held: usize, value: Option<Seen<'a>>) -> usize
    requires free { IfSome value (λ x. held < 64) }
    requires fits { held ≤ 64 }
    ensures room { result ≤ 64 }
    ensures keeps { kept values.new result ≡ keeps value.entry (kept values.old held) }
{
    match value {
        Some(value) => {
            values[held] = value;
            held + 1
        }
        None => held,
    }
}
