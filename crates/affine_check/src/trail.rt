//! The trail of a handle: what the paths from its first value to a place do with it.

ghost use Rattle.std.specs.Prelude.{◌≡◌, Some, None, false, option_map};
ghost use Rattle.rev_syntax.specs.View.{arms, expression, expressions, placed_name, right_side};
ghost use Rattle.rev_syntax.specs.View.{statement_form, stmt, stmts};
ghost use Rattle.affine_check.specs.Walk as rule;

use crate::fault::{AffineFault, first};
use rev_syntax::{Arm, Expr, Form, Name, Node, Rhs, Stmt};

/// What the paths to a place, from where a handle got its first value, do with it.
#[derive(Clone, Copy, Drop)]
pub struct Trail {
    /// Some path comes here.
    pub reached: bool,
    /// Some path that used the handle since its last value comes here.
    pub used: bool,
    /// Some path from the start of this turn of the innermost loop comes here on which the handle
    /// got no value. Outside of loops none does.
    pub unchanged: bool,
    /// The first use that such a path meets: a second use, if the turn before used the handle.
    pub ahead: Option<AffineFault>,
    /// The first second use, or use in a loop, so far.
    pub found: Option<AffineFault>,
}

/// The fault, where this holds.
fn when(holds: bool, fault: AffineFault) -> Option<AffineFault>
    ensures { result ≡ rule.when holds fault }
{
    if holds { Some(fault) } else { None }
}

impl Trail {
    /// Where the handle has its first value, and a path comes or none.
    pub fn start(reached: bool) -> Trail
        ensures { result ≡ rule.start reached }
    {
        Trail {
            reached,
            used: false,
            unchanged: false,
            ahead: None,
            found: None,
        }
    }

    /// Behind a use at this place, if there is one, in a loop or not.
    fn used_at(self, inside: bool, at: Option<u32>) -> Trail
        ensures { result ≡ rule.used_at inside at self }
    {
        match at {
            None => self,
            Some(at) => {
                let second = when(self.used, AffineFault::UsedTwice { at });
                let in_loop = when(inside, AffineFault::InLoop { at });
                let ahead = when(self.unchanged, AffineFault::UsedTwice { at });
                Trail {
                    reached: self.reached,
                    used: self.used || self.reached,
                    unchanged: self.unchanged,
                    ahead: first(self.ahead, ahead),
                    found: first(self.found, first(second, in_loop)),
                }
            }
        }
    }

    /// Behind a new value.
    fn renewed(self) -> Trail
        ensures { result ≡ rule.renewed self }
    {
        Trail {
            reached: self.reached,
            used: false,
            unchanged: false,
            ahead: self.ahead,
            found: self.found,
        }
    }

    /// Behind a `return`, where no path goes on.
    fn ended(self) -> Trail
        ensures { result ≡ rule.ended self }
    {
        Trail {
            reached: false,
            used: false,
            unchanged: false,
            ahead: self.ahead,
            found: self.found,
        }
    }

    /// Where these paths and others meet.
    fn met(self, other: Trail) -> Trail
        ensures { result ≡ rule.met self other }
    {
        Trail {
            reached: self.reached || other.reached,
            used: self.used || other.used,
            unchanged: self.unchanged || other.unchanged,
            ahead: first(self.ahead, other.ahead),
            found: first(self.found, other.found),
        }
    }

    /// At the start of a turn of a loop.
    fn turning(self) -> Trail
        ensures { result ≡ rule.turning self }
    {
        Trail {
            reached: self.reached,
            used: self.used,
            unchanged: true,
            ahead: None,
            found: self.found,
        }
    }

    /// Behind a loop, of which one turn leads to `turn`. A further turn adds what is ahead, if one
    /// before it used the handle, and no more.
    fn turned(self, turn: Trail) -> Trail
        ensures { result ≡ rule.turned self turn }
    {
        let again = if turn.used { turn.ahead } else { None };
        let ahead = if self.unchanged { turn.ahead } else { None };
        Trail {
            reached: self.reached,
            used: self.used || turn.used,
            unchanged: self.unchanged,
            ahead: first(self.ahead, ahead),
            found: first(turn.found, again),
        }
    }
}

/// The place of an expression that is this name.
fn named(name: &[u8], e: &Expr) -> Option<u32>
    ensures { result ≡ rule.named name.now (expression e.now) }
{
    match &e.node {
        Node::Var(w) => {
            if name == w.text.as_slice() {
                Some(w.at)
            } else {
                None
            }
        }
        Node::Int(_) => None,
        Node::Bool(_) => None,
        Node::NoRev => None,
        Node::Cell { .. } => None,
        Node::Apply { .. } => None,
        Node::Input { .. } => None,
        Node::Inputs { .. } => None,
        Node::Pick { .. } => None,
        Node::Unary { .. } => None,
        Node::Chain { .. } => None,
    }
}

/// Behind arguments.
fn args(name: &[u8], inside: bool, trail: Trail, all: &[Expr]) -> Trail
    ensures { result ≡ rule.trail_args name.now inside trail (expressions all.now) }
{
    let mut now = trail;
    for arg in all {
        now = now.used_at(inside, named(name, arg));
    }
    now
}

/// Behind a right side.
fn right(name: &[u8], inside: bool, trail: Trail, rhs: &Rhs) -> Trail
    ensures { result ≡ rule.trail_right name.now inside trail (right_side rhs.now) }
{
    match rhs {
        Rhs::Plain(_) => trail,
        Rhs::Call { args: all, .. } => args(name, inside, trail, all),
        Rhs::Fork { args: all, .. } => args(name, inside, trail, all),
        Rhs::Try { handle, .. } => trail.used_at(inside, named(name, handle)),
    }
}

/// Behind the value of a `return`.
fn value(name: &[u8], inside: bool, trail: Trail, returned: &Option<Expr>) -> Trail
    ensures { result
        ≡ rule.trail_value name.now inside trail (option_map expression returned.now) }
{
    match returned {
        None => trail,
        Some(e) => trail.used_at(inside, named(name, e)),
    }
}

/// Behind a value for the local or the shared variable of another name, or of this.
fn gets(name: &[u8], other: &Name, trail: Trail) -> Trail
    ensures { result ≡ rule.trail_gets name.now (placed_name other.now) trail }
{
    if name == other.text.as_slice() {
        trail.renewed()
    } else {
        trail
    }
}

/// Behind a statement, which stands in a loop of the handle's block or not.
#[cycle(trail)]
fn statement(name: &[u8], inside: bool, trail: Trail, s: &Stmt) -> Trail
    ensures { result ≡ rule.trail_statement name.now inside trail (stmt s.now) }
{
    form(name, inside, trail, &s.form)
}

#[cycle(trail)]
fn form(name: &[u8], inside: bool, trail: Trail, form: &Form) -> Trail
    ensures { result ≡ rule.trail_form name.now inside trail (statement_form form.now) }
{
    match form {
        Form::Let { name: other, rhs } => gets(name, other, right(name, inside, trail, rhs)),
        Form::Assign { name: other, rhs } => gets(name, other, right(name, inside, trail, rhs)),
        Form::AssignCell { .. } => trail,
        Form::If { arms: all, last } => {
            let taken = blocks(name, inside, trail, all);
            match last {
                None => taken.met(trail),
                Some(last) => taken.met(statements(name, inside, trail, &last.stmts)),
            }
        }
        Form::While { body, .. } => {
            trail.turned(statements(name, true, trail.turning(), &body.stmts))
        }
        Form::Call { args: all, .. } => args(name, inside, trail, all),
        Form::Return { value: returned } => value(name, inside, trail, returned).ended(),
        Form::Fork { args: all, .. } => args(name, inside, trail, all),
        Form::Join { handle } => trail.used_at(inside, named(name, handle)),
        Form::Print { .. } => trail,
        Form::Assert { .. } => trail,
    }
}

/// Behind these statements, from where the trail leads to.
#[cycle(trail)]
pub fn statements(name: &[u8], inside: bool, trail: Trail, all: &[Stmt]) -> Trail
    ensures { result ≡ rule.trail name.now inside trail (stmts all.now) }
{
    let mut now = trail;
    for s in all {
        now = statement(name, inside, now, s);
    }
    now
}

/// Where the blocks of an `if` meet.
#[cycle(trail)]
fn blocks(name: &[u8], inside: bool, trail: Trail, all: &[Arm]) -> Trail
    ensures { result ≡ rule.trail_arms name.now inside trail (rule.start false) (arms all.now) }
{
    let mut taken = Trail::start(false);
    for a in all {
        taken = taken.met(statements(name, inside, trail, &a.body.stmts));
    }
    taken
}
