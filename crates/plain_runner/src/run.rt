//! Runs of a program.

ghost use Rattle.std.specs.Prelude.{◌≡◌, ◌≤◌, IfOk};
ghost use Rattle.rev_num.specs.Limits.{most_fuel};
ghost use Rattle.rev_syntax.specs.View.{program as whole};
ghost use Rattle.revision_machine.specs.Rules.{IsWithin};
ghost use Rattle.revision_machine.specs.States.{global_of};
ghost use Rattle.revision_machine.specs.StepOutcomes.{IsEnd};
ghost use Rattle.revision_machine.specs.TwoOrders.{Orders};
ghost use Rattle.revision_calculus.specs.Calculus.{calculus, main as main_of};
ghost use Rattle.revision_calculus.specs.Complete.{HasOutcome, start_of};
ghost use Rattle.determinacy.specs.Rules.{rules_of};
ghost use Rattle.plain_runner.specs.Views.{StepAnswers, setting_of};

use crate::language::PlainLanguage;
use rev_num::{Outcome, Path};
use revision_machine as machine;
use revision_machine::{BothOrders, GlobalState, StepOutcome};
use revision_steps::Local;
use std::alloc::{AllocError, Global};
use typed_programs::Typed;

impl<'a> PlainLanguage<'a> {
    /// The state before the first step: `main` alone, with this fuel, at most 4,000,000,000 units.
    /// Want of memory is the one error.
    pub fn start(&self, alloc: Global, fuel: u64) -> Result<GlobalState<Local<'a>>, AllocError>
        requires { fuel ≤ most_fuel }
        ensures start { IfOk result (λ g. global_of g ≡ start_of (setting_of self.now) fuel) }
        ensures reached { IfOk result
            (λ g. IsWithin (rules_of (setting_of self.now)) (global_of g)) }
    {
        let main = Local::first(alloc, &self.setting, fuel)?;
        machine::start(self, alloc, main)
    }

    /// The state after a step of the revision at this path, and how the step came out. For `Waits`,
    /// `Ended` and `NoSuch` it is the given one, which a run has reached from a first state within
    /// the limit. Want of memory is the one error.
    pub fn step(
        &self,
        alloc: Global,
        state: GlobalState<Local<'a>>,
        path: &Path,
    ) -> Result<(GlobalState<Local<'a>>, StepOutcome), AllocError>
        requires { IsWithin (rules_of (setting_of self.now)) (global_of state) }
        ensures answers { IfOk result
            (λ r. StepAnswers (setting_of self.now) path.now state.entry r) }
        ensures reached { IfOk result
            (λ r. IsWithin (rules_of (setting_of self.now)) (global_of r.0)) }
    {
        machine::step(self, alloc, state, path)
    }

    /// An equal state.
    pub fn copy_state(
        &self,
        alloc: Global,
        state: &GlobalState<Local<'a>>,
    ) -> Result<GlobalState<Local<'a>>, AllocError>
        ensures { IfOk result (λ g. global_of g ≡ global_of state.now) }
    {
        machine::copy_state(self, alloc, state)
    }

    /// The states after steps of the revisions at `p` and `q` in both orders, from a state that a
    /// run has reached from a first one within the limit. Want of memory is the one error.
    pub fn diamond_step(
        &self,
        alloc: Global,
        state: &GlobalState<Local<'a>>,
        p: &Path,
        q: &Path,
    ) -> Result<BothOrders<Local<'a>>, AllocError>
        requires { IsWithin (rules_of (setting_of self.now)) (global_of state.now) }
        ensures { IfOk result
            (λ d. Orders (calculus (setting_of self.now)) d (global_of state.now) p.now q.now) }
    {
        machine::diamond_step(self, alloc, state, p, q)
    }

    /// The end of a complete run with this fuel, at most 4,000,000,000 units, which is the end of
    /// every complete run. Want of memory is the one error.
    pub fn run(&self, alloc: Global, fuel: u64) -> Result<GlobalState<Local<'a>>, AllocError>
        requires { fuel ≤ most_fuel }
        ensures { IfOk result
            (λ g. IsEnd (calculus (setting_of self.now)) (main_of (setting_of self.now) fuel)
            (global_of g)) }
    {
        let main = Local::first(alloc, &self.setting, fuel)?;
        machine::run(self, alloc, main)
    }
}

/// The outcome of the program with these inputs, the most fuel that a fork gives, and this fuel, at
/// most 4,000,000,000 units: that of every complete run, whatever the order of its steps. Want of
/// memory is the one error.
pub fn run_plain(
    alloc: Global,
    typed: &Typed,
    input: &[i64],
    share: u64,
    fuel: u64,
) -> Result<Outcome, AllocError>
    requires { fuel ≤ most_fuel }
    ensures { IfOk result
        (λ o. HasOutcome
        (record {
          program = whole typed.now.expanded.program;
          inputs = input.now;
          share = share;
        }) fuel o) }
{
    let language = PlainLanguage::new(alloc, typed, input, share)?;
    let end = language.run(alloc, fuel)?;
    match language.outcome_of(alloc, end)? {
        Some(outcome) => Ok(outcome),
        None => unreachable!(),
    }
}
