//! The outcome of a state.

ghost use Rattle.std.specs.Prelude.{◌≡◌, IfOk};
ghost use Rattle.revision_machine.specs.States.{global_of};
ghost use Rattle.revision_calculus.specs.Outcome as calculus;
ghost use Rattle.plain_runner.specs.Shows.{main_end};
ghost use Rattle.plain_runner.specs.Views.{setting_of};

use crate::language::PlainLanguage;
use rev_num::{Items, Outcome, Path};
use revision_data::shown_values;
use revision_machine::GlobalState;
use revision_steps::Local;
use std::alloc::{AllocError, Global};

impl<'a> PlainLanguage<'a> {
    /// The outcome of a state: Twice, or what `main` printed, the values of its view and how it
    /// ended; none where `main` has not ended. Want of memory is the one error.
    pub fn outcome_of(
        &self,
        alloc: Global,
        state: GlobalState<Local<'a>>,
    ) -> Result<Option<Outcome>, AllocError>
        ensures { IfOk result
            (λ o. o ≡ calculus.outcome (setting_of self.now) (global_of state.entry)) }
    {
        let revisions = match state {
            GlobalState::Twice => return Ok(Some(Outcome::Twice)),
            GlobalState::Live(revisions) => revisions,
        };
        let i = match revisions.find(&Path::root(alloc)) {
            Some(i) => i,
            None => return Ok(None),
        };
        let mut list = revisions.list;
        let main = list.swap_remove(i);
        self.end_of(alloc, main.state)
    }

    /// The outcome with this state of `main`, if it has ended.
    fn end_of(&self, alloc: Global, main: Local<'a>) -> Result<Option<Outcome>, AllocError>
        ensures { IfOk result (λ o. o ≡ main_end (setting_of self.now) main.entry) }
    {
        if !main.has_ended() {
            return Ok(None);
        }
        let values = Items::from_vec(shown_values(alloc, self.setting.typed(), main.locations())?);
        let trap = match main.trap() {
            Some(trap) => Some(trap.copy(alloc)?),
            None => None,
        };
        let text = Items::from_vec(main.text(alloc)?);
        Ok(Some(match trap {
            Some(trap) => Outcome::Trapped { text, values, trap },
            None => Outcome::Done { text, values },
        }))
    }
}
