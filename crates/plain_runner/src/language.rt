//! A typed program as a language whose revisions fork and join.

ghost use Rattle.std.specs.Prelude.{◌≡◌, IfOk};
ghost use Rattle.rev_syntax.specs.View.{program as whole};
ghost use Rattle.plain_runner.specs.Views.{setting_of};

use rev_num::Path;
use revision_machine::{Language, Next};
use revision_state::Setting;
use revision_steps::Local;
use std::alloc::{AllocError, Global};
use typed_programs::Typed;

/// A typed program with its inputs and the most fuel that a fork gives, as a language.
#[derive(Drop)]
pub struct PlainLanguage<'a> {
    pub(crate) setting: Setting<'a>,
}

impl<'a> PlainLanguage<'a> {
    /// The language of a program, with its inputs and the most fuel that a fork gives.
    pub fn new(
        alloc: Global,
        typed: &'a Typed,
        input: &'a [i64],
        share: u64,
    ) -> Result<PlainLanguage<'a>, AllocError>
        ensures { IfOk result
            (λ l. setting_of l
            ≡ record {
              program = whole typed.now.expanded.program;
              inputs = input.now;
              share = share;
            }) }
    {
        let setting = Setting::new(alloc, typed, input, share)?;
        Ok(PlainLanguage { setting })
    }
}

impl<'a> Language for PlainLanguage<'a> {
    ghost use Rattle.plain_runner.specs.Keeping as keeping;

    type State = Local<'a>;

    ghost rules = { λ l. keeping.rules l };

    ghost keeps = { λ l. keeping.keeps l };

    fn advance(
        &self,
        alloc: Global,
        state: &mut Local<'a>,
        path: &Path,
    ) -> Result<Next<Local<'a>>, AllocError> {
        state.advance(alloc, &self.setting, path)
    }

    fn forks(&self, state: &Local<'a>) -> u32 {
        state.forks()
    }

    fn copy(&self, alloc: Global, state: &Local<'a>) -> Result<Local<'a>, AllocError> {
        state.copy(alloc)
    }

    fn has_ended(&self, state: &Local<'a>, _path: &Path) -> bool {
        state.has_ended()
    }

    fn settle(
        &self,
        alloc: Global,
        state: &mut Local<'a>,
        at: &Path,
        on: &Path,
        end: &Local<'a>,
    ) -> Result<(), AllocError> {
        state.settle(alloc, &self.setting, at, on, end)
    }
}
