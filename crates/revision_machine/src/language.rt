//! What a language has to say of its revisions.

ghost use Rattle.std.specs.Prelude.{◌≡◌, ◌↔◌, IsTrue, IfOk, OnOk};
ghost use Rattle.revision_machine.specs.Machine.{Joins, Ended};
ghost use Rattle.revision_machine.specs.Rules.{Rules, Keeps, IsRoomy, AreRoomy, IsNext, IsStill};

use rev_num::Path;
use std::alloc::{AllocError, Global};

/// What a revision has done, or wants.
#[derive(Drop)]
pub enum Next<R> {
    /// It made a local step.
    Moved,
    /// It forked, and this is its child.
    Forked(R),
    /// It joins the revision at this path.
    Joins(Path),
    /// It has ended.
    Ended,
}

/// A language whose revisions fork and join: `self` is what all revisions of a program share, as
/// its text.
pub trait Language {
    /// The local state of a revision.
    type State: Drop;

    /// The machine of its revisions, the handles and the weight of a local state, and the limit of
    /// what the forks and the weights come to together.
    ghost rules: { Self → Rules Self.State };

    /// Makes the next local step or fork of the revision at this path, or tells what it waits for
    /// or that it has ended, and then its state stays as it was. The state is within the limit.
    fn advance(
        &self,
        alloc: Global,
        state: &mut Self::State,
        path: &Path,
    ) -> Result<Next<Self::State>, AllocError>
        requires { IsRoomy (rules self.now) state.old }
        ensures event { IfOk result (λ n. IsNext (rules self.now) path.now state.old n state.new) }
        ensures still { IfOk result (λ n. IsStill n state.old state.new) };

    /// How many forks the revision has made, which is the number of its next child.
    fn forks(&self, state: &Self::State) -> u32
        ensures { result ≡ (rules self.now).forks state.now };

    /// An equal state.
    fn copy(&self, alloc: Global, state: &Self::State) -> Result<Self::State, AllocError>
        ensures { IfOk result (λ c. c ≡ state.now) };

    /// Whether the revision at this path has ended.
    fn has_ended(&self, state: &Self::State, path: &Path) -> bool
        ensures { IsTrue result ↔ ((rules self.now).next path.now state.now ≡ Ended) };

    /// Lets the revision at `at` join the one at `on`, which ended in this local state. The two are
    /// within the limit together.
    fn settle(
        &self,
        alloc: Global,
        state: &mut Self::State,
        at: &Path,
        on: &Path,
        end: &Self::State,
    ) -> Result<(), AllocError>
        requires joins { (rules self.now).next at.now state.old ≡ Joins on.now }
        requires over { (rules self.now).next on.now end.now ≡ Ended }
        requires room { AreRoomy (rules self.now) state.old end.now }
        ensures { OnOk result (state.new ≡ (rules self.now).join at.now state.old on.now end.now) };

    /// The rules keep the conditions of the laws.
    ghost keeps: { (s : Self) → Keeps (rules s) };
}
