//! Revisions of verified code as a machine of revisions.
ghost use Rattle.std.specs.Prelude.{◌≡◌};
ghost use Rattle.run_revision.specs.CodeValues.{code_hub, is_end};
ghost use Rattle.run_revision.specs.Values.{made_by_join};

use crate::hand::Keeper;
use crate::joiner::{CodeJoiner, Ended, JoinedBy};
use crate::left::CodeEnd;
use crate::runner::CodeRunner;
use crate::state::AnyState;
use hub_core::Revision;
use leg_run::CodeSetting;
use std::marker::PhantomData;
use version_map::{MergeBy, Snapshot};

/// The machine of verified code, over these snapshots, for threads with these merges and keepers.
pub struct CodeRevisions<'a, P: Snapshot, M: MergeBy, K: Keeper<P>> {
    of: PhantomData<(&'a CodeSetting, P, M, K)>,
}

impl<'a, P: Snapshot, M: MergeBy, K: Keeper<P>> Revision for CodeRevisions<'a, P, M, K> {
    type State = AnyState;

    type Runner = CodeRunner<'a, P>;

    type AtJoin = CodeJoiner<'a, P>;

    type End = CodeEnd<'a>;

    type Claimed = JoinedBy<'a, P>;

    type Stopped = Ended<'a, P>;

    ghost machine = { code_hub };

    ghost ends = { is_end };

    ghost claimed = { λ c at end. (c.at ≡ at) × (c.end ≡ end) };

    ghost stopped = { λ s at end. (s.at ≡ at) × (s.end ≡ end) };

    ghost by_join = { λ e. made_by_join e.left.phase };

    ghost claimed_group = { λ c. c.at.group };

    ghost stopped_group = { λ s. s.at.group };

    fn on(at: &CodeJoiner<'a, P>) -> u32 {
        at.on()
    }

    fn claim(at: CodeJoiner<'a, P>, end: CodeEnd<'a>) -> JoinedBy<'a, P> {
        JoinedBy { at, end }
    }

    fn trapped(at: CodeJoiner<'a, P>, end: CodeEnd<'a>) -> Ended<'a, P> {
        Ended { at, end }
    }

    fn is_trapped(end: &CodeEnd<'a>) -> bool {
        end.is_trapped()
    }

    fn is_try(at: &CodeJoiner<'a, P>) -> bool {
        at.is_try()
    }

    fn is_by_join(end: &CodeEnd<'a>) -> bool {
        end.is_by_join()
    }
}
