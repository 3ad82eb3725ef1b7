//! What a run by threads leaves.

ghost use Rattle.std.specs.Prelude.{◌≡◌};
ghost use Rattle.thread_runs.specs.Runs.{numbers_of, state_of, forkers_of, ends_of};

use hub_core::HubState;
use rev_num::Outcome;
use run_revision::AnyState;
use segment_store::Closed;
use turn_hub::HubSchedule;
use version_map::EndValue;

/// A run by threads that is over. It owns what it tells: the schedule is one that a hub kept, and a
/// store made what its close counted. `run_threads` alone makes one.
#[derive(Drop)]
pub struct Ran {
    pub(crate) outcome: Outcome,
    pub(crate) order: HubSchedule<AnyState>,
    pub(crate) ends: Vec<Option<Box<EndValue>>>,
    pub(crate) choices: Vec<Option<u32>>,
    pub(crate) copies: u64,
    pub(crate) live: u32,
    pub(crate) closed: Closed,
}

impl Ran {
    /// The outcome of the run, which is that of its schedule.
    pub fn outcome(&self) -> &Outcome
        ensures { result.now ≡ self.now.outcome }
    {
        &self.outcome
    }

    /// The numbers of the revisions in the order of their legs, as the threads made it.
    pub fn schedule(&self) -> &[u32]
        ensures { result.now ≡ numbers_of self.now }
    {
        self.order.numbers()
    }

    /// Twice where a revision was joined a second time, and else All.
    pub fn state(&self) -> HubState
        ensures { result ≡ state_of self.now }
    {
        self.order.state()
    }

    /// By number, the revision that forked it, and 0 for the first.
    pub fn forkers(&self) -> &[u32]
        ensures { result.now ≡ forkers_of self.now }
    {
        self.order.forkers()
    }

    /// By number, what each revision left that nobody joined. No clause tells of them in the state
    /// Twice.
    pub fn ends(&self) -> &[Option<Box<EndValue>>]
        ensures { result.now ≡ ends_of self.now }
    {
        self.ends.as_slice()
    }

    /// By location, the place of the kernel that was chosen for its merges in the plan that the run
    /// was given, and none where its merge block makes them. No clause tells that they were called.
    pub fn choices(&self) -> &[Option<u32>]
        ensures { result.now ≡ self.now.choices.items }
    {
        self.choices.as_slice()
    }

    /// How many forks gave the child words of its own, since they found each segment in use; up to
    /// 2^64 - 1.
    pub fn copies(&self) -> u64
        ensures { result ≡ self.now.copies }
    {
        self.copies
    }

    /// How many segments are in use behind the run.
    pub fn live(&self) -> u32
        ensures { result ≡ self.now.live }
    {
        self.live
    }

    /// What the close of the run's store counted.
    pub fn closed(&self) -> &Closed
        ensures { result.now ≡ self.now.closed }
    {
        &self.closed
    }
}
