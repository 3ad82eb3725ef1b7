//! What a thread works with.
ghost use Rattle.std.specs.Prelude.{◌≡◌, ◌+◌, ℕ, List};
ghost use Rattle.fun_run.specs.Merging.{AreMergesOf};
ghost use Rattle.block_run.specs.Area.{count};
ghost use Rattle.rev_vm.specs.Starts.{run_under};

use leg_run::CodeSetting;
use rev_vm::Spares;
use std::alloc::Global;
use std::marker::{Model, PhantomData};
use version_map::{How, MergeBy, Snapshot};

/// Where a thread puts what is left of the snapshots that it gives back. It is told how each child
/// has its words.
pub trait Keeper<P: Snapshot> {
    /// What they belong to.
    ghost group: { Self → List ℕ };

    /// Of how many snapshots something is left.
    ghost left_of: { P.Spent → ℕ };

    /// Of how many snapshots it has what is left.
    ghost kept: { Self → ℕ };

    fn keep(&mut self, spent: P::Spent)
        requires { P.spent_group spent ≡ group self.old }
        ensures group { group self.new ≡ group self.old }
        ensures kept { kept self.new ≡ kept self.old + left_of spent };

    fn note(&mut self, how: How)
        ensures group { group self.new ≡ group self.old }
        ensures kept { kept self.new ≡ kept self.old };
}

/// What a thread needs to run revisions of this setting, of a run whose `main` has this fuel: the
/// merges of all locations, a keeper, and spare tables of locations. Contracts see what runs, the
/// fuel, and of the keeper its group and how much it has.
pub struct CodeHand<'a, P: Snapshot, M: MergeBy, K: Keeper<P>> {
    pub(crate) alloc: Global,
    pub(crate) setting: &'a CodeSetting,
    pub(crate) fuel: u64,
    pub(crate) merges: M,
    pub(crate) keeper: K,
    pub(crate) spares: Spares,
    pub(crate) of: PhantomData<P>,
}

impl<'a, P: Snapshot, M: MergeBy, K: Keeper<P>> Model for CodeHand<'a, P, M, K> {
    ghost use Rattle.std.specs.Prelude.{◌≡◌};
    ghost use Rattle.fun_run.specs.Merging.{AreMergesOf};
    ghost use Rattle.block_run.specs.Area.{count};
    ghost use Rattle.rev_vm.specs.Starts.{run_under};
    ghost use Rattle.run_revision.specs.Hands.{HandValue};

    ghost Value = { HandValue };

    ghost view = { λ h. record {
      run = run_under h.setting.now;
      fuel = h.fuel;
      group = K.group h.keeper;
      kept = K.kept h.keeper;
    } };

    ghost invariant = { λ h. (M.size h.merges ≡ count h.setting.now.code.vars)
        × AreMergesOf (run_under h.setting.now) (M.merges h.merges) };
}

impl<'a, P: Snapshot, M: MergeBy, K: Keeper<P>> CodeHand<'a, P, M, K> {
    /// A hand for the runs of this setting whose `main` has this fuel.
    pub fn new(
        alloc: Global,
        setting: &'a CodeSetting,
        fuel: u64,
        merges: M,
        keeper: K,
    ) -> CodeHand<'a, P, M, K>
        requires size { M.size merges ≡ count setting.now.code.vars }
        requires merges { AreMergesOf (run_under setting.now) (M.merges merges) }
        ensures run { result.run ≡ run_under setting.entry.now }
        ensures fuel { result.fuel ≡ fuel }
        ensures group { result.group ≡ K.group keeper }
        ensures kept { result.kept ≡ K.kept keeper }
    {
        CodeHand {
            alloc,
            setting,
            fuel,
            merges,
            keeper,
            spares: Spares::new(alloc),
            of: PhantomData,
        }
    }

    /// The merges and the keeper again.
    pub fn into_parts(self) -> (M, K)
        ensures group { K.group result.1 ≡ self.entry.group }
        ensures kept { K.kept result.1 ≡ self.entry.kept }
    {
        let CodeHand {
            alloc: _,
            setting: _,
            fuel: _,
            merges,
            keeper,
            spares: _,
            of: _,
        } = self;
        (merges, keeper)
    }
}
