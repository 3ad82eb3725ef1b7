//! The hands of threads that run code over a store.
ghost use Rattle.std.specs.Prelude.{◌≡◌, ◌+◌, ◌≤◌, [], length, map, All, IfOk, vec_capacity};
ghost use Rattle.block_run.specs.Area.{count};
ghost use Rattle.segment_store.specs.Names.{IsOf, IsSameHold, IsSeatOf, gathered};
ghost use Rattle.merge_kernels.specs.Terms.{definition};
ghost use Rattle.rev_workers.specs.Hands.{IsHandFor, IsHandAt, AreMergesFor, kept_by};
ghost use Rattle.rev_workers.specs.Plans.{IsPlanFor, planned};

use crate::keeper::StoreKeeper;
use crate::merges::KernelMerges;
use fun_run::BlockMerges;
use hub_core::append;
use hub_workers::take_last;
use leg_run::CodeSetting;
use merge_kernels::KernelPlan;
use run_revision::{CodeHand, CodeRevisions};
use segment_store::{Held, Hold, Spent, Store};
use std::alloc::{AllocError, Global};
use version_map::MergeBy;

/// The machine of verified code over the holds of a store, with these merges.
pub type StoreRevisions<'a, 's, M> = CodeRevisions<'a, Held<'s>, M, StoreKeeper<'s>>;

/// What a thread works with that runs code over a store.
pub type StoreHand<'a, 's, M> = CodeHand<'a, Held<'s>, M, StoreKeeper<'s>>;

// The merges of the code, by the kernels of the plan where it has a choice.
fn merges_by<'a, 'k>(
    alloc: Global,
    setting: &'a CodeSetting,
    plan: &'k KernelPlan<'k>,
) -> Result<KernelMerges<'k, BlockMerges<'a>>, AllocError>
    requires { IsPlanFor setting.now.code plan.now.choices.items
        (map (λ k. definition k.def) plan.now.kernels.now) }
    ensures { IfOk result (AreMergesFor (λ m. count m.inner.code.now.vars)
        (λ m. planned m.inner.code.now m.plan.now.choices.items
        (map (λ k. definition k.def) m.plan.now.kernels.now)) setting.entry.now) }
{
    let inner = BlockMerges::of(alloc, setting.code())?;
    Ok(KernelMerges::new(plan, inner))
}

// The same for each of so many threads.
pub(crate) fn merges_for<'a, 'k>(
    alloc: Global,
    setting: &'a CodeSetting,
    plan: &'k KernelPlan<'k>,
    workers: u32,
) -> Result<Vec<KernelMerges<'k, BlockMerges<'a>>>, AllocError>
    requires { IsPlanFor setting.now.code plan.now.choices.items
        (map (λ k. definition k.def) plan.now.kernels.now) }
    ensures each { IfOk result (λ ms. All (AreMergesFor (λ m. count m.inner.code.now.vars)
        (λ m. planned m.inner.code.now m.plan.now.choices.items
        (map (λ k. definition k.def) m.plan.now.kernels.now)) setting.entry.now) ms.items) }
    ensures many { IfOk result (λ ms. length ms.items ≡ workers) }
{
    let mut list = Vec::new(alloc);
    for _ in 0..workers {
        list.push(merges_by(alloc, setting, plan)?)?;
    }
    Ok(list)
}

// One hand for each of these merges, with a keeper of the store.
fn give_hands<'a, 's, M: MergeBy + Drop>(
    alloc: Global,
    setting: &'a CodeSetting,
    fuel: u64,
    store: &'s Store,
    hold: &mut Hold,
    merges: Vec<M>,
    hands: &mut Vec<StoreHand<'a, 's, M>>,
)
    requires own { IsOf store.now hold.old }
    requires merges { All (AreMergesFor M.size M.merges setting.now) merges.items }
    requires room { (hands.old.items ≡ []) × (length merges.items ≤ vec_capacity hands.old) }
    ensures own { IsOf store.entry.now hold.new × IsSameHold hold.old hold.new }
    ensures each { All (IsHandFor setting.entry.now fuel store.entry.now) hands.new.items }
    ensures many { length hands.new.items ≡ length merges.items }
{
    let mut rest = merges;
    let count = rest.len();
    for _ in 0..count {
        let merges = take_last(&mut rest);
        let keeper = StoreKeeper::new(store, hold);
        append(hands, CodeHand::new(alloc, setting, fuel, merges, keeper));
    }
}

/// A hand for each of these merges. Want of memory is the one error.
pub(crate) fn hands_for<'a, 's, M: MergeBy + Drop>(
    alloc: Global,
    setting: &'a CodeSetting,
    fuel: u64,
    store: &'s Store,
    hold: &mut Hold,
    merges: Vec<M>,
) -> Result<Vec<StoreHand<'a, 's, M>>, AllocError>
    requires own { IsOf store.now hold.old }
    requires merges { All (AreMergesFor M.size M.merges setting.now) merges.items }
    ensures own { IsOf store.entry.now hold.new × IsSameHold hold.old hold.new }
    ensures each { IfOk result (λ hs. All (IsHandFor setting.entry.now fuel store.entry.now)
        hs.items) }
    ensures many { IfOk result (λ hs. length hs.items ≡ length merges.items) }
{
    let mut hands = Vec::with_capacity(alloc, merges.len())?;
    give_hands(alloc, setting, fuel, store, hold, merges, &mut hands);
    Ok(hands)
}

/// Gathers all that these hands kept, and adds up how many children were copied, up to 2^64 - 1.
pub(crate) fn give_back<'a, 's, M: MergeBy + Drop>(
    store: &'s Store,
    hands: Vec<StoreHand<'a, 's, M>>,
    all: &mut Spent,
) -> u64
    requires own { IsSeatOf store.now all.old.seat }
    requires hands { All (IsHandAt store.now) hands.items }
    ensures own { IsSeatOf store.entry.now all.new.seat }
    ensures all { gathered all.new ≡ gathered all.old + kept_by hands.entry.items }
{
    let mut rest = hands;
    let mut copies: u64 = 0;
    let count = rest.len();
    for _ in 0..count {
        let (_, keeper) = take_last(&mut rest).into_parts();
        let (spent, more) = keeper.into_parts();
        store.gather(all, spent);
        copies = copies.saturating_add(more);
    }
    rest.destroy_empty();
    copies
}
