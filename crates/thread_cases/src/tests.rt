//! Trees of revisions at one hub, by one thread and by two: joins, rounds, and want of memory.
ghost use Rattle.std.specs.Prelude.{◌≡◌, IfOk, MatchBool, length};

use crate::{Going, Node, Room, Tree, Way};
use hub_core::HubState;
use hub_workers::{Finished, NotBegun, OpenGate, run};
use std::alloc::{AllocError, Global};
use std::sync::Wait;
use std::test::Fail;
use std::thread::Threads;
use turn_hub::HubRun;

// A hand for each of so many threads, or for one.
fn hands(alloc: Global, two: bool, legs: u32) -> Result<Vec<Room>, AllocError>
    ensures { IfOk result (λ v. MatchBool two (length v.items ≡ 2) (length v.items ≡ 1)) }
{
    let mut hands = Vec::new(alloc);
    hands.push(Room { legs })?;
    if two {
        hands.push(Room { legs })?;
    }
    Ok(hands)
}

// A run of a tree by two threads, or by one.
fn run_tree<R: Threads + Wait + Sync>(
    rt: &R,
    alloc: Global,
    first: Going,
    two: bool,
    legs: u32,
) -> Option<HubRun<Tree>> {
    let hands = hands(alloc, two, legs).ok()?;
    match run::<Tree, OpenGate, R>(rt, alloc, first, hands, &OpenGate) {
        Ok(Finished { run, hands: _ }) => Some(run),
        Err(NotBegun { first: _, hands: _ }) => None,
    }
}

// How often a number stands in a list.
fn count(list: &[u32], number: u32) -> u32 {
    let mut found: u32 = 0;
    for &entry in list {
        if entry == number {
            found = found.saturating_add(1);
        }
    }
    found
}

// Whether there is an end of this number.
fn has_end(ends: &[Option<Node>], number: usize) -> bool {
    match ends.get(number) {
        Some(Some(_)) => true,
        _ => false,
    }
}

// How many leaves the first revision took in.
fn leaves(ends: &[Option<Node>]) -> u32 {
    match ends.get(0) {
        Some(Some(end)) => end.leaves,
        _ => 0,
    }
}

#[test]
fn two_threads_run_a_tree(rt: HostRuntime) -> Result<(), Fail> {
    let first = Going::root(Way::Adds, 9);
    let run = run_tree(&rt, rt.alloc(), first, true, 4_000_000_000).ok_or("memory")?;
    assert!(rt; run.state() == HubState::All);
    assert_eq!(rt; run.schedule().len(), 3067);
    assert_eq!(rt; run.ends().len(), 1023);
    assert_eq!(rt; run.forkers().len(), 1023);
    assert_eq!(rt; count(run.schedule(), 0), 5);
    assert_eq!(rt; count(run.forkers(), 0), 3);
    assert_eq!(rt; leaves(run.ends()), 512);
    Ok(())
}

// A hub that looked through all revisions at each call would not end in time.
#[test]
fn one_thread_runs_a_large_tree(rt: HostRuntime) -> Result<(), Fail> {
    let first = Going::root(Way::Adds, 12);
    let run = run_tree(&rt, rt.alloc(), first, false, 4_000_000_000).ok_or("memory")?;
    assert!(rt; run.state() == HubState::All);
    assert_eq!(rt; run.schedule().len(), 24571);
    assert_eq!(rt; leaves(run.ends()), 4096);
    Ok(())
}

#[test]
fn two_threads_join_again(rt: HostRuntime) -> Result<(), Fail> {
    let first = Going::root(Way::Again, 9);
    let run = run_tree(&rt, rt.alloc(), first, true, 4_000_000_000).ok_or("memory")?;
    assert!(rt; run.state() == HubState::Twice);
    assert!(rt; run.ends().len() == run.forkers().len());
    Ok(())
}

#[test]
fn two_threads_find_no_memory(rt: HostRuntime) -> Result<(), Fail> {
    let first = Going::root(Way::Adds, 12);
    let run = run_tree(&rt, rt.alloc(), first, true, 100).ok_or("memory")?;
    assert!(rt; run.state() == HubState::NoMemory);
    assert!(rt; run.schedule().len() < 24571);
    Ok(())
}

#[test]
fn joins_take_in(rt: HostRuntime) -> Result<(), Fail> {
    let first = Going::root(Way::Adds, 1);
    let run = run_tree(&rt, rt.alloc(), first, false, 99).ok_or("memory")?;
    assert!(rt; run.schedule() == [0, 0, 2, 1, 0, 0, 0].as_slice());
    assert!(rt; run.forkers() == [0, 0, 0].as_slice());
    assert!(rt; run.state() == HubState::All);
    Ok(())
}

#[test]
fn joins_again(rt: HostRuntime) -> Result<(), Fail> {
    let first = Going::root(Way::Again, 1);
    let run = run_tree(&rt, rt.alloc(), first, false, 99).ok_or("memory")?;
    assert!(rt; run.schedule() == [0, 0, 2, 1, 0, 0].as_slice());
    assert!(rt; run.state() == HubState::Twice);
    Ok(())
}

#[test]
fn joins_trap(rt: HostRuntime) -> Result<(), Fail> {
    let first = Going::root(Way::Traps, 1);
    let run = run_tree(&rt, rt.alloc(), first, false, 99).ok_or("memory")?;
    assert!(rt; run.schedule() == [0, 0, 2, 1, 0].as_slice());
    assert!(rt; has_end(run.ends(), 0) && !has_end(run.ends(), 1) && has_end(run.ends(), 2));
    Ok(())
}

#[test]
fn joins_drop_a_trap(rt: HostRuntime) -> Result<(), Fail> {
    let first = Going::root(Way::Tries, 1);
    let run = run_tree(&rt, rt.alloc(), first, false, 99).ok_or("memory")?;
    assert!(rt; run.schedule() == [0, 0, 2, 1, 0, 0, 0].as_slice());
    Ok(())
}

#[test]
fn a_run_finds_no_memory(rt: HostRuntime) -> Result<(), Fail> {
    let first = Going::root(Way::Adds, 1);
    let run = run_tree(&rt, rt.alloc(), first, false, 2).ok_or("memory")?;
    assert!(rt; run.schedule() == [0, 0].as_slice());
    assert!(rt; run.state() == HubState::NoMemory);
    Ok(())
}

// A thread that finds no other idle keeps each leaf but the first, and runs it at its join.
#[test]
fn rounds_join_each_leaf(rt: HostRuntime) -> Result<(), Fail> {
    let first = Going::root(Way::Rounds, 3);
    let run = run_tree(&rt, rt.alloc(), first, false, 99).ok_or("memory")?;
    assert!(rt; run.schedule() == [0, 1, 0, 0, 2, 0, 0, 3, 0, 0].as_slice());
    assert!(rt; run.state() == HubState::All);
    assert_eq!(rt; leaves(run.ends()), 3);
    Ok(())
}

// A leaf that is kept is handed back where its forker ends.
#[test]
fn the_last_leaf_is_handed_back(rt: HostRuntime) -> Result<(), Fail> {
    let first = Going::root(Way::Strays, 1);
    let run = run_tree(&rt, rt.alloc(), first, false, 99).ok_or("memory")?;
    assert!(rt; run.schedule() == [0, 1, 0, 0, 0, 2].as_slice());
    assert!(rt; has_end(run.ends(), 2));
    assert_eq!(rt; leaves(run.ends()), 1);
    Ok(())
}

// Leaf 2 is handed back where its forker forks again, and leaf 4 where that joins leaf 2.
#[test]
fn leaves_that_stray_are_handed_back(rt: HostRuntime) -> Result<(), Fail> {
    let first = Going::root(Way::Strays, 2);
    let run = run_tree(&rt, rt.alloc(), first, false, 99).ok_or("memory")?;
    assert!(rt; run.schedule() == [0, 1, 0, 0, 0, 3, 0, 0, 4, 2, 0, 0].as_slice());
    assert!(rt; run.state() == HubState::All);
    assert_eq!(rt; leaves(run.ends()), 3);
    Ok(())
}

#[test]
fn one_thread_runs_many_rounds(rt: HostRuntime) -> Result<(), Fail> {
    let first = Going::root(Way::Strays, 10_000);
    let run = run_tree(&rt, rt.alloc(), first, false, 4_000_000_000).ok_or("memory")?;
    assert_eq!(rt; run.schedule().len(), 60_000);
    assert_eq!(rt; leaves(run.ends()), 19_999);
    Ok(())
}

#[test]
fn two_threads_run_rounds(rt: HostRuntime) -> Result<(), Fail> {
    let first = Going::root(Way::Rounds, 20_000);
    let run = run_tree(&rt, rt.alloc(), first, true, 4_000_000_000).ok_or("memory")?;
    assert!(rt; run.state() == HubState::All);
    assert_eq!(rt; run.schedule().len(), 60_001);
    assert_eq!(rt; leaves(run.ends()), 20_000);
    Ok(())
}

#[test]
fn two_threads_hand_leaves_back(rt: HostRuntime) -> Result<(), Fail> {
    let first = Going::root(Way::Strays, 10_000);
    let run = run_tree(&rt, rt.alloc(), first, true, 4_000_000_000).ok_or("memory")?;
    assert!(rt; run.state() == HubState::All);
    assert_eq!(rt; run.ends().len(), 20_001);
    assert_eq!(rt; run.schedule().len(), 60_000);
    assert_eq!(rt; leaves(run.ends()), 19_999);
    Ok(())
}

// Two revisions make rounds at once, so both threads keep leaves. One hands each second leaf back.
#[test]
fn two_threads_keep_leaves(rt: HostRuntime) -> Result<(), Fail> {
    let first = Going::root(Way::Pairs, 5000);
    let run = run_tree(&rt, rt.alloc(), first, true, 4_000_000_000).ok_or("memory")?;
    assert!(rt; run.state() == HubState::All);
    assert_eq!(rt; run.ends().len(), 15_003);
    assert_eq!(rt; run.schedule().len(), 45_006);
    assert_eq!(rt; count(run.schedule(), 0), 5);
    assert_eq!(rt; leaves(run.ends()), 14_999);
    Ok(())
}

#[test]
fn one_thread_keeps_leaves_of_two(rt: HostRuntime) -> Result<(), Fail> {
    let first = Going::root(Way::Pairs, 5);
    let run = run_tree(&rt, rt.alloc(), first, false, 4_000_000_000).ok_or("memory")?;
    assert!(rt; run.state() == HubState::All);
    assert_eq!(rt; run.schedule().len(), 51);
    assert_eq!(rt; leaves(run.ends()), 14);
    Ok(())
}

// A second join is found while another thread keeps leaves.
#[test]
fn two_threads_join_again_beside_rounds(rt: HostRuntime) -> Result<(), Fail> {
    let first = Going::root(Way::Beside, 20_000);
    let run = run_tree(&rt, rt.alloc(), first, true, 4_000_000_000).ok_or("memory")?;
    assert!(rt; run.state() == HubState::Twice);
    assert!(rt; count(run.schedule(), 0) == 4);
    assert!(rt; run.ends().len() == run.forkers().len());
    Ok(())
}

#[test]
fn two_threads_find_no_memory_in_rounds(rt: HostRuntime) -> Result<(), Fail> {
    let first = Going::root(Way::Pairs, 5000);
    let run = run_tree(&rt, rt.alloc(), first, true, 3000).ok_or("memory")?;
    assert!(rt; run.state() == HubState::NoMemory);
    assert!(rt; run.schedule().len() < 45_006);
    Ok(())
}
