//! A run by threads, from its first revision to its end.
ghost use Rattle.std.specs.Prelude.{◌≡◌, ◌<◌, ◌≤◌, ◌^◌, [], length, All, IfOk, IfErr, vec_capacity};
ghost use Rattle.turn_hub.specs.Closing.{AreKeptOf};
ghost use Rattle.turn_hub.specs.Names.{IsSeatOf, began, view_of};
ghost use Rattle.hub_workers.specs.Threads.{IsWorkerOf, HasWorked};
ghost use Rattle.hub_workers.specs.Running.{IsSeatFor, IsHandFor, IsRunFrom};

use crate::bell::Bell;
use crate::gate::Gate;
use crate::legs::Legs;
use crate::threads::{Worker, run_workers};
use crate::vectors::take_last;
use hub_core::{Kept, append};
use std::alloc::Global;
use std::sync::Wait;
use std::thread::Threads;
use turn_hub::{HubEnd, HubRun, HubSeat, TurnHub};

/// A run that is over, and the hands that worked at it. What a halt left is given up.
pub struct Finished<L: Legs> {
    pub run: HubRun<L>,
    pub hands: Vec<L::Hand>,
}

/// What a run was to begin with that was not begun for want of memory.
pub struct NotBegun<L: Legs> {
    pub first: L::Runner,
    pub hands: Vec<L::Hand>,
}

// A seat for each hand.
fn pair_up<L: Legs>(
    hub: &TurnHub<L>,
    seats: &mut Vec<HubSeat<L>>,
    hands: &mut Vec<L::Hand>,
    workers: &mut Vec<Worker<L>>,
)
    requires seats { All (λ s. IsSeatFor hub.now s) seats.old.items }
    requires hands { All (λ h. IsHandFor L.begins L.hand_group hub.now h) hands.old.items }
    requires many { length seats.old.items ≡ length hands.old.items }
    requires room { (workers.old.items ≡ [])
        × (length hands.old.items ≤ vec_capacity workers.old) }
    ensures seats { (seats.new.items ≡ []) × (vec_capacity seats.new ≡ vec_capacity seats.old) }
    ensures hands { (hands.new.items ≡ []) × (vec_capacity hands.new ≡ vec_capacity hands.old) }
    ensures workers { All (λ w. IsWorkerOf L.begins L.hand_group hub.now w.seat w.hand)
        workers.new.items }
    ensures many { length workers.new.items ≡ length hands.old.items }
{
    let count = hands.len();
    for _ in 0..count {
        let seat = take_last(seats);
        let hand = take_last(hands);
        let worker = Worker {
            seat,
            hand,
            apart: [0; 16],
        };
        append(workers, worker);
    }
}

// The seats and the hands again.
fn part<L: Legs>(
    hub: &TurnHub<L>,
    workers: Vec<Worker<L>>,
    seats: &mut Vec<HubSeat<L>>,
    hands: &mut Vec<L::Hand>,
)
    requires workers { All (λ w. HasWorked L.begins L.hand_group hub.now w.seat w.hand)
        workers.items }
    requires empty { (seats.old.items ≡ []) × (hands.old.items ≡ []) }
    requires room { (length workers.items ≤ vec_capacity seats.old)
        × (length workers.items ≤ vec_capacity hands.old) }
    ensures seats { All (λ s. IsSeatOf hub.now s × ((view_of s).saw ≡ 1)) seats.new.items }
    ensures hands { All (λ h. L.hand_group h ≡ (began hub.now).group) hands.new.items }
    ensures many { (length seats.new.items ≡ length workers.items)
        × (length hands.new.items ≡ length workers.items) }
    ensures room { vec_capacity hands.old ≤ vec_capacity hands.new }
{
    let mut rest = workers;
    let count = rest.len();
    for _ in 0..count {
        let Worker {
            seat,
            hand,
            apart: _,
        } = take_last(&mut rest);
        append(seats, seat);
        append(hands, hand);
    }
    rest.destroy_empty();
}

// Gives back the snapshots of what a halt left.
fn give_up<L: Legs>(hand: &mut L::Hand, kept: Vec<Kept<L::Runner, L::AtJoin>>)
    requires { AreKeptOf L.machine L.ends (L.hand_group hand.old) kept.items }
    ensures { L.hand_group hand.new ≡ L.hand_group hand.old }
{
    let mut rest = kept.into_iter();
    while let Some(one) = rest.next() {
        match one {
            Kept::Run(runner) => L::give_up_runner(hand, runner),
            Kept::Join(at) => L::give_up_joiner(hand, at),
        }
    }
    rest.destroy_empty();
}

// The run of a hub that is open, to its close.
fn run_open<L: Legs + Send + Sync, G: Gate + Sync, R: Threads + Wait + Sync>(
    rt: &R,
    hub: TurnHub<L>,
    seats: Vec<HubSeat<L>>,
    hands: Vec<L::Hand>,
    workers: Vec<Worker<L>>,
    gate: &G,
) -> Finished<L>
where
    L::Runner: Send,
    L::AtJoin: Send,
    L::End: Send,
    L::Hand: Send,
    requires some { 0 < length hands.items }
    requires seats { All (λ s. IsSeatFor hub s) seats.items }
    requires hands { All (λ h. IsHandFor L.begins L.hand_group hub h) hands.items }
    requires many { (length seats.items ≡ length hands.items)
        × ((began hub).parts ≡ length hands.items) }
    requires room { (workers.items ≡ []) × (length hands.items ≤ vec_capacity workers) }
    ensures run { (start : L.State) → (began hub).start ≡ Some start
        → IsRunFrom L.machine L.ends start (began hub).group result.run }
    ensures hands { All (λ h. L.hand_group h ≡ (began hub).group) result.hands.items }
    ensures many { length result.hands.items ≡ length hands.items }
{
    let mut seats = seats;
    let mut hands = hands;
    let mut workers = workers;
    let bell = Bell::new(hands.len());
    pair_up(&hub, &mut seats, &mut hands, &mut workers);
    run_workers(rt, &hub, &bell, gate, workers.as_mut_slice());
    part(&hub, workers, &mut seats, &mut hands);
    let HubEnd { run, kept } = hub.close(seats);
    let mut hand = take_last(&mut hands);
    give_up::<L>(&mut hand, kept);
    append(&mut hands, hand);
    Finished { run, hands }
}

/// A run from its first revision by one thread for each hand, of which there is one at least and
/// fewer than 2^32. Where a thread can't be made, the caller does its work; all threads have ended
/// when it returns. The error is want of memory.
pub fn run<L: Legs + Send + Sync, G: Gate + Sync, R: Threads + Wait + Sync>(
    rt: &R,
    alloc: Global,
    first: L::Runner,
    hands: Vec<L::Hand>,
    gate: &G,
) -> Result<Finished<L>, NotBegun<L>>
where
    L::Runner: Send,
    L::AtJoin: Send,
    L::End: Send,
    L::Hand: Send,
    requires some { (0 < length hands.items) × (length hands.items < 2 ^ 32) }
    requires begins { All (λ h. L.begins h (L.machine.runs first)) hands.items }
    requires group { All (λ h. L.hand_group h ≡ L.machine.runner_group first) hands.items }
    ensures run { IfOk result (λ f. IsRunFrom L.machine L.ends (L.machine.runs first)
        (L.machine.runner_group first) f.run) }
    ensures hands { IfOk result
        (λ f. All (λ h. L.hand_group h ≡ L.machine.runner_group first) f.hands.items) }
    ensures many { IfOk result (λ f. length f.hands.items ≡ length hands.items) }
    ensures err { IfErr result (λ n. (n.first ≡ first) × (n.hands ≡ hands)) }
{
    let Ok(workers) = Vec::with_capacity(alloc, hands.len()) else {
        return Err(NotBegun { first, hands });
    };
    match TurnHub::open(alloc, first, hands.len() as u32) {
        Ok((hub, seats)) => Ok(run_open(rt, hub, seats, hands, workers, gate)),
        Err(first) => {
            workers.destroy_empty();
            Err(NotBegun { first, hands })
        },
    }
}
