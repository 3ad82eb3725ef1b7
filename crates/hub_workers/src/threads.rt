//! Threads that work at one hub.
ghost use Rattle.std.specs.Prelude.{◌≡◌, ◌<◌, length, All};
ghost use Rattle.hub_workers.specs.Threads.{IsWorkerOf, HasWorked};

use crate::bell::Bell;
use crate::gate::Gate;
use crate::legs::Legs;
use crate::worker::work;
use std::sync::Wait;
use std::thread::{Threads, for_each_mut};
use turn_hub::{HubSeat, TurnHub};

/// One thread's part in a run.
pub struct Worker<L: Legs> {
    pub seat: HubSeat<L>,
    pub hand: L::Hand,
    // Two cache lines that nobody reads or writes, so that no two workers write to one.
    pub apart: [u64; 16],
}

// One thread's work, in place.
fn work_as<L: Legs, G: Gate, W: Wait>(
    rt: &W,
    hub: &TurnHub<L>,
    bell: &Bell,
    gate: &G,
    worker: &mut Worker<L>,
)
    requires { IsWorkerOf L.begins L.hand_group hub.now worker.old.seat worker.old.hand }
    ensures { HasWorked L.begins L.hand_group hub.now worker.new.seat worker.new.hand }
{
    work(rt, hub, bell, gate, &mut worker.seat, &mut worker.hand);
}

/// Each works in a thread of its own. Where no thread can be made, the caller does that work, one
/// after another.
pub fn run_workers<L: Legs + Send + Sync, G: Gate + Sync, R: Threads + Wait + Sync>(
    rt: &R,
    hub: &TurnHub<L>,
    bell: &Bell,
    gate: &G,
    workers: &mut [Worker<L>],
)
where
    L::Runner: Send,
    L::AtJoin: Send,
    L::End: Send,
    L::Hand: Send,
    requires some { 0 < length workers.old }
    requires each { All (λ w. IsWorkerOf L.begins L.hand_group hub.now w.seat w.hand) workers.old }
    ensures many { length workers.new ≡ length workers.old }
    ensures each { All (λ w. HasWorked L.begins L.hand_group hub.now w.seat w.hand) workers.new }
{
    let count = workers.len();
    for_each_mut(
        rt,
        workers,
        count,
        &|_: usize, worker: &mut Worker<L>|
            requires { IsWorkerOf L.begins L.hand_group hub.now worker.now.seat worker.now.hand }
            ensures { HasWorked L.begins L.hand_group hub.entry.now
                worker.exit.now.seat worker.exit.now.hand }
        { work_as(rt, hub, bell, gate, worker) },
    );
}
