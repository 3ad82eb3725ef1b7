//! Numbers that are ready, and numbers that wait for others.

ghost use Rattle.std.specs.Prelude.{◌≡◌, ◌≢◌, ◌≤◌, ◌<◌, ◌+◌, ◌⊎◌, ◌^◌, ℕ, IfSome, IfNone, OnOk};
ghost use Rattle.std.specs.Prelude.{length, true, [], ◌∷◌};
ghost use Rattle.std.specs.List.Sorted.{IsPermutation};
ghost use Rattle.world_runs.specs.Heap.{Has, has};
ghost use Rattle.world_runs.specs.Queue.{HasReady, HasWaiter, KeepsAll, entered, ready};

use crate::heap::LeastHeap;
use std::alloc::{AllocError, Global};
use std::mem;

/// The numbers that wait for one.
#[derive(Drop)]
pub struct Waiters {
    pub numbers: Vec<u32>,
}

/// Numbers from 0 on. Some are ready, and some wait for one of them.
#[derive(Drop)]
pub struct ReadyQueue {
    ready: LeastHeap,
    waiters: Vec<Waiters>,
}

impl ReadyQueue {
    /// No numbers.
    pub fn new(alloc: Global) -> ReadyQueue
        ensures count { length result.waiters.items ≡ 0 }
        ensures empty { ready result ≡ [] }
    {
        ReadyQueue {
            ready: LeastHeap::new(alloc),
            waiters: Vec::new(alloc),
        }
    }

    /// One number more. What was ready is, and what waited does.
    pub fn grow(&mut self, alloc: Global) -> Result<(), AllocError>
        ensures count { OnOk result
            (length self.new.waiters.items ≡ length self.old.waiters.items + 1) }
        ensures kept { OnOk result (KeepsAll self.old self.new) }
        ensures ready { self.new.ready ≡ self.old.ready }
    {
        self.waiters.push(Waiters {
            numbers: Vec::new(alloc),
        })?;
        Ok(())
    }

    /// This number is ready.
    pub fn enter(&mut self, number: u32) -> Result<(), AllocError>
        ensures here { OnOk result (HasReady self.new number) }
        ensures kept { OnOk result (KeepsAll self.old self.new) }
        ensures exact { OnOk result (IsPermutation (number ∷ ready self.old) (ready self.new)) }
        ensures count { self.new.waiters ≡ self.old.waiters }
    {
        self.ready.add(number)?;
        Ok(())
    }

    /// The least number that is ready, which is taken out once. The others stay, each as often as
    /// before.
    pub fn take(&mut self) -> Option<u32>
        ensures least { IfSome result
            (λ x. (n : ℕ) → n < 2 ^ 32 → HasReady self.old n → x ≤ n) }
        ensures kept { IfSome result
            (λ x. (n : ℕ) → n < 2 ^ 32 → HasReady self.old n → (n ≡ x) ⊎ HasReady self.new n) }
        ensures none { IfNone result ((n : ℕ) → HasReady self.old n → ⊥) }
        ensures waiters { self.new.waiters ≡ self.old.waiters }
        ensures exact { IfSome result
            (λ x. IsPermutation (ready self.old) (x ∷ ready self.new)) }
        ensures empty { IfNone result ((ready self.old ≡ []) × (ready self.new ≡ [])) }
        ensures fewer { IfSome result (λ x. entered self.new + 1 ≡ entered self.old) }
    {
        self.ready.take()
    }

    /// One number waits for another.
    pub fn wait(&mut self, number: u32, on: u32) -> Result<(), AllocError>
        requires { on < length self.old.waiters.items }
        ensures here { OnOk result (HasWaiter self.new on number) }
        ensures kept { OnOk result (KeepsAll self.old self.new) }
        ensures count { length self.new.waiters.items ≡ length self.old.waiters.items }
        ensures ready { self.new.ready ≡ self.old.ready }
    {
        self.waiters[on as usize].numbers.push(number)?;
        Ok(())
    }

    /// All that wait for this number are ready.
    pub fn wake(&mut self, alloc: Global, on: u32) -> Result<(), AllocError>
        requires { on < length self.old.waiters.items }
        ensures woken { OnOk result ((n : ℕ) → HasWaiter self.old on n → HasReady self.new n) }
        ensures ready { OnOk result ((n : ℕ) → HasReady self.old n → HasReady self.new n) }
        ensures others { OnOk result ((k n : ℕ) → k ≢ on → HasWaiter self.old k n
            → HasWaiter self.new k n) }
        ensures count { OnOk result
            (length self.new.waiters.items ≡ length self.old.waiters.items) }
    {
        let none = Waiters {
            numbers: Vec::new(alloc),
        };
        let woken = mem::replace(&mut self.waiters[on as usize], none);
        add_all(&mut self.ready, woken.numbers.as_slice())?;
        Ok(())
    }
}

/// Enters these numbers.
fn add_all(ready: &mut LeastHeap, numbers: &[u32]) -> Result<(), AllocError>
    ensures here { OnOk result ((n : ℕ) → has numbers.now n ≡ true → Has ready.new n) }
    ensures kept { OnOk result ((n : ℕ) → Has ready.old n → Has ready.new n) }
{
    for at in 0..numbers.len() {
        ready.add(numbers[at])?;
    }
    Ok(())
}
