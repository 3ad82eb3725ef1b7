//! A heap of numbers, from which the least comes first.

ghost use Rattle.std.specs.Prelude.{◌≡◌, ◌≤◌, ◌<◌, ◌+◌, ◌⊎◌, ◌^◌, ℕ, IfSome, IfNone, OnOk};
ghost use Rattle.std.specs.Prelude.{[], ◌∷◌};
ghost use Rattle.std.specs.List.Sorted.{IsPermutation};
ghost use Rattle.std.specs.BinaryHeap.{heap_len};
ghost use Rattle.world_runs.specs.Heap.{Has, listed};

use crate::heap::LeastHeap;
use std::alloc::{AllocError, Global};
use std::collections::BinaryHeap;

impl LeastHeap {
    /// A heap of none.
    pub fn new(alloc: Global) -> LeastHeap
        ensures none { (n : ℕ) → Has result n → ⊥ }
        ensures empty { listed result ≡ [] }
    {
        LeastHeap {
            above: BinaryHeap::new(alloc),
        }
    }

    /// One number more.
    pub fn add(&mut self, number: u32) -> Result<(), AllocError>
        ensures here { OnOk result (Has self.new number) }
        ensures kept { OnOk result ((n : ℕ) → Has self.old n → Has self.new n) }
        ensures exact { OnOk result (IsPermutation (number ∷ listed self.old) (listed self.new)) }
    {
        self.above.push(u32::MAX - number)?;
        Ok(())
    }

    /// The least number, which is taken out once. The others stay, each as often as before.
    pub fn take(&mut self) -> Option<u32>
        ensures least { IfSome result
            (λ x. (n : ℕ) → n < 2 ^ 32 → Has self.old n → x ≤ n) }
        ensures kept { IfSome result
            (λ x. (n : ℕ) → n < 2 ^ 32 → Has self.old n → (n ≡ x) ⊎ Has self.new n) }
        ensures none { IfNone result ((n : ℕ) → Has self.old n → ⊥) }
        ensures exact { IfSome result
            (λ x. IsPermutation (listed self.old) (x ∷ listed self.new)) }
        ensures empty { IfNone result ((listed self.old ≡ []) × (listed self.new ≡ [])) }
        ensures fewer { IfSome result
            (λ x. heap_len self.new.above + 1 ≡ heap_len self.old.above) }
    {
        match self.above.pop() {
            Some(above) => Some(u32::MAX - above),
            None => None,
        }
    }
}
