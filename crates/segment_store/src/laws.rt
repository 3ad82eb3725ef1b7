//! What the rule says of the pure core, and of chains.
ghost use Rattle.std.specs.Prelude.{◌≡◌, ℕ};
ghost use Rattle.segment_store.specs.Group.{store_group, IsOneTable};
ghost use Rattle.segment_store.specs.declared.store.Store.{Store};
ghost use Rattle.segment_store.specs.Depth.{IsDepthBound, LiveIsHeld};
ghost use Rattle.segment_store.specs.Rule.{Reaches, BasesTie};

/// Between any two atomic steps the words and views show a core that the steps of the core lead to
/// from the empty one, and the base of each seat's chain whose words are known (`Sound`) is that of
/// the core.
pub fn core_laws()
    ensures shown { (words stride masks : ℕ) → Reaches words stride masks }
    ensures bases { (words stride masks : ℕ) → BasesTie words stride masks }
{}

/// No chain is longer than the segments are many.
pub fn depth_bound()
    ensures { IsDepthBound }
{}

/// Each segment that has a count and is not being built is in the chain of some seat.
pub fn held_law()
    ensures { LiveIsHeld }
{}

/// The group of a store names its table: stores of the same group have one table.
pub fn group_law()
    ensures { (s t : Store) → store_group s ≡ store_group t → IsOneTable s t }
{}
