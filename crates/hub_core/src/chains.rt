//! Lists of numbers through links. No call goes along a list.
ghost use Rattle.std.specs.Prelude.{◌≡◌, ◌<◌, ◌≤◌, ◌+◌, ℕ, List, ◌∷◌, ◌++◌, length, Option};
ghost use Rattle.hub_core.specs.declared.run_queue.Chain.{Chain};
ghost use Rattle.hub_core.specs.Counts.{times};
ghost use Rattle.hub_core.specs.Chains.{IsChain, IsList, IsKept};

use crate::run_queue::Chain;

/// The number, and then the list.
pub fn before(links: &mut Vec<u32>, number: u32, list: Option<Chain>) -> Chain
    requires { number < length links.old.items }
    ensures chain { (ns : List ℕ) → IsList links.old.items list ns → times number ns ≡ 0
        → IsChain links.new.items result (number ∷ ns) }
    ensures others { IsKept links.old.items links.new.items number }
    ensures many { length links.new.items ≡ length links.old.items }
    ensures first { result.first ≡ number }
{
    match list {
        None => Chain {
            first: number,
            last: number,
        },
        Some(chain) => {
            links[number as usize] = chain.first;
            Chain {
                first: number,
                last: chain.last,
            }
        },
    }
}

/// The list after its first.
pub fn after_first(links: &[u32], chain: Chain) -> Option<Chain>
    requires { chain.first < length links.now }
    ensures rest { (ns : List ℕ) → IsChain links.now chain ns → ((n : ℕ) → times n ns ≤ 1)
        → (rest : List ℕ) × (ns ≡ chain.first ∷ rest) × IsList links.now result rest }
{
    if chain.first == chain.last {
        return None;
    }
    Some(Chain {
        first: links[chain.first as usize],
        last: chain.last,
    })
}

/// The one list and then the other.
pub fn joined(links: &mut Vec<u32>, chain: Chain, list: Option<Chain>) -> Chain
    requires { chain.last < length links.old.items }
    ensures chain { (ms ns : List ℕ) → IsChain links.old.items chain ms
        → IsList links.old.items list ns → ((n : ℕ) → times n ms + times n ns ≤ 1)
        → IsChain links.new.items result (ms ++ ns) }
    ensures others { IsKept links.old.items links.new.items chain.last }
    ensures many { length links.new.items ≡ length links.old.items }
{
    match list {
        None => chain,
        Some(next) => {
            links[chain.last as usize] = next.first;
            Chain {
                first: chain.first,
                last: next.last,
            }
        },
    }
}
