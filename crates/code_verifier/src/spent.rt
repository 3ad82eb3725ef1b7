//! What the instructions of a block cost so far.

ghost use Rattle.std.specs.Prelude.{◌≡◌, ◌+◌, ◌*◌, ◌<◌, ◌^◌, length};
ghost use Rattle.code_rules.specs.Pass as pass;
ghost use Rattle.code_verifier.specs.Spending.{spend, is_over};

use code_rules::{Cost, is_value_class};
use rev_code::{CodeBlock, Instr};

/// The greatest number of words on the stack, the greatest need of a fun that was applied, and the
/// number of instructions with those of funs that were applied.
#[derive(Clone, Copy)]
pub(crate) struct Spent {
    pub(crate) depth: u64,
    pub(crate) need: u64,
    pub(crate) count: u64,
}

/// What the fun costs that an instruction applies.
pub(crate) fn applied(costs: &[Cost], x: Instr) -> Cost
    ensures { result ≡ pass.applied costs.now x }
{
    match x {
        Instr::Apply(f) => cost_at(costs, f as usize),
        _ => Cost { need: 0, count: 0 },
    }
}

fn cost_at(costs: &[Cost], n: usize) -> Cost
    ensures { result ≡ pass.cost_at costs.now n }
{
    match costs.get(n) {
        None => Cost { need: 0, count: 0 },
        Some(cost) => *cost,
    }
}

/// With one instruction more, which leaves so many words and applies a fun of that cost.
pub(crate) fn with_one(spent: Spent, depth: usize, cost: Cost) -> Spent
    requires { spent.count + cost.count < 2 ^ 63 }
    ensures { result ≡ spend spent depth cost }
{
    Spent {
        depth: (depth as u64).max(spent.depth),
        need: cost.need.max(spent.need),
        count: 1 + cost.count + spent.count,
    }
}

/// Whether a limit is passed by a block that has spent this, with so many words on the stack.
pub(crate) fn is_over_limit(block: &CodeBlock, spent: Spent, depth: usize) -> bool
    requires locals { length block.now.locals < 2 ^ 32 }
    requires depth { spent.depth < 2 ^ 63 }
    requires need { spent.need < 2 ^ 32 }
    ensures { result ≡ is_over block.now spent depth }
{
    if is_value_class(block.class) {
        block.locals.as_slice().len() as u64 + spent.depth + spent.need > 65536
            || spent.count > 262144
    } else {
        depth > 4096
    }
}
