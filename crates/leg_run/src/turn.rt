//! Instructions that leave a block.

use crate::revision::LegEnd;

/// What an instruction that leaves its block comes to.
#[derive(Clone, Copy)]
pub enum BlockExit {
    Goes,
    Ends(LegEnd),
}
