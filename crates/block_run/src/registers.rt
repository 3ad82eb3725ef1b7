//! Where a revision stands, and what an instruction comes to.

ghost use Rattle.std.specs.Prelude.{◌≡◌};
ghost use Rattle.block_run.specs.Stops.{cause_of, stop_of};

use rev_num::Cause;

/// Where a revision stands: its block, the place there, the first local of its frame and the first
/// word behind its stack in the area of words, its fuel, and the line charged last.
#[derive(Clone, Copy)]
pub struct Registers {
    pub block: u16,
    pub at: u32,
    pub base: usize,
    pub top: usize,
    pub fuel: u64,
    pub line: u32,
}

/// Why an instruction of a block traps.
#[derive(Clone, Copy)]
pub enum BlockTrap {
    Overflow,
    ZeroDivisor,
    Index,
    Assert,
    Spent,
}

/// What one instruction comes to. It is small, so that the loop that looks at it for each
/// instruction need not keep it in memory.
#[derive(Clone, Copy)]
pub enum Act {
    Goes,
    Traps(BlockTrap),
    /// It applies a fun, calls, returns, prints, or meets another revision, and nothing has changed
    /// yet.
    Leaves,
}

/// Why a run of instructions stops. No run stops with Goes.
#[derive(Clone, Copy)]
pub enum Stop {
    Goes,
    Traps(Cause),
    /// The next instruction applies a fun, calls, returns, prints, or meets another revision.
    Leaves,
}

impl Act {
    /// What a run comes to whose last instruction comes to this.
    #[inline(always)]
    pub fn stop(self) -> Stop
        ensures { result ≡ stop_of self }
    {
        match self {
            Act::Goes => Stop::Goes,
            Act::Traps(fault) => Stop::Traps(fault.cause()),
            Act::Leaves => Stop::Leaves,
        }
    }
}

impl BlockTrap {
    /// The cause of the trap.
    #[inline(always)]
    pub fn cause(self) -> Cause
        ensures { result ≡ cause_of self }
    {
        match self {
            BlockTrap::Overflow => Cause::Overflow,
            BlockTrap::ZeroDivisor => Cause::ZeroDivisor,
            BlockTrap::Index => Cause::Index,
            BlockTrap::Assert => Cause::Assert,
            BlockTrap::Spent => Cause::Spent,
        }
    }
}

/// Where the locations of a shared variable lie: as many as `cells`, from `first` on.
#[derive(Clone, Copy)]
pub struct Variable {
    pub first: u32,
    pub cells: u32,
}
