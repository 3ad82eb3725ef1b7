//! Code of the stack machine, and what it means.
//!
//! `src/code.rt` has the instructions, blocks and tables. `specs/` says what they mean:
//! `Words.antt` the words on a stack, `State.antt` the state of a revision, `Variables.antt` where
//! shared variables lie, `Printing.antt` the line that a Print writes, `Step.antt` what each
//! instruction does, one case for each row of the table of instructions, `Funs.antt` the values of
//! funs and merges, `Events.antt` what forks and joins leave.
#![tactic(auto)]

mod code;

pub use code::{BlockClass, Code, CodeBlock, CodeVar, Instr, LayoutItem};
