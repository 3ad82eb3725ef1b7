//! The states of the machine, as a type of which no value is made.

use std::marker::Model;

/// A state of a run of code. No value of it is made.
pub struct AnyState {
    none: u64,
}

impl Model for AnyState {
    ghost use Rattle.run_revision.specs.CodeState.{CodeState};
    ghost use Rattle.run_revision.specs.Values.{nothing};

    ghost Value = { CodeState };

    ghost view = { λ _. nothing };
}
