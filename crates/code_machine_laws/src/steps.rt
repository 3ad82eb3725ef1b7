//! What a step of code comes to, whatever its instruction.
//!
//! The laws are empty functions.

ghost use Rattle.code_machine_laws.specs.Forms.{ReachesSay, StepsHaveForms};

/// Each step of each state comes to one of eight forms, whatever a handle is: to a next state by
/// its frames, its stack and more text behind its own, by a write to one location, or by a payment;
/// to a trap, a fork, a join or the end; or to nothing.
pub fn step_law<H>()
    ensures { StepsHaveForms H }
{}

/// Wherever several steps of a state lead, the text there is that of the state, with more behind
/// it.
pub fn text_law<H>()
    ensures { ReachesSay H }
{}
