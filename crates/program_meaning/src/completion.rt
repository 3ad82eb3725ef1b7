//! The outcome of a program's code is that of the program.
//!
//! Each law is an empty function.

ghost use Rattle.program_meaning.specs.OutcomeLaws.{EachCompletionHasIt, LeastNumbersGiveIt};
ghost use Rattle.program_meaning.specs.OutcomeLaws.{OutcomeIsThatOfTheProgram};

/// For every program that the checker accepts, with every input, share and fuel, an outcome is that
/// of the program's code exactly where it is that of the program.
pub fn outcome_law()
    ensures { OutcomeIsThatOfTheProgram }
{}

/// After each legal schedule of a program's code, whatever the order of its legs:
///
/// - `each`: the world after whatever completes it has the outcome of the program;
/// - `least`: the least number that has a leg, time after time, completes it, and so gives that
///   outcome.
pub fn completion_laws()
    ensures each { EachCompletionHasIt }
    ensures least { LeastNumbersGiveIt }
{}
