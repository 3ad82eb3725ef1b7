//! The code of a program does what the calculus does.

ghost use Rattle.program_meaning.specs.Laws.{CompleteSchedulesAgree, LegsAgree};
ghost use Rattle.program_meaning.specs.Laws.{OutcomesAgree, SchedulesAgree};
ghost use Rattle.program_meaning.specs.Legs.{LegsAlike};
ghost use Rattle.program_meaning.specs.Relation.{CodeSimulated, NumbersSimulated};

/// From a related state the calculus comes by its own steps to what the leg of the code comes to.
pub fn leg_law()
    ensures { LegsAlike }
{}

/// Each leg of the code is some steps of the same revision in the calculus, by paths and by
/// numbers.
pub fn simulation_laws()
    ensures paths { CodeSimulated }
    ensures numbers { NumbersSimulated }
{}

/// Schedules of a program's code, from the start of `main`, by any legal order of legs.
///
/// - `agrees`: the world after a legal schedule agrees with a state that a run of the calculus
///   reaches: Twice with Twice, and else revision by revision;
/// - `legs`: each leg is some steps of the revision with its number's path, and of no other;
/// - `ends`: a complete schedule's world agrees with a final state, and all have ended;
/// - `outcomes`: and its outcome is that of every complete run of the calculus.
pub fn schedule_laws()
    ensures agrees { SchedulesAgree }
    ensures legs { LegsAgree }
    ensures ends { CompleteSchedulesAgree }
    ensures outcomes { OutcomesAgree }
{}
