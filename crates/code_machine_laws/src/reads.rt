//! What code reads of its snapshot and of the input, and that nothing else of them matters.
//!
//! The laws are empty functions.

ghost use Rattle.code_machine_laws.specs.ReadLaws.{OwnReadsAgree, ReachIsByReads, StepIsByReads};
ghost use Rattle.code_machine_laws.specs.LegReads.{LegReadsOfSteps};
ghost use Rattle.code_machine_laws.specs.WorkedReads.{NumberAlone, OnceRead, OtherInputs, OutOfRange};

/// What an instruction comes to, and what a row of instructions comes to, is by what they read of
/// the snapshot and of the input; and what they read is what these have.
pub fn read_laws<H>()
    ensures step { StepIsByReads H }
    ensures reach { ReachIsByReads H }
    ensures own { OwnReadsAgree H }
{}

/// A leg of verified code reads what the steps to its event read, and the instruction there.
pub fn leg_read_law<H>()
    ensures { LegReadsOfSteps H }
{}

/// Small procedures, and what they read.
pub fn worked_reads()
    ensures alone { NumberAlone }
    ensures once { OnceRead }
    ensures range { OutOfRange }
    ensures inputs { OtherInputs }
{}
