//! What the rules on code are for: code in which the verifier finds no fault never fails when it
//! runs.
//!
//! Each law is an empty function. Those that speak of states take what a handle is as the type `H`:
//! a revision's number, or its path.

ghost use Rattle.code_soundness.specs.AcceptedCode.{NoFaultIsAccepted, NoFaultIsWithinLimits};
ghost use Rattle.code_soundness.specs.Funs.{FunsHaveValues, MergesHaveInts};
ghost use Rattle.code_soundness.specs.Funs.{ValuesAreByBlocks, FunsStart, FunStepsAreSafe};
ghost use Rattle.code_soundness.specs.Uses.{UsesAreByBlocks, FunsKeepTheirCosts, FunsKeepLimits};
ghost use Rattle.code_soundness.specs.Safe.{MainStarts, ProceduresStart, StatesHaveSteps};
ghost use Rattle.code_soundness.specs.Safe.{StepsAreSafe, ReachedStatesNeverFail};

/// Code without a fault has certificates of all its blocks, and its funs and merges keep their
/// limits.
pub fn whole_code_law()
    ensures accepted { NoFaultIsAccepted }
    ensures limits { NoFaultIsWithinLimits }
{}

/// In accepted code the block of a fun or merge has a value of its result's kind, or a fault of
/// arithmetic, for all arguments of its parameters' kinds: its first state is typed, and each step
/// leads to a later typed state, to such a fault or to the result. Its evaluation takes no more
/// instructions and words than it costs, and so keeps the limits.
pub fn fun_laws<H>()
    ensures funs { FunsHaveValues H }
    ensures merges { MergesHaveInts H }
    ensures blocks { ValuesAreByBlocks H }
    ensures starts { FunsStart H }
    ensures steps { FunStepsAreSafe H }
    ensures uses { UsesAreByBlocks H }
    ensures costs { FunsKeepTheirCosts H }
    ensures limits { FunsKeepLimits H }
{}

/// In accepted code the first states of revisions are typed. A typed state has an instruction,
/// which finds what it takes and comes to an event, and each event leads to typed states again. So
/// no state that is reached from a first state of `main` or of a procedure is without a step, or
/// has a stack of more than 4,096 words or more than 1,000 frames.
pub fn soundness_laws<H>()
    ensures main { MainStarts H }
    ensures procedures { ProceduresStart H }
    ensures progress { StatesHaveSteps H }
    ensures preserved { StepsAreSafe H }
    ensures reached { ReachedStatesNeverFail H }
{}
