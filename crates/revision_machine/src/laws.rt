//! The laws of every machine of revisions that keeps the conditions, for every program and every
//! order of its steps. Each is named by the contract of a function that does nothing.

ghost use Rattle.std.specs.Prelude.{List};
ghost use Rattle.rev_num.specs.Path.{Path};
ghost use Rattle.revision_machine.specs.Laws.{
  DiamondLaw,
  UniqueEnd,
  TwiceIsFinal,
  TwiceInAll,
  ForkerLaw,
  StandingLaw,
  CompletionLaw,
};
ghost use Rattle.revision_machine.specs.Numbered.{
  ScheduleLaw,
  RunIsSchedule,
  OverLaw,
  ScheduleCompletes,
  LeastCompletes,
};
ghost use Rattle.revision_machine.specs.Theory.{
  Lawful,
  LawfulWorld,
  Simulation,
  HandleLaws,
  UnblockedLaws,
  BoundLaws,
  CountLaws,
  ScheduleBounds,
  WorldCounts,
  Steps,
  Runs,
  Unblocked,
  CompleteRuns,
  Ends,
  Schedules,
  Legs,
  CompleteSchedules,
};

/// Names a machine of revisions for each value, with the proof that it keeps the conditions. It has
/// no code.
pub trait LawfulMachine {
    /// The machine, and why it keeps the conditions.
    ghost lawful: { Self → Lawful };
}

/// Names a world by number for each value, with the proof that it keeps the conditions. It has no
/// code.
pub trait NumberedWorld {
    /// The world, and why it keeps the conditions.
    ghost world: { Self → LawfulWorld };
}

/// Names for each value a machine by paths that does what a world by number does. It has no code.
pub trait Simulated {
    /// The machine and the world, and why the one does what the other does.
    ghost simulation: { Self → Simulation };
}

/// The laws of revisions, over each machine and each first state `main`.
///
/// - `diamond`: two steps of different revisions can be made in either order;
/// - `unique`, `twice`: all complete runs have one end, and all reach Twice where one run does;
/// - `twice_final`: in Twice nothing steps;
/// - `forkers`: each revision but `main` has its forker, which has counted it;
/// - `standing`: in every state but Twice `main` stands, and what is marked has ended;
/// - `handles`, `unblocked`: where `main` holds no handle, each handle names a revision that comes
///   before its holder in post-order, and where nothing steps, but in Twice, every revision has
///   ended;
/// - `bound`: no run has more steps than the weight of `main`;
/// - `count`: a reached state has no more revisions than 1 and what `main` has to pay for forks;
/// - `completes`: every run can be completed.
pub fn theory<R: LawfulMachine>()
    ensures diamond { (s : R) (main : _) → DiamondLaw (R.lawful s).machine main }
    ensures unique { (s : R) (main : _) → UniqueEnd (R.lawful s).machine main }
    ensures twice { (s : R) (main : _) → TwiceInAll (R.lawful s).machine main }
    ensures twice_final { (s : R) → TwiceIsFinal (R.lawful s).machine }
    ensures forkers { (s : R) (main : _) → ForkerLaw (R.lawful s).machine main }
    ensures standing { (s : R) (main : _) → StandingLaw (R.lawful s).machine main }
    ensures handles { (s : R) → HandleLaws (R.lawful s) }
    ensures unblocked { (s : R) → UnblockedLaws (R.lawful s) }
    ensures bound { (s : R) → BoundLaws (R.lawful s) }
    ensures count { (s : R) → CountLaws (R.lawful s) }
    ensures completes { (s : R) (main : _) → CompletionLaw (R.lawful s).machine main }
{}

/// The laws of schedules, over each world by number and each first state `main`.
///
/// - `runs`, `schedules`: a legal schedule is a run by paths, and a run by paths is a legal
///   schedule;
/// - `over`: no number has a leg exactly where the state is final;
/// - `bound`, `count`: a legal schedule has no more entries than the weight of `main`, and the
///   world after it no more revisions than 1 and what `main` has to pay for forks;
/// - `completes`, `least`: every legal schedule can be completed, and the least number that has a
///   leg, time after time, completes it.
pub fn schedule_theory<W: NumberedWorld>()
    ensures runs { (s : W) (main : _) → ScheduleLaw (W.world s).numbered main }
    ensures schedules { (s : W) (main : _) → RunIsSchedule (W.world s).numbered main }
    ensures over { (s : W) (main : _) → OverLaw (W.world s).numbered main }
    ensures bound { (s : W) → ScheduleBounds (W.world s) }
    ensures count { (s : W) → WorldCounts (W.world s) }
    ensures completes { (s : W) (main : _) → ScheduleCompletes (W.world s).numbered main }
    ensures least { (s : W) (main : _) → LeastCompletes (W.world s).numbered main }
{}

/// What a machine by paths and a world by number have to do with each other.
///
/// - `steps`, `runs`, `unblocked`, `complete`, `ends`: by any table `t` that has the paths of
///   `main` and of the children, each step by number is some steps of the same revision by paths;
///   runs agree, none is blocked, and complete ones agree with complete ones; and any two complete
///   runs end in states that agree;
/// - `schedule`: the world after a legal schedule agrees with a state that a run reaches, by the
///   table of the world's own paths, each once, and Both by some table;
/// - `legs`: each leg of a legal schedule is some number of steps of the revision with its number's
///   path, and of no other, in the state that agrees with the world;
/// - `complete_schedule`: the world after a complete schedule agrees with the end of the complete
///   runs, and every revision has ended, by paths and by number, but in Twice.
pub fn simulation_theory<S: Simulated>()
    ensures steps { (s : S) (t : List Path) → Steps (S.simulation s) t }
    ensures runs { (s : S) (t : List Path) → Runs (S.simulation s) t }
    ensures unblocked { (s : S) (t : List Path) → Unblocked (S.simulation s) t }
    ensures complete { (s : S) (t : List Path) → CompleteRuns (S.simulation s) t }
    ensures ends { (s : S) (t : List Path) → Ends (S.simulation s) t }
    ensures schedule { (s : S) → Schedules (S.simulation s) }
    ensures legs { (s : S) → Legs (S.simulation s) }
    ensures complete_schedule { (s : S) → CompleteSchedules (S.simulation s) }
{}
