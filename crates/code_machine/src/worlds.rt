//! Worlds by number and their schedules.

ghost use Rattle.std.specs.Prelude.{List, ℕ, ◌+◌, ◌*◌};
ghost use Rattle.rev_num.specs.Path.{Path};
ghost use Rattle.revision_machine.specs.Conditions.{Counts, PaysForks, Spends};
ghost use Rattle.revision_machine.specs.Numbered.{LeastCompletes, OverLaw, RunIsSchedule};
ghost use Rattle.revision_machine.specs.Numbered.{ScheduleBound, ScheduleCompletes, ScheduleLaw};
ghost use Rattle.revision_machine.specs.Numbered.{WorldCount, machine_by};
ghost use Rattle.code_machine.specs.Alike.{LegsKeepAlike, SchedulesKeepAlike, WaitingIsAlike};
ghost use Rattle.code_machine.specs.Alike.{WorldsAreAlike};
ghost use Rattle.code_machine.specs.Local.{CodeRun, IsVerified};
ghost use Rattle.code_machine.specs.Machines.{numbered};
ghost use Rattle.code_machine.specs.Outcome.{OneOutcome};
ghost use Rattle.code_machine.specs.Proper.{NoneIsBlocked, StatesAreProper, StopsWhereOver};
ghost use Rattle.code_machine.specs.Proper.{WorldsAreProper};
ghost use Rattle.code_machine.specs.Starts.{FromEachStart};
ghost use Rattle.code_machine.specs.Weights.{pay, weight};
ghost use Rattle.code_machine.specs.Worlds.{FuelIsOfTheStart, LegsChangeTheirOwn, NumbersStay};
ghost use Rattle.code_machine.specs.Worlds.{OneEntryIsOneLeg, OthersLeaveIt, ReplayGoesOn};
ghost use Rattle.code_machine.specs.Worlds.{RunningIsLeft};
ghost use Rattle.code_machine.specs.Worlds.{ReplayIsTheWorld, StandingIsTheSame};
ghost use Rattle.code_machine.specs.Worlds.{WaitingHasNoLeg, WaitingStays};

/// Schedules of numbers, from the start of every verified code with every input, share and fuel.
///
/// - `counts`, `spends`, `pays`: the world keeps the conditions, by any table of paths;
/// - `runs`, `schedules`, `over`: a legal schedule is a run by paths and a run by paths a legal
///   schedule, and no number has a leg exactly where the state is final;
/// - `bound`, `count`: a legal schedule has at most `3 * fuel + 2` entries, and its world at most
///   `1 + fuel` revisions;
/// - `fuel`: the fuel of all unmarked revisions is at most that of the start;
/// - `completes`, `least`: every legal schedule can be completed, and the least number that has a
///   leg, time after time, completes it.
pub fn schedule_laws()
    ensures counts { (g : CodeRun) → IsVerified g → (t : List Path)
        → Counts (machine_by (numbered g) t) }
    ensures spends { (g : CodeRun) → IsVerified g → (t : List Path)
        → Spends (machine_by (numbered g) t) 1 (λ l. weight g l) }
    ensures pays { (g : CodeRun) → IsVerified g → (t : List Path)
        → PaysForks (machine_by (numbered g) t) (λ l. pay g l) }
    ensures runs { FromEachStart ℕ (λ g fuel main. ScheduleLaw (numbered g) main) }
    ensures schedules { FromEachStart ℕ (λ g fuel main. RunIsSchedule (numbered g) main) }
    ensures over { FromEachStart ℕ (λ g fuel main. OverLaw (numbered g) main) }
    ensures bound { FromEachStart ℕ (λ g fuel main.
        ScheduleBound (numbered g) main (3 * fuel + 2)) }
    ensures count { FromEachStart ℕ (λ g fuel main. WorldCount (numbered g) main (1 + fuel)) }
    ensures fuel { FuelIsOfTheStart }
    ensures completes { FromEachStart ℕ (λ g fuel main. ScheduleCompletes (numbered g) main) }
    ensures least { FromEachStart ℕ (λ g fuel main. LeastCompletes (numbered g) main) }
{}

/// What each revision of a state or of a legal schedule's world is.
///
/// - `states`, `worlds`: one at work is a typed state, so that it has a leg, and the locations of
///   each have values of their kinds;
/// - `over`: one that does nothing more is done or has trapped;
/// - `unblocked`: where no number has a leg, each is done or has trapped;
/// - `outcome`: any two complete schedules have one outcome.
pub fn kept_laws()
    ensures states { StatesAreProper }
    ensures worlds { WorldsAreProper }
    ensures over { StopsWhereOver }
    ensures unblocked { NoneIsBlocked }
    ensures outcome { OneOutcome }
{}

/// What a leg changes, in every world.
///
/// - `own`: no other revision, but for the mark of the one that it joins;
/// - `numbers`: it keeps all numbers and paths, and a child gets the next number;
/// - `others`: entries of other revisions leave a revision as it is until it is joined;
/// - `running`: so one that has a next event stays as it is until an entry of its own;
/// - `on`, `one_entry`, `replay`: one more entry is one more leg, and the world after a legal
///   schedule is the one of `replay`.
pub fn world_laws()
    ensures own { LegsChangeTheirOwn }
    ensures numbers { NumbersStay }
    ensures others { OthersLeaveIt }
    ensures running { RunningIsLeft }
    ensures on { ReplayGoesOn }
    ensures one_entry { OneEntryIsOneLeg }
    ensures replay { ReplayIsTheWorld }
{}

/// Revisions that wait, and worlds in which they stand at their joins, behind the instructions of
/// their legs.
///
/// - `no_leg`, `stays`: a revision that comes to join one that has not ended has no leg, and goes
///   on to wait until the other has an entry;
/// - `same_leg`: where a revision stands at its join, its next leg is that join alone, and leads to
///   the same world as the whole leg;
/// - `itself`, `legs`, `schedules`: worlds that differ in such revisions alone have the same legs
///   and the same legal schedules, and are alike after them;
/// - `waits`: a revision whose leg comes to a join may be put at it.
pub fn standing_laws()
    ensures no_leg { WaitingHasNoLeg }
    ensures stays { WaitingStays }
    ensures same_leg { StandingIsTheSame }
    ensures itself { WorldsAreAlike }
    ensures legs { LegsKeepAlike }
    ensures schedules { SchedulesKeepAlike }
    ensures waits { WaitingIsAlike }
{}
