//! The machine by paths, and that the world by numbers does the same.

ghost use Rattle.std.specs.Prelude.{List, ◌+◌, ◌*◌};
ghost use Rattle.rev_num.specs.Path.{Path};
ghost use Rattle.revision_machine.specs.Conditions.{Counts, Handles, HoldsNone, PaysForks, Spends};
ghost use Rattle.revision_machine.specs.Laws.{BoundLaw, CompletionLaw, CountLaw, DiamondLaw};
ghost use Rattle.revision_machine.specs.Laws.{ForkerLaw, HandleLaw, IsIn, NoBlockedEnd};
ghost use Rattle.revision_machine.specs.Laws.{SpendingLaw, StandingLaw, TwiceInAll, UniqueEnd};
ghost use Rattle.revision_machine.specs.Numbered.{machine_by};
ghost use Rattle.revision_machine.specs.Schedules.{CompleteScheduleAgrees, LegLaw, ScheduleAgrees};
ghost use Rattle.revision_machine.specs.Simulation.{Simulates};
ghost use Rattle.code_machine.specs.Ends.{EndsFit, JoinIsByTheEnd, MergesAreDefined};
ghost use Rattle.code_machine.specs.Ends.{JoinTrapsShowIt, OwnTrapsShowIt};
ghost use Rattle.code_machine.specs.Leg.{LegIsOfSteps, LegsExist};
ghost use Rattle.code_machine.specs.Local.{CodeRun, IsVerified};
ghost use Rattle.code_machine.specs.Machines.{Holds, machine, numbered};
ghost use Rattle.code_machine.specs.Renamed.{IsNumbered};
ghost use Rattle.code_machine.specs.Starts.{FromBothStarts, FromEachStart};
ghost use Rattle.code_machine.specs.Weights.{pay, weight};

/// A leg of verified code is what the instructions lead to from a state, up to their first fork,
/// join, end or trap; and each state of a revision has one. It holds whatever a handle is.
pub fn leg_laws<H>()
    ensures steps { LegIsOfSteps H }
    ensures exist { LegsExist H }
{}

/// What an end shows, whatever a handle is: a leg's own trap is no join's, a trap of a joiner is
/// its join's, and a join depends on the joined revision by its end alone. What a revision of a
/// world wrote stands in ascending order of location and fits the variables, and the merge of a
/// location has a value or a fault of arithmetic for the words that a join finds there.
pub fn end_laws<H>()
    ensures own { OwnTrapsShowIt H }
    ensures joins { JoinTrapsShowIt H }
    ensures by_the_end { JoinIsByTheEnd H }
    ensures fit { EndsFit H }
    ensures merges { MergesAreDefined H }
{}

/// The machine of verified code keeps the conditions of revisions.
///
/// - `counts`: each fork is counted once;
/// - `handles`: a handle comes from what the revision held, from its forker, from a fork or from a
///   joined revision, whatever the code;
/// - `spends`, `pays`: each event uses up one of the weight, and each fork one of what pays for
///   forks;
/// - `simulates`: it does what the world by numbers does, by any table of paths.
pub fn condition_laws()
    ensures counts { (g : CodeRun) → IsVerified g → Counts (machine g) }
    ensures handles { (g : CodeRun) → Handles (machine g) Holds }
    ensures spends { (g : CodeRun) → IsVerified g → Spends (machine g) 1 (λ l. weight g l) }
    ensures pays { (g : CodeRun) → IsVerified g → PaysForks (machine g) (λ l. pay g l) }
    ensures simulates { (g : CodeRun) → IsVerified g → (t : List Path)
        → Simulates (machine g) (machine_by (numbered g) t) (IsNumbered t) (λ p. IsIn p t) }
{}

/// Runs by paths, from the start of every verified code with every input, share and fuel.
///
/// - `diamond`, `unique`, `twice`: two legs of different revisions go in either order, all complete
///   runs have one end, and all reach Twice where one does;
/// - `forkers`, `standing`: each revision but `main` has its forker, `main` stands in every state
///   but Twice, and what is marked has ended;
/// - `handles`, `unblocked`: each handle names a revision that comes before its holder in
///   post-order, and where no revision has a leg, every revision has ended;
/// - `bound`, `count`: at most three legs for each unit of fuel, and two; at most 1 and the fuel
///   revisions;
/// - `fuel`: the fuel of all unmarked revisions is at most that of the start;
/// - `completes`: every run can be completed.
pub fn run_laws()
    ensures diamond { FromEachStart Path (λ g fuel main. DiamondLaw (machine g) main) }
    ensures unique { FromEachStart Path (λ g fuel main. UniqueEnd (machine g) main) }
    ensures twice { FromEachStart Path (λ g fuel main. TwiceInAll (machine g) main) }
    ensures forkers { FromEachStart Path (λ g fuel main. ForkerLaw (machine g) main) }
    ensures standing { FromEachStart Path (λ g fuel main. StandingLaw (machine g) main) }
    ensures handles { FromEachStart Path (λ g fuel main. HandleLaw (machine g) main Holds) }
    ensures unblocked { FromEachStart Path (λ g fuel main. NoBlockedEnd (machine g) main) }
    ensures bound { FromEachStart Path (λ g fuel main. BoundLaw (machine g) main (3 * fuel + 2)) }
    ensures count { FromEachStart Path (λ g fuel main. CountLaw (machine g) main (1 + fuel)) }
    ensures fuel { FromEachStart Path (λ g fuel main.
        SpendingLaw (machine g) main 0 (λ l. l.state.fuel)) }
    ensures completes { FromEachStart Path (λ g fuel main. CompletionLaw (machine g) main) }
{}

/// The world after a legal schedule agrees with a state that a run by paths reaches, by the table
/// of the world's own paths: its local states are those by paths, with numbers for handles.
///
/// - `none`: `main` holds no handle at the start;
/// - `agrees`: each legal schedule's world agrees with a state that a run reaches;
/// - `legs`: each entry is some legs of the revision with its number's path, and of no other;
/// - `ends`: a complete schedule's world agrees with the end of the complete runs, and every
///   revision has ended in both.
pub fn agreement_laws()
    ensures none { FromEachStart Path (λ g fuel main. HoldsNone (machine g) Holds main) }
    ensures agrees { FromBothStarts (λ g a main.
        ScheduleAgrees (machine g) (numbered g) IsNumbered a main) }
    ensures legs { FromBothStarts (λ g a main. LegLaw (machine g) (numbered g) IsNumbered a main) }
    ensures ends { FromBothStarts (λ g a main.
        CompleteScheduleAgrees (machine g) (numbered g) IsNumbered a main) }
{}
