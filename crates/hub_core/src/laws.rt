//! The laws of replays and of the events of a hub. Each is named by the contract of a function that
//! does nothing.

ghost use Rattle.hub_core.specs.Laws.{
  HubTheory,
  ReplayIs,
  CommitLaw,
  EarlierLaw,
  ForkerLaw,
  OpenLaw,
  TakeLaw,
  RetryLaw,
  ForkLaw,
  WaitLaw,
  BackLaw,
  JoinLaw,
  TwiceLaw,
  EndLaw,
  HandInLaw,
  CompleteLaw,
};

/// Names for each value a machine by numbers and the values that stand for its states. It has no
/// code.
pub trait HubWorld {
    /// The machine and the values.
    ghost hub: { Self → HubTheory };
}

/// The laws of schedules, over each machine and each first state `main`.
///
/// - `replay`: the replay of a schedule is where a legal schedule leads;
/// - `commit`: one entry more is one leg more;
/// - `earlier`: an earlier schedule names the state of now of a revision that had no leg since;
/// - `forkers`: a fork adds its number to the list of forkers, and no other leg changes it.
pub fn replay_laws<H: HubWorld>()
    ensures replay { (s : H) (main : _) → ReplayIs (H.hub s).machine main }
    ensures commit { (s : H) (main : _) → CommitLaw (H.hub s).machine main }
    ensures earlier { (s : H) (main : _) → EarlierLaw (H.hub s).machine main }
    ensures forkers { (s : H) (main : _) → ForkerLaw (H.hub s).machine main }
{}

/// What a hub keeps stays the replay of its schedule.
///
/// - `opens`: at its opening;
/// - `take`, `retry`: by handing out a runner or a joiner, whose state is that of its revision;
/// - `fork`, `join`, `ends`: by an event, which is one entry;
/// - `wait`, `back`, `hand_in`: by a join that waits, by a revision that is handed back before its
///   leg, and by the end of a joiner that its join trapped, which are none;
/// - `twice`: a join of what was joined is the last entry;
/// - `complete`: where all have ended the schedule is complete, and the ends are those of its
///   world.
pub fn hub_laws<H: HubWorld>()
    ensures opens { (s : H) (main : _) → OpenLaw (H.hub s).machine (H.hub s).values main }
    ensures take { (s : H) (main : _) → TakeLaw (H.hub s).machine (H.hub s).values main }
    ensures retry { (s : H) (main : _) → RetryLaw (H.hub s).machine (H.hub s).values main }
    ensures fork { (s : H) (main : _) → ForkLaw (H.hub s).machine (H.hub s).values main }
    ensures wait { (s : H) (main : _) → WaitLaw (H.hub s).machine (H.hub s).values main }
    ensures back { (s : H) (main : _) → BackLaw (H.hub s).machine (H.hub s).values main }
    ensures join { (s : H) (main : _) → JoinLaw (H.hub s).machine (H.hub s).values main }
    ensures twice { (s : H) (main : _) → TwiceLaw (H.hub s).machine (H.hub s).values main }
    ensures ends { (s : H) (main : _) → EndLaw (H.hub s).machine (H.hub s).values main }
    ensures hand_in { (s : H) (main : _) → HandInLaw (H.hub s).machine (H.hub s).values main }
    ensures complete { (s : H) (main : _) → CompleteLaw (H.hub s).machine (H.hub s).values main }
{}
