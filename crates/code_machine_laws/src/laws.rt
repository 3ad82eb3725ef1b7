//! What holds of each reached world.

ghost use Rattle.code_machine_laws.specs.Laws.{JoineesStand, JoinsFit, LegsAreReached};
ghost use Rattle.code_machine_laws.specs.Laws.{MainStands, StartIsReached, WorldsAreSmall};

/// Worlds that a legal schedule reaches from the start of `main` of verified code, with any input
/// and share, and with at most 4,000,000,000 units of fuel.
///
/// - `start`, `legs`: the start is one, and after a leg of one comes one;
/// - `joinees`: a revision that comes to a join comes to join a revision of the world, and never
///   `main`;
/// - `main`: `main` stands first and is never joined, and its snapshot has the start values;
/// - `small`: there are at most 4,000,000,001 revisions;
/// - `fuel`: a joiner at its join and the revision that it joins, which has ended and is not joined
///   yet, have at most 4,000,000,000 units of fuel together.
pub fn reached_laws()
    ensures start { StartIsReached }
    ensures legs { LegsAreReached }
    ensures joinees { JoineesStand }
    ensures main { MainStands }
    ensures small { WorldsAreSmall }
    ensures fuel { JoinsFit }
{}
