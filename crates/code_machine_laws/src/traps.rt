//! Whose a trap is: a leg's own, or that of a join.

ghost use Rattle.code_machine_laws.specs.Legs.{JoinTrapsAreOfJoin, OwnTrapsAreNotOfJoin};

/// A trap tells whether a join made it: a leg's own trap never is such, and a join's always is.
pub fn trap_laws()
    ensures own { OwnTrapsAreNotOfJoin }
    ensures join { JoinTrapsAreOfJoin }
{}
