//! Each run of verified code, with at most 4,000,000,000 units of fuel, has a memo, and of whatever
//! entries so many of its leaf revisions have a valid one.

ghost use Rattle.rev_record.specs.MemoLaws.{EachHasMemo, EachIsReused, OneReused};

/// Each run has a memo, and each list of entries as many leaf revisions of a run that have a valid
/// one of them; and that is one number, whichever memo it is that the entries are.
pub fn memo_laws()
    ensures memo { EachHasMemo }
    ensures reused { EachIsReused }
    ensures one { OneReused }
{}
