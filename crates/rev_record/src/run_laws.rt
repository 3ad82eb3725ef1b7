//! What is kept, leg by leg, of a run that is recorded, and of one that is repeated by entries of
//! another. Each law is an empty function.

ghost use Rattle.rev_record.specs.RunLaws.{AdoptedIsLeaf, LeavesAreFound};
ghost use Rattle.rev_record.specs.RunLaws.{CountedAtTheEnd, CountedAtTheStart, CountedWith};
ghost use Rattle.rev_record.specs.RunLaws.{CountedWithout, RecordedAtTheEnd, RecordedAtTheStart};
ghost use Rattle.rev_record.specs.RunLaws.{RecordedWith, RecordedWithout};

/// A revision that behind its leg has listed no fork and no join is a leaf; and so is one whose end
/// is taken over from an entry.
pub fn leaf_laws()
    ensures found { LeavesAreFound }
    ensures adopted { AdoptedIsLeaf }
{}

/// What is recorded of a run, as entries of its leaves. There is nothing before the first leg; a leg
/// that is not a leaf's adds nothing, and a leaf's one entry, which is a new one; and at the end the
/// entries are the memo of the run.
pub fn recording_laws()
    ensures start { RecordedAtTheStart }
    ensures without { RecordedWithout }
    ensures with_one { RecordedWith }
    ensures end { RecordedAtTheEnd }
{}

/// What is counted of a run that is repeated by entries: the leaves that have a valid one of them. It
/// is none before the first leg; a leg adds its revision where that is such a leaf, and else nothing;
/// and at the end as many are counted as are reused.
pub fn counting_laws()
    ensures start { CountedAtTheStart }
    ensures without { CountedWithout }
    ensures with_one { CountedWith }
    ensures end { CountedAtTheEnd }
{}
