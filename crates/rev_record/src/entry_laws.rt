//! Laws of entries. Each is an empty function.

ghost use Rattle.rev_record.specs.EntryLaws.{AdoptsSo, FreshBegins, KnownFits, LeafIsTold};

/// What a world tells of a fresh revision stands for that with which it begins.
pub fn fresh_law()
    ensures { FreshBegins }
{}

/// A revision that has listed nothing and that its leg ends has an entry, of which the machine
/// tells.
pub fn leaf_law()
    ensures { LeafIsTold }
{}

/// What an entry of this code has left fits the code. And where a revision is known to end so, its
/// end value is that with which its leg ends it.
pub fn adopt_laws()
    ensures fits { KnownFits }
    ensures ends { AdoptsSo }
{}
