//! What a join of the calculus sees of the revision that is joined.
//!
//! The law is an empty function.

ghost use Rattle.determinacy.specs.Ends.{JoinIsByTheEnd};

/// A join depends on the joined revision by its end alone: what it wrote and from which root, its
/// text, its fuel and its phase.
pub fn end_law()
    ensures { JoinIsByTheEnd }
{}
