//! The join rule has one meaning: what running code composes of words is what the calculus composes
//! of locations.

ghost use Rattle.program_meaning.specs.Composes.{ComposesAsJoin, EncodesAlike};

/// The calculus' new locations of a joiner are those of `composed`, over the values that the joinee
/// wrote and with the merges of the program, and so is the least location whose merge faults. Where
/// values are kept as words, and the merges of words are those of the values that they stand for,
/// words are composed as values are.
pub fn join_rule()
    ensures composes { ComposesAsJoin }
    ensures encodes { EncodesAlike }
{}
