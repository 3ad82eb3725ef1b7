//! Each list of bytes is a trace text or has a first fault.

ghost use Rattle.program_texts.specs.TraceLawsLaws.{EachIsReadOrFails};

/// Each list of bytes, of numbers of any size even, is the text of a trace or has a first fault.
pub fn reading_law()
    ensures { EachIsReadOrFails }
{}
