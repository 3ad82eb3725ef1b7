//! The trace of a program has the form of a trace text, whatever the program does.
//!
//! The laws are empty functions.

ghost use Rattle.program_texts.specs.Forms.{TextsAreWritten, TracesHaveForm};

/// The trace of the end of every complete run of a program that the checker accepts has the form of
/// a trace text, where the numbers of the program and of the input have 64 bits, the lines of its
/// statements 32, and what it prints is printable, with any fuel that a run can be given: parts in
/// post-order with `main` last, paths, lines, fuel and values in their ranges, places that name
/// locations, and whole lines of printable bytes.
pub fn form_law()
    ensures { TracesHaveForm }
{}

/// A program of a text that is not too long is one of these.
pub fn written_law()
    ensures { TextsAreWritten }
{}
