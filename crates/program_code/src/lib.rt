//! Of the code of a program that the checker accepts: it can be written as a code file; and it never
//! joins a revision twice where no run of the program does, as where that keeps the affine rule.
//!
//! The laws are empty functions.
#![tactic(auto)]

ghost use Rattle.program_code.specs.Files.{GeneratedCodeIsCounted};
ghost use Rattle.program_code.specs.Never.{AffineCode, CodeOfNever};

/// The counts and lengths of the code of a program that the checker accepts have the widths of the
/// fields of a code file.
pub fn file_law()
    ensures { GeneratedCodeIsCounted }
{}

/// For every program that the checker accepts, with every input, share and fuel:
///
/// - `code`: where no run of the program reaches Twice, no legal schedule of its code does;
/// - `affine`: so it is where the program keeps the affine rule.
pub fn never_laws()
    ensures code { CodeOfNever }
    ensures affine { AffineCode }
{}
