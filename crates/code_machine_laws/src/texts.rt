//! The text of `main` along the legs of verified code.
//!
//! The laws are empty functions.

ghost use Rattle.code_machine_laws.specs.Texts.{FirstParts, LegsSay, OverIsAll, TwiceIsTold};

/// Of verified code, with whatever inputs, share and fuel:
///
/// - `legs`: a leg of `main` writes behind what it has said, and a leg of another leaves that;
/// - `parts`: what `main` has said in the world after a legal schedule is a first part of the text
///   of the outcome, where that is not Twice;
/// - `all`: after a complete schedule it is all of it;
/// - `twice`: no legal schedule leads to Twice exactly where the outcome is not Twice.
pub fn text_laws()
    ensures legs { LegsSay }
    ensures parts { FirstParts }
    ensures all { OverIsAll }
    ensures twice { TwiceIsTold }
{}
