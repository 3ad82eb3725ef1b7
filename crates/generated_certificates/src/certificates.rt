//! The code of a typed expression has a certificate: notes as a function of the tree, which fit the
//! code.
//!
//! The law is an empty function.

ghost use Rattle.generated_certificates.specs.Laws.{ExpressionsAreCertified};

/// The notes of the code of a typed expression are a certificate of it.
pub fn expression_law()
    ensures { ExpressionsAreCertified }
{}
