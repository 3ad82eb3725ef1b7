//! The code of typed statements has certificates: notes as a function of the tree, which fit the
//! code.
//!
//! The law is an empty function.

ghost use Rattle.generated_certificates.specs.StatementLaws.{StatementsAreCertified};

/// The notes of the code of typed statements are a certificate of it.
pub fn statement_law()
    ensures { StatementsAreCertified }
{}
