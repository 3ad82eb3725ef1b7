//! The tables of the code of a well-typed program keep the verifier's rules.
//!
//! Each law is an empty function.

ghost use Rattle.generated_certificates.specs.TableLaws.{CodeIsSmall, NamesAreWell};

/// The tables of the code of a small, well-typed program are well and within all limits.
pub fn table_laws()
    ensures names { NamesAreWell }
    ensures small { CodeIsSmall }
{}
