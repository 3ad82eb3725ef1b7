//! Certificates of code: what the verifier's pass tells of each place of a block that it accepts.

ghost use Rattle.code_soundness.specs.Certificate.{AcceptedIsCertified};

/// A block in which the pass finds no fault has a certificate: what the pass knew on arrival at
/// each place.
pub fn certificate_law()
    ensures { AcceptedIsCertified }
{}
