//! Code that was verified.

ghost use Rattle.std.specs.Prelude.{◌≡◌};
ghost use Rattle.code_verifier.specs.Verdicts.{KeepsRules};
ghost use Rattle.code_soundness.specs.AcceptedCode.{IsAccepted, notes_of};

use rev_code::Code;

/// Code that keeps all rules.
#[derive(Drop)]
pub struct Verified {
    pub(crate) code: Code,
    ghost sound: { KeepsRules code },
}

impl Verified {
    /// The code. It is all that `code_soundness` asks of code.
    pub fn code(&self) -> &Code
        ensures code { result.now ≡ self.now.code }
        ensures sound { KeepsRules result.now }
        ensures accepted { IsAccepted result.now (notes_of result.now) }
    {
        &self.code
    }
}
