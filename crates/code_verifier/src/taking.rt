//! Verified code, taken out.

ghost use Rattle.std.specs.Prelude.{◌≡◌};
ghost use Rattle.code_verifier.specs.Verdicts.{KeepsRules};

use crate::verified::Verified;
use rev_code::Code;

impl Verified {
    /// The code itself.
    pub fn into_code(self) -> Code
        ensures code { result ≡ self.code }
        ensures sound { KeepsRules result }
    {
        let Verified { code } = self;
        code
    }
}
