//! Code that a proof has verified.

ghost use Rattle.std.specs.Prelude.{◌≡◌};
ghost use Rattle.code_verifier.specs.Verdicts.{KeepsRules};

use crate::verified::Verified;
use rev_code::Code;

impl Verified {
    /// Code that keeps all rules, as the caller proves: no instruction is looked at.
    pub fn proved(code: Code) -> Verified
        requires { KeepsRules code }
        ensures { result.code ≡ code }
    {
        Verified { code }
    }
}
