//! What runs.

ghost use Rattle.std.specs.Prelude.{◌≡◌, None};
ghost use Rattle.code_rules.specs.Verdict.{first_fault};

use rev_code::Code;
use rev_num::Items;

/// Code in which the verifier finds no fault, the input numbers, and the most fuel that a child
/// gets.
#[derive(Drop)]
pub struct VerifiedRun {
    pub code: Code,
    pub inputs: Items<i64>,
    pub share: u64,
    ghost sound: { first_fault code ≡ None },
}
