//! The inputs of a run.

ghost use Rattle.std.specs.Prelude.{◌≡◌, true};
ghost use Rattle.block_run.specs.Agreement.{AreInputs};
ghost use Rattle.rev_num.specs.Arith.{fits_i64};

/// Looks at an input: it has 64 bits, as its type says.
fn note_input(input: i64)
    ensures { fits_i64 input ≡ true }
{
    let _input = input;
}

/// Looks at each input. A list does not tell of its numbers that they have the range of their type,
/// so it is read once.
pub fn note_inputs(inputs: &Vec<i64>)
    ensures { AreInputs inputs.now.items }
{
    for at in 0..inputs.len() {
        note_input(inputs[at]);
    }
}
