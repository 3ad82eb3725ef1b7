//! The values of a program's merges.

ghost use Rattle.std.specs.Prelude.{◌≡◌, ◌<◌, length};
ghost use Rattle.rev_num.specs.declared.value.Value.TheVariants as v;
ghost use Rattle.rev_syntax.specs.View.{program as whole};
ghost use Rattle.typed_programs.specs.Definitions.{merge_value_of};
ghost use Rattle.typed_programs.specs.Evaluation.{merge_answer};

use rev_evaluator::merge_value;
use rev_num::NumFault;
use typed_programs::Typed;

/// The value of the merge of this number, counted from 0 in order of declaration, of the joiner's,
/// the joinee's and the root's value, or its fault, as `rev_evaluator` answers it. It takes no
/// memory.
pub fn merged_value(
    typed: &Typed,
    merge: u32,
    main: i64,
    join: i64,
    root: i64,
) -> Result<i64, NumFault>
    requires { merge < length typed.now.expanded.merges }
    ensures { result
        ≡ merge_answer
        (merge_value_of (whole typed.now.expanded.program) merge (v.Int main) (v.Int join)
        (v.Int root)) }
{
    merge_value(&typed.expanded, merge, main, join, root)
}
