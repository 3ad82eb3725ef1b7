//! A kernel in a list, by its definition.

ghost use Rattle.std.specs.Prelude.{◌≡◌, ◌<◌, IfNone, IfSome, Some, is_some, length, map, slice_get};
ghost use Rattle.merge_kernels.specs.Lists.{IsFirst, IsNowhere};
ghost use Rattle.merge_kernels.specs.Terms.{definition};

use crate::equal::same;
use crate::kernel::Kernel;
use crate::term::MergeDef;

/// The kernel at this place.
pub fn kernel_at(kernels: &[Kernel], n: usize) -> &Kernel
    requires { n < length kernels.now }
    ensures row { slice_get (map (λ k. is_some k.row) kernels.now) n
        ≡ Some (is_some result.now.row) }
    ensures def { slice_get (map (λ k. definition k.def) kernels.now) n
        ≡ Some (definition result.now.def) }
{
    &kernels[n]
}

/// The least place of a kernel with this definition; none exactly where no kernel has it. It takes
/// no memory.
pub fn find(kernels: &[Kernel], def: &MergeDef) -> Option<usize>
    ensures some { IfSome result
        (IsFirst (map (λ k. definition k.def) kernels.now) (definition def.now)) }
    ensures none { IfNone result
        (IsNowhere (map (λ k. definition k.def) kernels.now) (definition def.now)) }
{
    for n in 0..kernels.len() {
        if same(kernel_at(kernels, n).def(), def) {
            return Some(n);
        }
    }
    None
}
