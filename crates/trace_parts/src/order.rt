//! Puts the parts of a trace into post-order.

ghost use Rattle.std.specs.Prelude.{◌≡◌};
ghost use Rattle.std.specs.List.Sorted.{IsPermutation, IsSortedBy};
ghost use Rattle.trace_parts.specs.PartOfRevision.{is_sooner, post_order};

use rev_num::Path;
use std::cmp::Ordering;
use trace_diagram::Part;

/// How the first path stands to the second in post-order.
fn post_order(first: &Path, second: &Path) -> Ordering
    ensures { result ≡ post_order first.now second.now }
{
    if Path::after_in_post_order(second, first) {
        Ordering::Less
    } else if first.is(second) {
        Ordering::Equal
    } else {
        Ordering::Greater
    }
}

/// Puts the parts into post-order.
pub fn put_in_order(parts: &mut Vec<Part>)
    ensures moved { IsPermutation parts.old.items parts.new.items }
    ensures sorted { IsSortedBy is_sooner parts.new.items }
{
    parts.sort_unstable_by(|a, b| post_order(&a.path, &b.path));
}
