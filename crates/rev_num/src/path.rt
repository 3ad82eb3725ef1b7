//! The path of a revision.

ghost use Rattle.std.specs.Prelude.{◌≡◌, [], IfOk};
ghost use Rattle.std.specs.Cmp.Lexicographic.{nat_list_eq_equiv};
ghost use Rattle.std.specs.Cmp.{partial_equiv_from_equiv};
ghost use Rattle.rev_num.specs.Path.{before, child, same};

use std::alloc::{AllocError, Global};
use std::marker::Model;

/// The path of a revision: `main` is the empty path, and the k-th fork of a revision, counted from
/// 0, has the forker's path and then `k`.
#[derive(Drop)]
pub struct Path {
    forks: Vec<u32>,
}

impl Model for Path {
    ghost use Rattle.std.specs.Prelude.{List, ℕ};

    ghost Value = { List ℕ };

    ghost view = { λ a. a.forks.items };
}

impl PartialEq for Path {
    ghost eq = { same };

    ghost laws = { partial_equiv_from_equiv nat_list_eq_equiv };

    fn eq(&self, other: &Path) -> bool {
        self.forks.as_slice() == other.forks.as_slice()
    }
}

impl Eq for Path {
    ghost laws = { nat_list_eq_equiv };
}

impl Path {
    /// The path of `main`.
    pub fn root(alloc: Global) -> Path
        ensures { result ≡ [] }
    {
        Path {
            forks: Vec::new(alloc),
        }
    }

    /// The path of these numbers, from `main` on.
    pub fn from_numbers(forks: Vec<u32>) -> Path
        ensures { result ≡ forks.items }
    {
        Path { forks }
    }

    /// The path of the revision's k-th fork.
    pub fn child(&self, alloc: Global, k: u32) -> Result<Path, AllocError>
        ensures { IfOk result (λ p. p ≡ child self.now k) }
    {
        let mut forks = Vec::with_capacity(alloc, self.forks.len() + 1)?;
        forks.extend_from_slice(self.forks.as_slice())?;
        forks.push(k)?;
        Ok(Path { forks })
    }

    /// An equal path.
    pub fn copy(&self, alloc: Global) -> Result<Path, AllocError>
        ensures { IfOk result (λ p. p ≡ self.now) }
    {
        Ok(Path {
            forks: Vec::from_slice(alloc, self.forks.as_slice())?,
        })
    }

    /// The numbers of the path, from `main` on.
    pub fn numbers(&self) -> &[u32]
        ensures { result.now ≡ self.now }
    {
        self.forks.as_slice()
    }

    /// Whether two paths name the same revision.
    pub fn is(&self, other: &Path) -> bool
        ensures { result ≡ same self.now other.now }
    {
        self == other
    }

    /// Whether `b` comes before `a` in post-order.
    pub fn after_in_post_order(a: &Path, b: &Path) -> bool
        ensures { result ≡ before b.now a.now }
    {
        comes_before(b.numbers(), a.numbers())
    }
}

/// Whether the first list properly extends the second, or is less at the first difference.
fn comes_before(q: &[u32], r: &[u32]) -> bool
    ensures { result ≡ before q.now r.now }
{
    for i in 0..q.len().min(r.len()) {
        if q[i] != r[i] {
            return q[i] < r[i];
        }
    }
    r.len() < q.len()
}
