//! A closure beside the definition whose value it answers, and one for eight lanes.

ghost use Rattle.std.specs.Prelude.{◌≡◌, ◌≤◌, ◌+◌, ◌*◌, ℕ, IfSome, None, Some, drop, is_some, length, true};
ghost use Rattle.merge_kernels.specs.Answering.{Answers, RowAnswers};
ghost use Rattle.merge_kernels.specs.Equal.{equal};
ghost use Rattle.merge_kernels.specs.Lanes.{lanes_answer};
ghost use Rattle.version_map.specs.Composing.{Merges};
ghost use Rattle.version_map.specs.Following.{Follow};
ghost use Rattle.version_map.specs.Parts.{HasPut};
ghost use Rattle.merge_kernels.specs.Rows.{AreValues};
ghost use Rattle.merge_kernels.specs.Terms.{answer_of, definition};

use crate::lanes::{note_lanes, put_lanes};
use crate::term::MergeDef;
use crate::words::ints_of;
use rev_num::{NumFault, int_of_word, word_of_int};
use version_map::{Written, eight_roots, eight_values, eight_words};

/// A merge as a closure, of the joiner's, the joinee's and the root's number.
pub type NumberRun = Box<dyn Fn(i64, i64, i64) -> Result<i64, NumFault> + Send + Sync>;

/// A merge of eight lanes as a closure: none where one of them faults.
pub type RowRun = Box<dyn Fn([i64; 8], [i64; 8], [i64; 8]) -> Option<[i64; 8]> + Send + Sync>;

/// A closure for eight lanes, and the definition whose values it answers.
#[derive(Drop)]
pub struct RowKernel {
    def: MergeDef,
    run: RowRun,
    ghost callable: { RowRun.IsAlwaysCallable run },
    ghost answers: { RowAnswers (RowRun.post run) (definition def) },
}

impl RowKernel {
    /// A closure that answers this definition's values for all lanes: Some exactly where no lane
    /// faults. It takes no memory.
    pub fn new(def: MergeDef, run: RowRun) -> RowKernel
        requires callable { RowRun.IsAlwaysCallable run }
        requires answers { RowAnswers (RowRun.post run) (definition def) }
        ensures { result.def ≡ def }
    {
        RowKernel { def, run }
    }

    /// The values of the definition for eight lanes, or none where one faults.
    #[inline(always)]
    pub fn call(&self, main: [i64; 8], join: [i64; 8], root: [i64; 8]) -> Option<[i64; 8]>
        ensures { result ≡ lanes_answer (answer_of (definition self.now.def)) main join root }
    {
        note_lanes(&main);
        note_lanes(&join);
        note_lanes(&root);
        (self.run)(main, join, root)
    }

    /// Puts the merges of so many eights of written locations from this place on by the definition, up
    /// to the first that has a fault, and tells of how many. The closure is called here, so that room for
    /// its answer is made once, and not for each eight.
    pub(crate) fn put_eights(
        &self,
        mains: &[u64],
        written: &[Written],
        at: usize,
        eights: usize,
        values: &mut [u64],
    ) -> usize
        requires mains { length mains.now ≡ length written.now }
        requires values { length values.old ≡ length written.now }
        requires inside { at + 8 * eights ≤ length written.now }
        ensures length { length values.new ≡ length values.old }
        ensures most { result ≤ eights }
        ensures put { (merges : Merges ℕ) (first : ℕ)
            → Follow (drop at written.now) first (8 * eights)
            → AreValues (definition self.now.def) merges first (8 * eights)
            → HasPut merges mains.now written.now at (8 * result) values.old values.new }
    {
        for eight in 0..eights {
            let place = at + 8 * eight;
            match (self.run)(
                ints_of(eight_words(mains, place)),
                ints_of(eight_values(written, place)),
                ints_of(eight_roots(written, place)),
            ) {
                Some(ints) => put_lanes(&ints, values, place),
                None => return eight,
            }
        }
        eights
    }
}

/// A definition, and closures that may always be called and answer its value: one for three
/// numbers, and maybe one for eight lanes.
#[derive(Drop)]
pub struct Kernel {
    def: MergeDef,
    run: NumberRun,
    row: Option<RowKernel>,
    ghost callable: { NumberRun.IsAlwaysCallable run },
    ghost answers: { Answers (NumberRun.post run) (definition def) },
    ghost same: { (r : _) → row ≡ Some r → equal (definition r.def) (definition def) ≡ true },
}

impl Kernel {
    /// A closure that answers this definition's value for all numbers, with no row. It takes no
    /// memory.
    pub fn new(def: MergeDef, run: NumberRun) -> Kernel
        requires callable { NumberRun.IsAlwaysCallable run }
        requires answers { Answers (NumberRun.post run) (definition def) }
        ensures def { result.def ≡ def }
        ensures row { result.row ≡ None }
    {
        Kernel {
            def,
            run,
            row: None,
        }
    }

    /// The same with a row, which is of the same definition. It takes no memory.
    pub fn with_row(self, row: RowKernel) -> Kernel
        requires { equal (definition row.def) (definition self.def) ≡ true }
        ensures def { result.def ≡ self.def }
        ensures row { result.row ≡ Some row }
    {
        let Kernel { def, run, row: _ } = self;
        Kernel {
            def,
            run,
            row: Some(row),
        }
    }

    /// The definition.
    pub fn def(&self) -> &MergeDef
        ensures { result.now ≡ self.now.def }
    {
        &self.def
    }

    /// The value of the definition.
    pub fn call(&self, main: i64, join: i64, root: i64) -> Result<i64, NumFault>
        ensures { result ≡ answer_of (definition self.now.def) main join root }
    {
        (self.run)(main, join, root)
    }

    /// Puts the merges of so many written locations from this place on by the definition, one by one,
    /// up to the first that has a fault, and tells of how many.
    pub(crate) fn put_ones(
        &self,
        mains: &[u64],
        written: &[Written],
        at: usize,
        many: usize,
        values: &mut [u64],
    ) -> usize
        requires mains { length mains.now ≡ length written.now }
        requires values { length values.old ≡ length written.now }
        requires inside { at + many ≤ length written.now }
        ensures length { length values.new ≡ length values.old }
        ensures most { result ≤ many }
        ensures put { (merges : Merges ℕ) (first : ℕ) → Follow (drop at written.now) first many
            → AreValues (definition self.now.def) merges first many
            → HasPut merges mains.now written.now at result values.old values.new }
    {
        for k in 0..many {
            let w = written[at + k];
            let main = int_of_word(mains[at + k]);
            let join = int_of_word(w.value);
            let root = int_of_word(w.root);
            match (self.run)(main, join, root) {
                Ok(value) => values[at + k] = word_of_int(value),
                Err(_) => return k,
            }
        }
        many
    }

    /// The row, if there is one.
    pub fn row(&self) -> Option<&RowKernel>
        ensures any { is_some result ≡ is_some self.now.row }
        ensures same { IfSome result
            (λ r. equal (definition r.now.def) (definition self.now.def) ≡ true) }
    {
        self.row.as_ref()
    }
}
