//! Theory of texts that are programs: that of the mode `load` is one, and none has a line with
//! which a trace begins.
#![tactic(auto)]

ghost use Rattle.program_texts.specs.Laws.{LoadMakesPrograms, NoProgramBeginsATrace};

mod forms;
mod readings;
mod verdicts;

pub use forms::{form_law, written_law};
pub use readings::reading_law;
pub use verdicts::text_verdict_laws;

/// For each seed and each size in range the text that `load` makes is a program: it has tokens,
/// they are one tree, and the tree keeps the rules on funs and is well typed.
pub fn load_law()
    ensures { LoadMakesPrograms }
{}

/// No text of which the tokens are a program has a line that is `revisions trace 1`.
pub fn line_law()
    ensures { NoProgramBeginsATrace }
{}
