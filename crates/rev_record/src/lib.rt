//! Code run on one thread so that its leaf revisions are recorded, and once more so that the ends
//! of those that have not changed are taken over.
#![tactic(auto)]

mod ending;
mod entry;
mod entry_laws;
mod kinds;
mod making;
mod memo;
mod notes;
mod reads;
mod recorder;
mod recording;
mod repeater;
mod repeating;
mod repeats;
mod run_laws;
mod run_memos;
mod valid;
mod values;

pub use ending::end_over;
pub use entry::{Given, KeptValue, LeafEnd, LeafEntry};
pub use entry_laws::{adopt_laws, fresh_law, leaf_law};
pub use making::make_entry;
pub use memo::Memo;
pub use notes::blank;
pub use recording::record_run;
pub use repeating::repeat;
pub use repeats::{RepeatedRun, record_code, repeat_code};
pub use run_laws::{counting_laws, leaf_laws, recording_laws};
pub use run_memos::memo_laws;
pub use valid::is_valid;
