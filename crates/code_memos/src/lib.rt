//! What is kept of the leaf revisions of a run, and for which revisions of another run it is valid;
//! and with what each revision begins. Each law is an empty function.
#![tactic(auto)]

mod birth;

ghost use Rattle.code_memos.specs.ByNumber.{AdoptByNumber, CountedByNumber};
ghost use Rattle.code_memos.specs.ByNumber.{LeafHasEntry, RecordedByNumber};
ghost use Rattle.code_memos.specs.Freshness.{UnlistedBegins, UnlistedByNumber};
ghost use Rattle.code_memos.specs.Laws.{EndsAreRenamed, LegsAreRenamed, ValidIsTheEnd};
ghost use Rattle.code_memos.specs.Memo.{OneEntry, OneMemo};
ghost use Rattle.code_memos.specs.Recording.{CountedIsReused, RecordedIsMemo, ReusedIsOne};
ghost use Rattle.code_memos.specs.Worlds.{ValidIsTheLeg};

pub use birth::birth_laws;

/// What a leg comes to, what it reads, and what a revision leaves that it ends, are the same
/// whatever a handle is.
pub fn handle_laws<H, K>()
    ensures legs { LegsAreRenamed H K }
    ensures ends { EndsAreRenamed H K }
{}

/// Where a kept entry is valid for a fresh revision of another run of the code, that revision's leg
/// ends it with what the entry has: by instructions, and in a world by number.
pub fn valid_laws()
    ensures end { ValidIsTheEnd }
    ensures leg { ValidIsTheLeg }
{}

/// The entry of a revision, and so the memo, does not depend on the schedule.
pub fn memo_laws()
    ensures entry { OneEntry }
    ensures memo { OneMemo }
{}

/// At the end of a complete run: entries of which each is one of the run, and that have one for
/// each revision that has listed no fork and no join, are the memo; and revisions that have a valid
/// entry, with none left out that has listed nothing, are as many as are reused, which is one
/// number.
pub fn record_laws()
    ensures memo { RecordedIsMemo }
    ensures reused { CountedIsReused }
    ensures one { ReusedIsOne }
{}

/// A running revision that has listed no fork and no join stands before its first instruction, in
/// the state with which it began: by paths, and in a world by number.
pub fn fresh_laws()
    ensures paths { UnlistedBegins }
    ensures numbers { UnlistedByNumber }
{}

/// What a run by number tells: a revision that has listed nothing and that its leg ends has an
/// entry; entries of a complete schedule are the memo, and revisions with a valid entry those that
/// are reused, where no revision is left out that has listed nothing; and one with a valid entry has
/// a leg, which ends it with what the entry has.
pub fn number_laws()
    ensures leaf { LeafHasEntry }
    ensures recorded { RecordedByNumber }
    ensures counted { CountedByNumber }
    ensures adopt { AdoptByNumber }
{}
