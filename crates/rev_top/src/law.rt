//! Laws of the definitions: functions that do nothing, whose clauses are the laws.
ghost use Rattle.rev_top.specs.Findings.{FrontEnd};
ghost use Rattle.rev_top.specs.RanLaws.{RanLaw};
ghost use Rattle.rev_top.specs.Statuses.{ListingLaw, OneAnswer, StatusLaw};
ghost use Rattle.rev_top.specs.StreamLaws.{PrintsFirstParts};
ghost use Rattle.rev_top.specs.TextLaws.{AuditsOwnTrace, LoadEndsAsRuns, LoadIsAccepted};
ghost use Rattle.rev_top.specs.TextLaws.{NoProgramBeginsATrace, TraceHasForm};
ghost use Rattle.rev_top.specs.Writes.{WritingLaw};

use code_file::file_laws;

/// To the same words and bytes there is one answer, and no other. `order` alone can have several,
/// which differ in the schedule that they write, and agree in message and status.
pub fn one_answer()
    ensures { OneAnswer }
{}

/// What is written where nothing fails is what is shown of an answer to the same words and bytes,
/// and of each answer it is written.
pub fn writing_law()
    ensures { WritingLaw }
{}

/// Why an answer to words with a reading has its status: 1 exactly where `main` trapped, 3 exactly
/// where a revision was joined twice, and 2 exactly where the source is too long, its text, its
/// code file or its trace is at fault, or an entry of the schedule has no leg, of which the first
/// fault is reported.
pub fn statuses()
    ensures { StatusLaw }
{}

/// Of bytes that are not too many `dis` lists the code of which they are the file, if it keeps all
/// rules, and lists nothing else.
pub fn listing_law()
    ensures { ListingLaw }
{
    file_laws();
}

/// A text that is not too long is at fault in its tokens, its syntax, its funs or another static
/// rule, or it is accepted: one of these holds, and no other. What is accepted is what the top call
/// takes as a program, and it meets the premise of the laws on kinds.
pub fn one_finding()
    ensures { FrontEnd }
{}

/// What is handed out of a run follows from what happened in the call, whatever the source tells.
pub fn ran_law()
    ensures { RanLaw }
{}

/// For each seed and each size in range the text that `load` makes is accepted, and so an answer of
/// `load` has the status of a run: done, trapped, or a revision was joined twice.
pub fn load_law()
    ensures accepted { LoadIsAccepted }
    ensures ends { LoadEndsAsRuns }
{}

/// Behind whole lines of a text that is accepted no trace begins. For words that have a reading, and
/// a text of at most 1,048,576 bytes, what `trace` writes of it has the form of a trace text. So the
/// answer of `audit` to such a text of whole lines and the trace of its runs is `yes`, where both
/// together are not too long.
pub fn trace_law()
    ensures none_begins { NoProgramBeginsATrace }
    ensures form { TraceHasForm }
    ensures own_trace { AuditsOwnTrace }
{}

/// Of a program that keeps the affine rule: whatever happens in a call of `stream` and whatever its
/// status is, standard output takes a first part of what `main` has printed at the end of every
/// complete run.
pub fn stream_law()
    ensures { PrintsFirstParts }
{}
