//! Bytes have one verdict: an audit of a trace text answers the same whatever trace it takes the
//! bytes for.

ghost use Rattle.audit_rules.specs.Traces.{Always};
ghost use Rattle.program_texts.specs.Verdicts.{EachTextHasOne, SameTracesHaveSame};
ghost use Rattle.program_texts.specs.Verdicts.{TextsHaveOneTrace, TextsHaveOneVerdict};

/// Traces with one text are the same but for the numbers of the locations of merges, and their
/// verdicts say the same, for every program without a fault, with every input, share and fuel. What
/// is a trace text has a verdict.
pub fn text_verdict_laws()
    ensures same_trace { TextsHaveOneTrace }
    ensures same_verdict { Always SameTracesHaveSame }
    ensures one { Always TextsHaveOneVerdict }
    ensures has_one { Always EachTextHasOne }
{}
