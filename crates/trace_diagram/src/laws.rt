//! Laws, each of which is a function that does nothing: what it ensures holds of every trace and of
//! all bytes.

ghost use Rattle.trace_diagram.specs.Laws.{FaultsAreNoTexts, FirstFaultsAreUnique};
ghost use Rattle.trace_diagram.specs.Laws.{PartsAreTold, TracesHaveOneText};

/// The text of a trace, and what the lines of a part tell of it: all but the number of the location
/// whose merge faulted.
pub fn text_laws()
    ensures one { TracesHaveOneText }
    ensures parts { PartsAreTold }
{}

/// The first fault of bytes: no trace text has one, and there is one at most.
pub fn fault_laws()
    ensures no_text { FaultsAreNoTexts }
    ensures unique { FirstFaultsAreUnique }
{}
