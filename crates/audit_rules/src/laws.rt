//! Laws of audits, each of which is a function that does nothing: what it ensures holds of every
//! program without a fault, with every input, share and fuel.

ghost use Rattle.audit_rules.specs.Parts.{OwnRunsFit};
ghost use Rattle.audit_rules.specs.Traces.{Always, EachIsComputed, EndHasTrace, HasVerdict};
ghost use Rattle.audit_rules.specs.Traces.{TraceHasYes, VerdictIsOne, YesTells};
ghost use Rattle.audit_rules.specs.Verdicts.{EachHasOne, TraceIsYes, YesIsTrue};
ghost use Rattle.revision_calculus.specs.Program.{Setting};
ghost use Rattle.std.specs.Prelude.{ℕ};

/// A yes to parts in post-order tells that the final state of every complete run is not that of a
/// second join, and has the stated parts as its trace, but for the numbers of merges' locations;
/// each final state that is not that of a second join has a trace, which gets a yes. Each revision
/// has one computed part, and there is one verdict, where a no names the first revision in
/// post-order whose stated and computed parts differ. What a revision passes on its own is of the
/// kinds and shapes of the program, and has at most the fuel of the start.
pub fn audit_laws()
    ensures yes { Always YesTells }
    ensures listed { (s : Setting) (fuel : ℕ) → EndHasTrace s fuel }
    ensures trace { Always TraceHasYes }
    ensures computed { Always EachIsComputed }
    ensures verdict { Always HasVerdict }
    ensures one_verdict { Always VerdictIsOne }
    ensures own_runs { Always OwnRunsFit }
{}

/// What an audit answers: each trace has one verdict; a yes to what has the form of a trace tells
/// that the end of every complete run is not that of a second join, and has this trace by its text;
/// and the trace of the end of a complete run has a yes, and nothing else.
pub fn verdict_laws()
    ensures yes { Always YesIsTrue }
    ensures trace { Always TraceIsYes }
    ensures one { Always EachHasOne }
{}
