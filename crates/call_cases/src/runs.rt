//! Outcomes and traces of whole runs.

use case_tables::typed_of;
use plain_runner::{run_plain, trace_of};
use rev_num::Outcome;
use std::alloc::{AllocError, Global};
use std::test::Fail;
use trace_diagram::print_trace;

/// The most fuel that a fork gives.
const SHARE: u64 = 1000;

/// A child sells 30 of a stock of 100, while `main` puts 10 to it.
const SELLS: &str = "merge difference(m, j, r) = m + j - r; \
    cumulative stock: int by difference = 100; \
    proc sell(count: int) { stock = stock - count; } \
    main { let h = rfork sell(30); stock = stock + 10; rjoin h; print \"left\", stock; }";

/// Two revisions join the first one.
const JOINS_TWICE: &str = "proc b() { } proc c(h: rev) { rjoin h; } \
    main { let h = rfork b(); let c1 = rfork c(h); let d1 = rfork c(h); rjoin c1; rjoin d1; }";

/// How a run ended.
#[derive(Clone, Copy, PartialEq, Eq)]
enum Ended {
    Done,
    Trapped,
    Twice,
}

/// What `main` printed, and how the run ended.
fn ending(outcome: &Outcome) -> (&[u8], Ended) {
    match outcome {
        Outcome::Done { text, .. } => (text.as_slice(), Ended::Done),
        Outcome::Trapped { text, .. } => (text.as_slice(), Ended::Trapped),
        Outcome::Twice => (&[], Ended::Twice),
    }
}

/// Whether the run of a text with so much fuel prints this and ends so.
fn comes_to(
    alloc: Global,
    text: &str,
    fuel: u16,
    printed: &str,
    how: Ended,
) -> Result<bool, AllocError> {
    let Some(typed) = typed_of(alloc, text.as_bytes()) else {
        return Ok(false);
    };
    let outcome = run_plain(alloc, &typed, &[], SHARE, fuel as u64)?;
    let (told, end) = ending(&outcome);
    Ok(told == printed.as_bytes() && end == how)
}

#[test]
fn outcomes(rt: HostRuntime) -> Result<(), Fail> {
    let rows: &[(&str, u16, &str, Ended)] = &[
        (SELLS, 1000, "left 80\n", Ended::Done),
        (SELLS, 3, "", Ended::Trapped),
        (JOINS_TWICE, 1000, "", Ended::Twice),
    ];
    for (text, fuel, printed, how) in rows {
        assert!(rt;
            comes_to(rt.alloc(), text, *fuel, printed, *how)?,
            "{fuel}: {text}"
        );
    }
    Ok(())
}

/// The trace of the first text with fuel 1000.
const TRACE: &str = "revisions trace 1
revision 0
end done
fuel 498
write stock 70 root 100
revision main
forked 0 line 1
joined 0 line 1
end done
fuel 995
write stock 80 root 100
> left 80
";

#[test]
fn a_trace(rt: HostRuntime) -> Result<(), Fail> {
    let Some(typed) = typed_of(rt.alloc(), SELLS.as_bytes()) else {
        return Err(Fail::new("the text is refused"));
    };
    let Some(trace) = trace_of(rt.alloc(), &typed, &[], SHARE, 1000)? else {
        return Err(Fail::new("no trace"));
    };
    let text = print_trace(rt.alloc(), &trace)?;
    assert!(rt; text.as_slice() == TRACE.as_bytes());
    Ok(())
}
