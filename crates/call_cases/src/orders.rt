//! Steps of two revisions in both orders.

ghost use Rattle.std.specs.Prelude.{IfOk};
ghost use Rattle.revision_machine.specs.Rules.{IsWithin};
ghost use Rattle.revision_machine.specs.States.{global_of};
ghost use Rattle.determinacy.specs.Rules.{rules_of};
ghost use Rattle.plain_runner.specs.Views.{setting_of};

use case_tables::typed_of;
use plain_runner::PlainLanguage;
use rev_num::Path;
use revision_machine::{BothOrders, GlobalState};
use revision_steps::Local;
use std::alloc::{AllocError, Global};
use std::test::Fail;

/// `main` forks a child and then two revisions that join it.
const TEXT: &str = "versioned h: rev; proc child() { } proc joiner() { rjoin h; } \
    main { h = rfork child(); rfork joiner(); rfork joiner(); }";

/// What steps in both orders come to.
#[derive(Clone, Copy, PartialEq, Eq)]
enum Came {
    Same,
    Twice,
    NoPair,
}

/// The state after a step of the revision at this path.
fn after<'a>(
    alloc: Global,
    language: &PlainLanguage<'a>,
    state: GlobalState<Local<'a>>,
    path: &Path,
) -> Result<GlobalState<Local<'a>>, AllocError>
    requires { IsWithin (rules_of (setting_of language.now)) (global_of state) }
    ensures { IfOk result (λ g. IsWithin (rules_of (setting_of language.now)) (global_of g)) }
{
    let (state, _outcome) = language.step(alloc, state, path)?;
    Ok(state)
}

/// The state after a step of this child of `main`.
fn after_child<'a>(
    alloc: Global,
    language: &PlainLanguage<'a>,
    state: GlobalState<Local<'a>>,
    k: u32,
) -> Result<GlobalState<Local<'a>>, AllocError>
    requires { IsWithin (rules_of (setting_of language.now)) (global_of state) }
    ensures { IfOk result (λ g. IsWithin (rules_of (setting_of language.now)) (global_of g)) }
{
    let path = Path::root(alloc).child(alloc, k)?;
    after(alloc, language, state, &path)
}

/// The state in which `main` has forked a child and its two joiners, and has a step left.
fn forked<'a>(
    alloc: Global,
    language: &PlainLanguage<'a>,
) -> Result<GlobalState<Local<'a>>, AllocError>
    ensures { IfOk result (λ g. IsWithin (rules_of (setting_of language.now)) (global_of g)) }
{
    let main = Path::root(alloc);
    let state = language.start(alloc, 100)?;
    let state = after(alloc, language, state, &main)?;
    let state = after(alloc, language, state, &main)?;
    after(alloc, language, state, &main)
}

/// The state in which both joiners stand at their joins.
fn joining<'a>(
    alloc: Global,
    language: &PlainLanguage<'a>,
    state: GlobalState<Local<'a>>,
) -> Result<GlobalState<Local<'a>>, AllocError>
    requires { IsWithin (rules_of (setting_of language.now)) (global_of state) }
    ensures { IfOk result (λ g. IsWithin (rules_of (setting_of language.now)) (global_of g)) }
{
    let state = after_child(alloc, language, state, 1)?;
    after_child(alloc, language, state, 2)
}

/// What steps of these children of `main` in both orders come to.
fn in_both_orders<'a>(
    alloc: Global,
    language: &PlainLanguage<'a>,
    state: &GlobalState<Local<'a>>,
    p: u32,
    q: u32,
) -> Result<Came, AllocError>
    requires { IsWithin (rules_of (setting_of language.now)) (global_of state.now) }
{
    let p = Path::root(alloc).child(alloc, p)?;
    let q = Path::root(alloc).child(alloc, q)?;
    Ok(match language.diamond_step(alloc, state, &p, &q)? {
        BothOrders::Same { .. } => Came::Same,
        BothOrders::Twice => Came::Twice,
        BothOrders::NoPair => Came::NoPair,
    })
}

/// Whether all pairs of children come to what stands beside them.
fn all_come<'a>(
    alloc: Global,
    language: &PlainLanguage<'a>,
    state: &GlobalState<Local<'a>>,
    rows: &[(u32, u32, Came)],
) -> Result<bool, AllocError>
    requires { IsWithin (rules_of (setting_of language.now)) (global_of state.now) }
{
    for (p, q, want) in rows {
        if in_both_orders(alloc, language, state, *p, *q)? != *want {
            return Ok(false);
        }
    }
    Ok(true)
}

/// Whether the joiners come to what they should, before their joins, at them, and when the child
/// has ended.
fn joiners_come<'a>(alloc: Global, language: &PlainLanguage<'a>) -> Result<bool, AllocError> {
    let state = forked(alloc, language)?;
    let first = all_come(alloc, language, &state, &[(1, 2, Came::Same)])?;
    let state = joining(alloc, language, state)?;
    let waiting = all_come(alloc, language, &state, &[(1, 2, Came::NoPair)])?;
    let state = after_child(alloc, language, state, 0)?;
    let rows: &[(u32, u32, Came)] = &[
        (1, 2, Came::Twice),
        (2, 1, Came::Twice),
        (1, 1, Came::NoPair),
        (0, 1, Came::NoPair),
        (3, 1, Came::NoPair),
    ];
    let ended = all_come(alloc, language, &state, rows)?;
    Ok(first && waiting && ended)
}

#[test]
fn joiners_of_one_revision(rt: HostRuntime) -> Result<(), Fail> {
    let Some(typed) = typed_of(rt.alloc(), TEXT.as_bytes()) else {
        return Err(Fail::new("the text is refused"));
    };
    let language = PlainLanguage::new(rt.alloc(), &typed, &[], 10)?;
    assert!(rt; joiners_come(rt.alloc(), &language)?);
    Ok(())
}
