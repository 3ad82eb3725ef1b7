//! Threads at one store: what they read of what they forked from, and that no segment stays in use.
ghost use Rattle.std.specs.Prelude.{◌≡◌, ◌≤◌, vec_len};
ghost use Rattle.std.specs.Thread.{IsSync};
ghost use Rattle.segment_store.specs.Names.{IsOf, IsSeatOf};
ghost use Rattle.version_map.specs.Deltas.{locations};
ghost use Rattle.thread_cases.specs.Parts.{IsPart};

use segment_store::{Hold, Spent, Store};
use std::alloc::Global;
use std::test::Fail;
use std::thread::{Threads, join_mut};
use version_map::{Delta, How};

const ROUNDS: u32 = 100_000;

// What one thread works with: a hold, the delta over it, and what is left of the holds that it gave
// back. It tells the first and the last word that it read, and how often something was wrong.
struct Part {
    hold: Hold,
    delta: Delta,
    all: Spent,
    first: u64,
    last: u64,
    wrong: u64,
}

// What a thread does: it reads, or it forks, reads, collapses and releases, so many times.
#[derive(Clone, Copy)]
enum Work {
    Look,
    Rounds(u32),
}

fn part_of(store: &Store, mut hold: Hold, delta: Delta) -> Part
    requires { IsOf store.now hold × (vec_len store.now.initial ≡ 70) × (locations delta ≡ 70) }
    ensures { IsPart store.entry.now result.hold result.delta result.all }
{
    let all = store.purse(&mut hold);
    Part {
        hold,
        delta,
        all,
        first: 0,
        last: 0,
        wrong: 0,
    }
}

// Gives all back, and tells the two words and how often something was wrong.
fn give_back(store: &Store, part: Part, all: &mut Spent) -> (u64, u64, u64)
    requires part { IsPart store.now part.hold part.delta part.all }
    requires own { IsSeatOf store.now all.old.seat }
    ensures { IsSeatOf store.entry.now all.new.seat }
{
    let Part {
        hold,
        delta: _,
        all: more,
        first,
        last,
        wrong,
    } = part;
    store.gather(all, more);
    store.gather(all, store.release(hold));
    (first, last, wrong)
}

fn look(store: &Store, part: &mut Part)
    requires { IsPart store.now part.old.hold part.old.delta part.old.all }
    ensures { IsPart store.entry.now part.new.hold part.new.delta part.new.all }
{
    store.collapse(&mut part.hold, &mut part.delta);
    part.first = store.read(&mut part.hold, 0);
    part.last = store.read(&mut part.hold, 69);
}

// A fork whose child should read this word at the last location.
fn round(alloc: Global, store: &Store, part: &mut Part, word: u64)
    requires { IsPart store.now part.old.hold part.old.delta part.old.all }
    ensures { IsPart store.entry.now part.new.hold part.new.delta part.new.all }
{
    part.delta.set(69, word);
    match store.fork(alloc, &mut part.hold, &mut part.delta) {
        Ok((mut child, _)) => {
            if store.read(&mut child, 69) != word {
                part.wrong = part.wrong.saturating_add(1);
            }
            store.gather(&mut part.all, store.release(child));
        },
        Err(_) => part.wrong = part.wrong.saturating_add(1),
    }
    store.collapse(&mut part.hold, &mut part.delta);
}

fn rounds(alloc: Global, store: &Store, part: &mut Part, count: u32)
    requires { IsPart store.now part.old.hold part.old.delta part.old.all }
    ensures { IsPart store.entry.now part.new.hold part.new.delta part.new.all }
{
    for word in 0..count {
        round(alloc, store, part, word as u64);
    }
}

fn play_part(alloc: Global, store: &Store, part: &mut Part, kind: Work)
    requires { IsPart store.now part.old.hold part.old.delta part.old.all }
    ensures { IsPart store.entry.now part.new.hold part.new.delta part.new.all }
{
    match kind {
        Work::Look => look(store, part),
        Work::Rounds(count) => rounds(alloc, store, part, count),
    }
}

fn in_two_threads<R: Threads + Sync>(
    rt: &R,
    alloc: Global,
    store: &Store,
    one: &mut Part,
    other: &mut Part,
    kind: Work,
)
    requires one { IsPart store.now one.old.hold one.old.delta one.old.all }
    requires other { IsPart store.now other.old.hold other.old.delta other.old.all }
    ensures one { IsPart store.entry.now one.new.hold one.new.delta one.new.all }
    ensures other { IsPart store.entry.now other.new.hold other.new.delta other.new.all }
{
    let mut front = ||
        requires { IsPart store.now one.now.hold one.now.delta one.now.all }
        ensures { IsPart store.entry.now one.exit.now.hold one.exit.now.delta one.exit.now.all }
    { play_part(alloc, store, one, kind) };
    let mut back = ||
        requires { IsPart store.now other.now.hold other.now.delta other.now.all }
        ensures { IsPart store.entry.now other.exit.now.hold other.exit.now.delta
            other.exit.now.all }
    { play_part(alloc, store, other, kind) };
    join_mut(rt, &mut front, &mut back);
}

#[test]
fn two_threads_read_what_they_forked_from(rt: HostRuntime) -> Result<(), Fail> {
    let alloc = rt.alloc();
    let words = vec![in alloc; 5; 70]?;
    let more = Delta::new(alloc, 70)?;
    let mut delta = Delta::new(alloc, 70)?;
    let (store, mut main) = Store::open(alloc, 2, words)?;
    let mut all = store.purse(&mut main);
    delta.set(33, 6);
    delta.set(69, 7);
    let (child, how) = store
        .fork(alloc, &mut main, &mut delta)
        .expect(&rt, "memory");
    assert!(rt; how == How::Shared && delta.is_empty());
    delta.set(69, 9);
    let (second, how) = store
        .fork(alloc, &mut main, &mut delta)
        .expect(&rt, "memory");
    assert!(rt; how == How::Shared && delta.is_empty());
    delta.set(0, 8);
    let (mut copy, how) = store
        .fork(alloc, &mut main, &mut delta)
        .expect(&rt, "memory");
    assert!(rt; how == How::Copied && !delta.is_empty());
    // The first segment's 9 hides the second's 7, and what no segment has comes from the root.
    let here = store.read(&mut copy, 0);
    let lower = store.read(&mut copy, 33);
    let root = store.read(&mut copy, 34);
    let upper = store.read(&mut copy, 69);
    assert!(rt; here == 8 && lower == 6 && root == 5 && upper == 9);
    store.gather(&mut all, store.release(copy));
    let mut one = part_of(&store, child, more);
    let mut other = part_of(&store, main, delta);
    in_two_threads(&rt, alloc, &store, &mut one, &mut other, Work::Look);
    let (a0, a1, _) = give_back(&store, one, &mut all);
    let (b0, b1, _) = give_back(&store, other, &mut all);
    assert!(rt; a0 == 5 && a1 == 7 && b0 == 5 && b1 == 9);
    store.gather(&mut all, store.release(second));
    let closed = store.close(all);
    assert!(rt; closed.out() == 0 && closed.live() == 0);
    Ok(())
}

#[test]
fn two_threads_leave_no_segment_in_use(rt: HostRuntime) -> Result<(), Fail> {
    let alloc = rt.alloc();
    let words = vec![in alloc; 5; 70]?;
    let mut none = Delta::new(alloc, 70)?;
    let more = Delta::new(alloc, 70)?;
    let (store, mut main) = Store::open(alloc, 2, words)?;
    let mut all = store.purse(&mut main);
    let (child, _) = store
        .fork(alloc, &mut main, &mut none)
        .expect(&rt, "memory");
    let mut one = part_of(&store, child, more);
    let mut other = part_of(&store, main, none);
    in_two_threads(
        &rt,
        alloc,
        &store,
        &mut one,
        &mut other,
        Work::Rounds(ROUNDS),
    );
    let (_, _, wrong) = give_back(&store, one, &mut all);
    let (_, _, more) = give_back(&store, other, &mut all);
    let closed = store.close(all);
    assert!(rt; wrong == 0 && more == 0);
    assert!(rt; closed.out() == 0 && closed.live() == 0);
    Ok(())
}

// Forks at so many locations in turn, which each get their number, and gives each child back at
// once. `wrong` says how often a fork did not share.
fn climb(alloc: Global, store: &Store, part: &mut Part, count: u32)
    requires { IsPart store.now part.old.hold part.old.delta part.old.all × (count ≤ 70) }
    ensures { IsPart store.entry.now part.new.hold part.new.delta part.new.all }
{
    for location in 0..count {
        part.delta.set(location, location as u64);
        match store.fork(alloc, &mut part.hold, &mut part.delta) {
            Ok((child, how)) => {
                if how == How::Copied {
                    part.wrong = part.wrong.saturating_add(1);
                }
                store.gather(&mut part.all, store.release(child));
            },
            Err(_) => part.wrong = part.wrong.saturating_add(1),
        }
    }
}

// How many of the first locations do not have their own number.
fn wrong_below(store: &Store, part: &mut Part, count: u32) -> u64
    requires { IsPart store.now part.old.hold part.old.delta part.old.all × (count ≤ 70) }
    ensures { IsPart store.entry.now part.new.hold part.new.delta part.new.all }
{
    let mut wrong: u64 = 0;
    for location in 0..count {
        if store.read(&mut part.hold, location) != location as u64 {
            wrong = wrong.saturating_add(1);
        }
    }
    wrong
}

#[test]
fn forty_forks_in_a_row_read_right(rt: HostRuntime) -> Result<(), Fail> {
    let alloc = rt.alloc();
    let words = vec![in alloc; 5; 70]?;
    let delta = Delta::new(alloc, 70)?;
    let (store, mut main) = Store::open(alloc, 40, words)?;
    let mut all = store.purse(&mut main);
    let mut part = part_of(&store, main, delta);
    climb(alloc, &store, &mut part, 40);
    let wrong = wrong_below(&store, &mut part, 40);
    let below = store.read(&mut part.hold, 41);
    let (_, _, copied) = give_back(&store, part, &mut all);
    assert!(rt; copied == 0 && wrong == 0 && below == 5);
    let closed = store.close(all);
    assert!(rt; closed.out() == 0 && closed.live() == 0);
    Ok(())
}
