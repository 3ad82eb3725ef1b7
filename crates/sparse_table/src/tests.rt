//! Two threads make the parts of one table.
ghost use Rattle.std.specs.Prelude.{◌≡◌, ◌+◌, ◌*◌, ◌<◌, false};
ghost use Rattle.sparse_table.specs.Halves.{Holds, Makes, IsHalf};

use crate::{PartRule, Seat, Table};
use atomic_table::{Play, Split};
use std::test::Fail;
use std::thread::{Threads, join_mut};

// One seat, which may make no part, or two, which may each make half of the parts.
struct Halves;

impl PartRule<u64, ()> for Halves {
    ghost holds = { λ _. Holds };

    ghost first = { λ _. 0 };

    ghost makes = { Makes };

    ghost needs = { λ _ _. false };
}

struct Quiet;

impl Play<(), u64> for Quiet {
    ghost then = { λ _ m _ u. u.0 ≡ m.0 };
}

struct Halve;

impl Split<u64> for Halve {
    ghost left = { λ _. 1 };

    ghost right = { λ _. 2 };
}

type Halved = Table<u64, (), Halves>;

// What one thread works with: a seat, the first part of its half, and how often it read another word
// than it had written.
#[derive(Drop)]
struct Half {
    seat: Seat<u64>,
    from: usize,
    wrong: u64,
}

// Makes a part, writes its last word, and says whether that is read. The first word of all counts how
// often that was done.
fn make(table: &Halved, half: &mut Half, k: usize) -> bool
    requires { IsHalf table.now half.old.seat half.old.from × (k < 8) }
    ensures { IsHalf table.entry.now half.new.seat half.new.from }
{
    let part = half.from + k * 64;
    let last = part + 63;
    table.attach(&mut half.seat, part);
    table.store::<Quiet>(&mut half.seat, part, last, part as u64);
    table.add_head::<Quiet>(&mut half.seat, 0, 1);
    table.load::<Quiet>(&mut half.seat, part, last) == part as u64
}

fn make_all(table: &Halved, half: &mut Half)
    requires { IsHalf table.now half.old.seat half.old.from }
    ensures { IsHalf table.entry.now half.new.seat half.new.from }
{
    for k in 0..8 {
        if !make(table, half, k) {
            half.wrong = half.wrong.saturating_add(1);
        }
    }
}

fn in_two_threads<R: Threads + Sync>(rt: &R, table: &Halved, one: &mut Half, other: &mut Half)
    requires one { IsHalf table.now one.old.seat one.old.from }
    requires other { IsHalf table.now other.old.seat other.old.from }
    ensures one { IsHalf table.entry.now one.new.seat one.new.from }
    ensures other { IsHalf table.entry.now other.new.seat other.new.from }
{
    let mut front = ||
        requires { IsHalf table.now one.now.seat one.now.from }
        ensures { IsHalf table.entry.now one.exit.now.seat one.exit.now.from }
    { make_all(table, one) };
    let mut back = ||
        requires { IsHalf table.now other.now.seat other.now.from }
        ensures { IsHalf table.entry.now other.exit.now.seat other.exit.now.from }
    { make_all(table, other) };
    join_mut(rt, &mut front, &mut back);
}

#[test]
fn two_threads_make_the_parts_of_one_table(rt: HostRuntime) -> Result<(), Fail> {
    let (table, mut seat) = Halved::open(rt.alloc(), 1024, 64, 1, ())?;
    let second = table.split_seat::<Halve>(&mut seat);
    let mut one = Half {
        seat,
        from: 0,
        wrong: 0,
    };
    let mut other = Half {
        seat: second,
        from: 512,
        wrong: 0,
    };
    in_two_threads(&rt, &table, &mut one, &mut other);
    let Half {
        seat,
        from: _,
        wrong,
    } = one;
    assert!(rt; wrong == 0 && other.wrong == 0);
    let mut closed = table.close_with(seat);
    let count = closed.head(0);
    let last = closed.head(960);
    closed.free();
    assert!(rt; count == 17 && last == 0);
    Ok(())
}
