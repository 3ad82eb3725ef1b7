//! What comes first: it is read before the plan of a call, and taken out of the records behind it.
ghost use Rattle.std.specs.Prelude.{◌≡◌, ◌<◌, ◌≤◌, ◌++◌, length, true, Some, vec_len};
ghost use Rattle.hub_core.specs.declared.status.Status.{Status};
ghost use Rattle.hub_core.specs.Chains.{IsWithin};
ghost use Rattle.hub_core.specs.Marks.{first_in};
ghost use Rattle.hub_core.specs.Tally.{record_at};
ghost use Rattle.turn_hub.specs.Comings.{first_after, coming_of, coming_deeds, IsFirstKept};
ghost use Rattle.turn_hub.specs.Comings.{IsOpenRecord};
ghost use Rattle.turn_hub.specs.Comings.{IsFirstTaken, IsClaimed, IsComing, FirstJoins, HasGoneOn};

use crate::answers::{EndStep, Onward};
use crate::coming::Coming;
use crate::drawing::first_ready;
use crate::joinee::Joinee;
use crate::seeking::joinee_of;
use crate::taking_in::take_in;
use hub_core::{Deed, Plan, Records, Revision, RunQueue, Status, empty};

/// The first that is ready is taken.
pub(crate) fn first_coming(queue: &RunQueue) -> Coming
    ensures { result ≡ coming_of (first_in queue.now.ready) }
{
    match first_ready(queue) {
        None => Coming::Nobody,
        Some(number) => Coming::Takes(number),
    }
}

/// What the seat does with what comes first, behind what is planned.
pub(crate) fn plan_coming(plan: &mut Plan, coming: Coming)
    requires { vec_len plan.old.deeds ≤ 3 }
    ensures deeds { plan.new.deeds.items ≡ plan.old.deeds.items ++ coming_deeds coming }
    ensures same { (plan.new.leaves ≡ plan.old.leaves) × (plan.new.keeps ≡ plan.old.keeps) }
{
    match coming {
        Coming::Nobody => {},
        Coming::Takes(number) => plan.add(Deed::Draws(number)),
        Coming::Claims { number, .. } | Coming::Stops(number) => {
            plan.add(Deed::Draws(number));
            plan.add(Deed::Commits(number));
        },
    }
}

/// The first that is ready is out from now on.
pub(crate) fn take_first<R, A, E>(records: &mut Records<R, A, E>) -> Onward<R, A>
    requires within { IsWithin records.old.queue.ready (length records.old.queue.links.items) }
    requires first { IsFirstKept records.old.list.items (first_in records.old.queue.ready) }
    ensures { IsFirstTaken records.old records.new result }
{
    let Some(number) = first_ready(&records.queue) else {
        return Onward::Nothing;
    };
    records.queue.take();
    match records.exchange(number, Status::Out) {
        Status::Ready(runner) => Onward::Run { number, runner },
        Status::Waiting(at) => Onward::Retry { number, at },
        other => {
            empty(Some(other));
            unreachable!()
        },
    }
}

// What comes first once this revision has ended: what waits for that, and else what is ready.
fn first_once_ended(queue: &RunQueue, of: u32) -> Option<u32>
    requires { of < length queue.now.waiters.items }
    ensures { result ≡ first_after queue.now of }
{
    match queue.waiters[of as usize] {
        None => first_ready(queue),
        Some(chain) => Some(chain.first),
    }
}

// Whether a joinee has an end to take in once the revision `of` has ended.
fn is_claimed<R, A, E>(records: &Records<R, A, E>, of: u32, joinee: u32) -> bool
    ensures { IsClaimed records.now.list.items of joinee result }
{
    if joinee == of {
        return true;
    }
    match joinee_of(records, joinee) {
        Joinee::Over => true,
        Joinee::Gone => false,
        Joinee::Open => false,
        Joinee::Nowhere => false,
    }
}

// What the seat does with what comes first, whose record this is.
fn coming_by<L: Revision>(
    records: &Records<L::Runner, L::AtJoin, L::End>,
    of: u32,
    number: u32,
    known: &Option<Status<L::Runner, L::AtJoin, L::End>>,
) -> Coming
    requires first { first_after records.now.queue of ≡ Some number }
    requires record { record_at records.now.list.items number ≡ known.now }
    requires open { (x : Status L.Runner L.AtJoin L.End) × (known.now ≡ Some x) × IsOpenRecord x }
    ensures { IsComing L.machine records.now of result }
{
    match known {
        Some(Status::Ready(_)) => Coming::Takes(number),
        Some(Status::Waiting(at)) => {
            let joinee = L::on(at);
            if is_claimed(records, of, joinee) {
                return Coming::Claims { number, joinee };
            }
            Coming::Stops(number)
        },
        _ => unreachable!(),
    }
}

/// What comes once this revision has ended.
pub(crate) fn coming_after<L: Revision>(
    records: &Records<L::Runner, L::AtJoin, L::End>,
    of: u32,
) -> Coming
    requires reach { of < length records.now.queue.waiters.items }
    requires first { IsFirstKept records.now.list.items (first_after records.now.queue of) }
    ensures { IsComing L.machine records.now of result }
{
    let Some(number) = first_once_ended(&records.queue, of) else {
        return Coming::Nobody;
    };
    match records.list.as_slice().get(number as usize) {
        None => unreachable!(),
        Some(known) => coming_by::<L>(records, of, number, known),
    }
}

/// The first that is ready is out from now on, and where that is a joiner, it takes in the end of
/// its joinee.
pub(crate) fn go_on<L: Revision>(
    records: &mut Records<L::Runner, L::AtJoin, L::End>,
) -> EndStep<L::Runner, L::AtJoin, L::Claimed, L::Stopped>
    requires within { IsWithin records.old.queue.ready (length records.old.queue.links.items) }
    requires first { IsFirstKept records.old.list.items (first_in records.old.queue.ready) }
    requires joins { FirstJoins L.machine records.old.list.items (first_in records.old.queue.ready) }
    ensures { HasGoneOn L.machine L.ends L.claimed L.stopped L.claimed_group L.stopped_group
        records.old records.new result }
{
    match take_first(records) {
        Onward::Nothing => EndStep::Nothing,
        Onward::Run { number, runner } => EndStep::Run { number, runner },
        Onward::Retry { number, at } => {
            let joinee = L::on(&at);
            match records.exchange(joinee, Status::Gone) {
                Status::Over(end) => {
                    EndStep::Came {
                        number,
                        answer: take_in::<L>(at, end),
                    }
                },
                other => {
                    empty(Some(other));
                    unreachable!()
                },
            }
        },
    }
}
