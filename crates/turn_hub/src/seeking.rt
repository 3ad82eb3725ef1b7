//! What a hub has of the joinee of a joiner.
ghost use Rattle.std.specs.Prelude.{◌≡◌, true, Some};
ghost use Rattle.hub_core.specs.declared.status.Status.TheVariants.{Ready};
ghost use Rattle.hub_core.specs.Marks.{first_in};
ghost use Rattle.hub_core.specs.Tally.{record_at};
ghost use Rattle.turn_hub.specs.Joinings.{IsJoinee};

use crate::joinee::Joinee;
use hub_core::{Records, Status};

// What this record says.
fn kind_of<R, A, E>(known: &Option<Status<R, A, E>>) -> Joinee
    ensures { IsJoinee known.now result }
{
    match known {
        None => Joinee::Nowhere,
        Some(Status::Over(_)) => Joinee::Over,
        Some(Status::Gone) => Joinee::Gone,
        Some(_) => Joinee::Open,
    }
}

/// What the record of the revision of this number says.
pub(crate) fn joinee_of<R, A, E>(records: &Records<R, A, E>, number: u32) -> Joinee
    ensures { IsJoinee (record_at records.now.list.items number) result }
{
    match records.list.as_slice().get(number as usize) {
        None => Joinee::Nowhere,
        Some(known) => kind_of(known),
    }
}

// Whether this record is of a revision that is before its leg, and that no seat has.
fn is_runner<R, A, E>(known: &Option<Status<R, A, E>>) -> bool
    ensures { result ≡ true → (r : R) × (known.now ≡ Some (Ready r)) }
{
    match known {
        Some(Status::Ready(_)) => true,
        _ => false,
    }
}

/// Whether the revision of this number is the first that is ready, and before its leg.
pub(crate) fn comes_next<R, A, E>(records: &Records<R, A, E>, number: u32) -> bool
    ensures first { result ≡ true → first_in records.now.queue.ready ≡ Some number }
    ensures ready { result ≡ true
        → (r : R) × (record_at records.now.list.items number ≡ Some (Ready r)) }
{
    if !records.queue.comes_first(number) {
        return false;
    }
    match records.list.as_slice().get(number as usize) {
        None => false,
        Some(known) => is_runner(known),
    }
}
