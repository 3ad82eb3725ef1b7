//! The records that a hub has of revisions, by number.
ghost use Rattle.std.specs.Prelude.{◌≡◌, ◌≤◌, ◌^◌, [], vec_len, vec_capacity};

use crate::kept::Kept;
use crate::run_queue::RunQueue;
use crate::status::Status;

/// The records by number, their run queue, and room for what the close leaves. Of a child that a
/// seat keeps there is no record.
#[derive(Drop)]
pub struct Records<R, A, E> {
    pub list: Vec<Option<Status<R, A, E>>>,
    pub queue: RunQueue,
    pub kept: Vec<Kept<R, A>>,
    ghost few: { vec_len list ≤ 2 ^ 32 },
    ghost kept_room: { (kept.items ≡ []) × (vec_len list ≤ vec_capacity kept) },
}
