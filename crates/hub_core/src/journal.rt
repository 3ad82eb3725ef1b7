//! What the turns entered, and room for what the close makes of it.
ghost use Rattle.std.specs.Prelude.{◌≡◌, ◌<◌, ◌≤◌, ◌+◌, ◌*◌, ◌^◌, [], vec_len, vec_capacity};

/// An entry of a turn, and how many revisions there were then.
#[derive(Clone, Copy)]
pub struct Entry {
    pub count: u32,
    pub number: u32,
}

/// A round without its child: the joinee that ended, and the forker that joined it.
#[derive(Clone, Copy)]
pub struct Looped {
    pub joinee: u32,
    pub forker: u32,
}

/// What the turns entered, in order. The empty lists have room for the revisions below the limit:
/// each has a forker and an end, and may have a round, of three entries.
#[derive(Drop)]
pub struct Journal<E> {
    pub entries: Vec<Entry>,
    pub limit: usize,
    pub schedule: Vec<u32>,
    pub forkers: Vec<u32>,
    pub rounds: Vec<Option<Looped>>,
    pub ends: Vec<Option<E>>,
    ghost few: { limit < 2 ^ 32 },
    ghost schedule_room: { (schedule.items ≡ [])
        × (3 * limit + vec_len entries ≤ vec_capacity schedule) },
    ghost forkers_room: { (forkers.items ≡ []) × (limit ≤ vec_capacity forkers) },
    ghost rounds_room: { (rounds.items ≡ []) × (limit ≤ vec_capacity rounds) },
    ghost ends_room: { (ends.items ≡ []) × (limit ≤ vec_capacity ends) },
}
