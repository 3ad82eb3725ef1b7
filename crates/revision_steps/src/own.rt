//! What a running revision does by itself.

use crate::local::Local;

/// What a running revision has done: a step of its own, or a fork with its child.
#[derive(Drop)]
pub enum Own<'a> {
    Moved,
    Forked(Local<'a>),
}
