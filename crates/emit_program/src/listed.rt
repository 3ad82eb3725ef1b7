//! What is listed.

use rev_code::LayoutItem;
use rev_kinds::Locals;
use rev_num::{Bytes, Items, ValueKind};

/// The locals in scope, the kinds of all locals, and the texts and layouts of the prints so far.
#[derive(Drop)]
pub struct Listed {
    pub locals: Locals,
    pub kinds: Vec<ValueKind>,
    pub texts: Vec<Bytes>,
    pub layouts: Vec<Items<LayoutItem>>,
}
