//! A body while its code is written.

use name_tables::NameTable;
use rev_code::Instr;

/// The code so far, the locals in scope, and the numbers of the next `let` and of the next layout.
#[derive(Drop)]
pub struct Body {
    pub code: Vec<Instr>,
    pub scope: NameTable<u8>,
    pub local: u8,
    pub layout: u32,
}
