//! What a program declares.

use typed_programs::SharedInfo;

/// The tables of a program: its shared variables in order, the numbers of the declarations that are
/// procedures, and how many locations there are.
#[derive(Drop)]
pub struct Tables {
    pub shared: Vec<SharedInfo>,
    pub procs: Vec<u32>,
    pub locations: u32,
}
