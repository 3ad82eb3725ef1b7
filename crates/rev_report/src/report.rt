//! Reports.

/// What a call writes on standard output and on standard error, and its status.
#[derive(Drop)]
pub struct Report {
    pub out: Vec<u8>,
    pub err: Vec<u8>,
    pub status: u8,
}
