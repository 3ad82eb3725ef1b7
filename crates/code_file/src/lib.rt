//! The file of code.
#![tactic(auto)]

mod count;
mod cursor;
mod encode;
mod fault;
mod file;
mod laws;
mod read;
mod values;
mod version;
mod widths;
mod write;

pub use encode::{version_for, version_number, write_code};
pub use fault::ReadFault;
pub use file::read_code;
pub use laws::{accepted_law, fault_laws, file_laws};
pub use version::Version;
