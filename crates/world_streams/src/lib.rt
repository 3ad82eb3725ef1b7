//! Runs of verified code on one thread that print as they run.
#![tactic(auto)]

mod fault;
mod leg;
mod pieces;
mod run;
mod streamer;
mod streaming;

pub use fault::StreamFault;
pub use leg::stream_leg;
pub use pieces::piece_laws;
pub use run::stream;
pub use streaming::stream_code;
