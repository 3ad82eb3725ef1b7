//! Tables for streams: sources and sinks in memory, and over readers and writers of std. And the plain
//! interpreter: what steps of two revisions in both orders come to, and whole runs.
#![tactic(auto)]

#[cfg(test)]
mod orders;
#[cfg(test)]
mod runs;
#[cfg(test)]
mod streams;
