//! The program: the standard streams as source and sinks, the words behind the program's name,
//! three kernels, and the status of the call as exit status.
#![tactic(auto)]

mod calling;

use calling::call;
use rev_io::{StdSink, StdSource};
use rev_top::out_of_memory;
use std::env::Env;
use std::process::ExitCode;
use std::{env, io};

/// The words behind the program's name.
fn words_given<R: Env + AllocGlobal>(rt: &R) -> io::Result<Vec<String>> {
    let mut words = Vec::new(rt.alloc());
    for word in env::args(rt)?.skip(1) {
        words.push(word)?;
    }
    Ok(words)
}

fn main(rt: HostRuntime) -> ExitCode {
    let mut source = StdSource::new(rt.stdin());
    let mut out = StdSink::new(rt.stdout());
    let mut err = StdSink::new(rt.stderr());
    let words = match words_given(&rt) {
        Ok(words) => words,
        Err(error) if error.kind() == io::ErrorKind::OutOfMemory => {
            return ExitCode::from(out_of_memory(&mut err));
        }
        // A word that is no UTF-8 is wrong usage, as no words are.
        Err(_) => Vec::new(rt.alloc()),
    };
    ExitCode::from(
        match call(&rt, words.as_slice(), &mut source, &mut out, &mut err) {
            Ok(status) => status,
            Err(_) => out_of_memory(&mut err),
        },
    )
}
