//! First frames of revisions.

ghost use Rattle.std.specs.Prelude.{◌≡◌, ◌≤◌, ◌<◌, ◌++◌, IfOk, length, drop};
ghost use Rattle.rev_code.specs.Step.{params};
ghost use Rattle.rev_vm.specs.Starts.{IsFirst};

use fun_run::begin;
use leg_run::Run;
use rev_code::CodeBlock;
use std::alloc::{AllocError, Global};

/// Puts words at the front of others.
fn put_front(words: &mut [u64], args: &[u64])
    requires { length args.now ≤ length words.old }
    ensures { words.new ≡ args.now ++ drop (length args.now) words.old }
{
    for at in 0..args.len() {
        words[at] = args[at];
    }
}

/// A revision in a first frame of this block, with these arguments.
pub fn first_frame(
    alloc: Global,
    b: &CodeBlock,
    n: u16,
    room: usize,
    args: &[u64],
    fuel: u64,
) -> Result<Run, AllocError>
    requires args { length args.now ≡ length (params b.now) }
    requires room { length b.now.locals ≤ room }
    ensures { IfOk result (λ r. IsFirst b.now n args.now room fuel r) }
{
    let mut words = vec![in alloc; 0; room]?;
    put_front(words.as_mut_slice(), args);
    let mut registers = begin(b, n, words.as_mut_slice(), 0);
    registers.fuel = fuel;
    Ok(Run {
        words,
        below: Vec::new(alloc),
        registers,
        text: Vec::new(alloc),
        forks: 0,
        meetings: Vec::new(alloc),
    })
}
