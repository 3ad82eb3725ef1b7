//! What a thread goes on with.
ghost use Rattle.std.specs.Prelude.{◌≡◌};
ghost use Rattle.hub_workers.specs.Nexts.{alone, of_onward, of_step};

use turn_hub::{EndStep, JoinAnswer, Onward};

/// What stands behind a revision while its thread runs it.
#[derive(Drop)]
pub enum Behind<R, A> {
    /// Nothing.
    Nothing,
    /// It has taken in the end of this joinee. Neither that end nor its join is an entry yet.
    Owing { joinee: u32 },
    /// Its child, which is before its leg, and which the thread keeps.
    Kept { child: u32, kept: R },
    /// Its joiner, which stays with the thread.
    Joiner { joiner: u32, at: A },
}

/// What a thread goes on with, between two calls of the hub.
#[derive(Drop)]
pub enum Next<R, A, C, S> {
    /// A revision before its leg, and what stands behind it.
    Run {
        number: u32,
        runner: R,
        behind: Behind<R, A>,
    },
    /// A joiner whose joinee has ended.
    Retry {
        number: u32,
        at: A,
    },
    /// A joiner, and how its join came out.
    Came {
        number: u32,
        answer: JoinAnswer<A, C, S>,
    },
    /// Nothing.
    Nothing,
}

/// A revision behind which nothing stands.
pub fn run_alone<R, A, C, S>(number: u32, runner: R) -> Next<R, A, C, S>
    ensures { result ≡ alone number runner }
{
    Next::Run {
        number,
        runner,
        behind: Behind::Nothing,
    }
}

/// What was handed out behind a joiner that waits.
pub fn after_joiner<R, A, C, S>(onward: Onward<R, A>) -> Next<R, A, C, S>
    ensures { result ≡ of_onward onward }
{
    match onward {
        Onward::Run { number, runner } => run_alone(number, runner),
        Onward::Retry { number, at } => Next::Retry { number, at },
        Onward::Nothing => Next::Nothing,
    }
}

/// What came behind an end.
pub fn after_end<R, A, C, S>(step: EndStep<R, A, C, S>) -> Next<R, A, C, S>
    ensures { result ≡ of_step step }
{
    match step {
        EndStep::Run { number, runner } => run_alone(number, runner),
        EndStep::Came { number, answer } => Next::Came { number, answer },
        EndStep::Nothing => Next::Nothing,
    }
}
