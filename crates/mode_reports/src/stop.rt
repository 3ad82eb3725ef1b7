//! Why there is no report.
ghost use Rattle.std.specs.Prelude.{◌≡◌};
ghost use Rattle.mode_reports.specs.declared.stop.Stop.TheVariants as stops;
ghost use Rattle.mode_reports.specs.Stops.{stop_of_reading, stop_of_words};

use rev_io::ReadText;
use rev_report::Refusal;
use rev_words::WordsFault;
use std::alloc::AllocError;

/// Why there is no report.
#[derive(Drop)]
pub enum Stop {
    Refused(Refusal),
    OutOfMemory,
}

impl From<AllocError> for Stop {
    ghost from_gives = { λ _ e. e ≡ stops.OutOfMemory };

    fn from(_error: AllocError) -> Stop {
        Stop::OutOfMemory
    }
}

impl From<WordsFault> for Stop {
    ghost from_gives = { λ fault e. e ≡ stop_of_words fault };

    fn from(fault: WordsFault) -> Stop {
        match fault {
            WordsFault::Usage => Stop::Refused(Refusal::Usage),
            WordsFault::OutOfMemory => Stop::OutOfMemory,
        }
    }
}

impl From<ReadText> for Stop {
    ghost from_gives = { λ fault e. e ≡ stop_of_reading fault };

    fn from(fault: ReadText) -> Stop {
        match fault {
            ReadText::Fault => Stop::Refused(Refusal::ReadFault),
            ReadText::TooLong => Stop::Refused(Refusal::TooLong),
            ReadText::OutOfMemory => Stop::OutOfMemory,
        }
    }
}
