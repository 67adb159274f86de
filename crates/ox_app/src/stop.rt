//! Why a run over a feed ends before the feed does.

ghost use Rattle.std.specs.Prelude.{◌≡◌};
ghost use Rattle.ox_app.specs.Status.{status_of};

use crate::status::Status;
use ox_bytes::Memory;
use ox_feed::FeedFault;
use ox_gated::Halt;
use ox_outside::Failed;

/// Why a run over a feed ended before the feed did.
#[derive(Clone, Copy, Debug, PartialEq, Eq)]
pub enum Stop {
    /// A call on a file failed, or there is no memory.
    Halt(Halt),
    /// Hearing on channel 0 failed.
    HearFault,
    /// Showing on channel 0 failed.
    ShowFault,
    /// As many bytes were heard as a feed may have, and it goes on.
    TooMuch,
}

/// How a run over a feed ends.
pub fn status(outcome: Result<(), Stop>) -> Status
    ensures { result ≡ status_of outcome }
{
    match outcome {
        Ok(()) => Status::Done,
        Err(Stop::Halt(halt)) => Status::halted(halt),
        Err(Stop::HearFault) => Status::HearFault,
        Err(Stop::ShowFault) => Status::ShowFault,
        Err(Stop::TooMuch) => Status::TooMuch,
    }
}

impl From<FeedFault> for Stop {
    ghost use Rattle.ox_app.specs.Fold.{stop_of};

    ghost from_gives = { λ fault stop. stop ≡ stop_of fault };

    fn from(fault: FeedFault) -> Stop {
        match fault {
            FeedFault::HearFault => Stop::HearFault,
            FeedFault::TooMuch => Stop::TooMuch,
            FeedFault::Memory => Stop::Halt(Halt::Memory),
        }
    }
}

impl From<Failed> for Stop {
    ghost use Rattle.ox_app.specs.declared.stop.Stop.TheVariants.{ShowFault};

    ghost from_gives = { λ _ stop. stop ≡ ShowFault };

    fn from(_failed: Failed) -> Stop {
        Stop::ShowFault
    }
}

impl From<Memory> for Stop {
    ghost use Rattle.ox_gated.specs.declared.fault.Halt.TheVariants as halts;
    ghost use Rattle.ox_app.specs.declared.stop.Stop.TheVariants as stops;

    ghost from_gives = { λ _ stop. stop ≡ stops.Halt halts.Memory };

    fn from(_memory: Memory) -> Stop {
        Stop::Halt(Halt::Memory)
    }
}
