//! How a run ends.

ghost use Rattle.std.specs.Prelude.{◌≡◌};
ghost use Rattle.ox_app.specs.Status.{code_of, halt_status};

use ox_feed::FeedFault;
use ox_follow::BadFrame;
use ox_gated::Halt;
use ox_outside::Failed;

/// How a run ended.
#[derive(Clone, Copy, Debug, PartialEq, Eq)]
pub enum Status {
    /// Channel 0 was read to its end and each line was answered, the line or body was shown, or all
    /// turns were made and what was counted was shown. Of a leader: channel 0 ended behind a frame
    /// that was answered, or at once. Of a follower: it stands where its leader does.
    Done,
    /// The words are no subcommand.
    Usage,
    /// A store was to be made of files that aren't both empty.
    NotEmpty,
    /// The files are no store.
    NotStore,
    /// A call on a file failed.
    DiskFault,
    /// Hearing on channel 0 failed.
    HearFault,
    /// Showing on channel 0 failed.
    ShowFault,
    /// A call on a door failed.
    DoorFault,
    /// There is no memory.
    Memory,
    /// As many bytes were heard as a feed may have, and channel 0 hasn't ended.
    TooMuch,
    /// The present rules refuse a command of a store of version 1.
    OldCommand,
    /// No frame began so, one was none that this side takes, or channel 0 ended within one.
    BadFrame,
    /// A follower stands past the leader's own position.
    Ahead,
    /// Channel 0 ended before the leader said that the follower stands where it does.
    EndedEarly,
}

impl Status {
    /// The exit status of the process: 0 to 13, in the order above.
    pub fn code(self) -> u8
        ensures { result ≡ code_of self }
    {
        match self {
            Status::Done => 0,
            Status::Usage => 1,
            Status::NotEmpty => 2,
            Status::NotStore => 3,
            Status::DiskFault => 4,
            Status::HearFault => 5,
            Status::ShowFault => 6,
            Status::DoorFault => 7,
            Status::Memory => 8,
            Status::TooMuch => 9,
            Status::OldCommand => 10,
            Status::BadFrame => 11,
            Status::Ahead => 12,
            Status::EndedEarly => 13,
        }
    }

    /// How a run ends that was halted.
    pub fn halted(halt: Halt) -> Status
        ensures { result ≡ halt_status halt }
    {
        match halt {
            Halt::Disk => Status::DiskFault,
            Halt::Memory => Status::Memory,
        }
    }
}

impl From<FeedFault> for Status {
    ghost use Rattle.ox_app.specs.Status.{feed_status};

    ghost from_gives = { λ fault status. status ≡ feed_status fault };

    fn from(fault: FeedFault) -> Status {
        match fault {
            FeedFault::HearFault => Status::HearFault,
            FeedFault::TooMuch => Status::TooMuch,
            FeedFault::Memory => Status::Memory,
        }
    }
}

impl From<BadFrame> for Status {
    ghost use Rattle.ox_app.specs.declared.status.Status.TheVariants as ends;

    ghost from_gives = { λ _ status. status ≡ ends.BadFrame };

    fn from(_bad: BadFrame) -> Status {
        Status::BadFrame
    }
}

impl From<Failed> for Status {
    ghost use Rattle.ox_app.specs.declared.status.Status.TheVariants as ends;

    ghost from_gives = { λ _ status. status ≡ ends.ShowFault };

    fn from(_failed: Failed) -> Status {
        Status::ShowFault
    }
}
