ghost use Rattle.std.specs.Prelude.{◌≡◌, Option, Some, None};
ghost use Rattle.mr_model.specs.Refusals.{number_of, name_of, line_of};
ghost use Rattle.mr_base.specs.RefusalViews.{refusal_of};
ghost use Rattle.mr_base.specs.declared.refusals.Refusal.TheVariants.{OutOfMemory};

use std::alloc::{AllocError, AllocFailed};

/// Why a call was refused. The number in a case is the line of the batch that it is about, counted from 1.
#[derive(Clone, Copy, Debug, PartialEq, Eq)]
pub enum Refusal {
    BadDay,
    BadTime,
    BadLength,
    BadRoomName,
    BadTitle,
    TooManyAlternatives,
    UnknownRoom,
    RoomThere,
    NoSuchRequest,
    NotPrimary,
    PrimaryKeepsAll,
    BeyondCommitted,
    ClockExhausted,
    CountExhausted,
    BadLine(u64),
    WrongPrimary,
    Gap(u64),
    OutOfOrder(u64),
    Forged(u64),
    OwnWrite(u64),
    PrimaryOnly(u64),
    Truncated,
    BadPosition,
    OutOfMemory,
    Store,
    NotAReplica,
    NeedsVersion2,
}

impl Refusal {
    /// Its number, from 1 to 27.
    pub fn number(&self) -> u32
        ensures { result ≡ number_of (refusal_of self.now) }
    {
        match self {
            Refusal::BadDay => 1,
            Refusal::BadTime => 2,
            Refusal::BadLength => 3,
            Refusal::BadRoomName => 4,
            Refusal::BadTitle => 5,
            Refusal::TooManyAlternatives => 6,
            Refusal::UnknownRoom => 7,
            Refusal::RoomThere => 8,
            Refusal::NoSuchRequest => 9,
            Refusal::NotPrimary => 10,
            Refusal::PrimaryKeepsAll => 11,
            Refusal::BeyondCommitted => 12,
            Refusal::ClockExhausted => 13,
            Refusal::CountExhausted => 14,
            Refusal::BadLine(_) => 15,
            Refusal::WrongPrimary => 16,
            Refusal::Gap(_) => 17,
            Refusal::OutOfOrder(_) => 18,
            Refusal::Forged(_) => 19,
            Refusal::OwnWrite(_) => 20,
            Refusal::PrimaryOnly(_) => 21,
            Refusal::Truncated => 22,
            Refusal::BadPosition => 23,
            Refusal::OutOfMemory => 24,
            Refusal::Store => 25,
            Refusal::NotAReplica => 26,
            Refusal::NeedsVersion2 => 27,
        }
    }

    /// Its name, as replies print it.
    pub fn name(&self) -> &'static str
        ensures { result.now ≡ name_of (refusal_of self.now) }
    {
        match self {
            Refusal::BadDay => "BadDay",
            Refusal::BadTime => "BadTime",
            Refusal::BadLength => "BadLength",
            Refusal::BadRoomName => "BadRoomName",
            Refusal::BadTitle => "BadTitle",
            Refusal::TooManyAlternatives => "TooManyAlternatives",
            Refusal::UnknownRoom => "UnknownRoom",
            Refusal::RoomThere => "RoomThere",
            Refusal::NoSuchRequest => "NoSuchRequest",
            Refusal::NotPrimary => "NotPrimary",
            Refusal::PrimaryKeepsAll => "PrimaryKeepsAll",
            Refusal::BeyondCommitted => "BeyondCommitted",
            Refusal::ClockExhausted => "ClockExhausted",
            Refusal::CountExhausted => "CountExhausted",
            Refusal::BadLine(_) => "BadLine",
            Refusal::WrongPrimary => "WrongPrimary",
            Refusal::Gap(_) => "Gap",
            Refusal::OutOfOrder(_) => "OutOfOrder",
            Refusal::Forged(_) => "Forged",
            Refusal::OwnWrite(_) => "OwnWrite",
            Refusal::PrimaryOnly(_) => "PrimaryOnly",
            Refusal::Truncated => "Truncated",
            Refusal::BadPosition => "BadPosition",
            Refusal::OutOfMemory => "OutOfMemory",
            Refusal::Store => "Store",
            Refusal::NotAReplica => "NotAReplica",
            Refusal::NeedsVersion2 => "NeedsVersion2",
        }
    }

    /// The line of a batch that it is about, if it is about one.
    pub fn line(&self) -> Option<u64>
        ensures { result ≡ line_of (refusal_of self.now) }
    {
        match self {
            Refusal::BadLine(line)
            | Refusal::Gap(line)
            | Refusal::OutOfOrder(line)
            | Refusal::Forged(line)
            | Refusal::OwnWrite(line)
            | Refusal::PrimaryOnly(line) => Some(*line),
            _ => None,
        }
    }
}

impl From<AllocError> for Refusal {
    ghost from_gives = { λ _ e. e ≡ OutOfMemory };

    fn from(_error: AllocError) -> Refusal {
        Refusal::OutOfMemory
    }
}

impl<T: Drop> From<AllocFailed<T>> for Refusal {
    ghost from_gives = { λ _ e. e ≡ OutOfMemory };

    fn from(_error: AllocFailed<T>) -> Refusal {
        Refusal::OutOfMemory
    }
}
