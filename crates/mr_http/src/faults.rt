ghost use Rattle.std.specs.Prelude.{◌≡◌};
ghost use Rattle.mr_http.specs.Faults.{web_fault};
ghost use Rattle.mr_http.specs.declared.faults.ReadFault.TheVariants.{Memory};

use mr_base::Refusal;
use std::alloc::{AllocError, AllocFailed};
use thiserror::Error;

/// Why no more could be read.
#[derive(Clone, Copy, Debug, PartialEq, Eq)]
pub enum ReadFault {
    /// A read failed.
    Read,
    /// There was no room for the bytes.
    Memory,
}

impl From<AllocError> for ReadFault {
    ghost from_gives = { λ _ e. e ≡ Memory };

    fn from(_error: AllocError) -> ReadFault {
        ReadFault::Memory
    }
}

impl<T: Drop> From<AllocFailed<T>> for ReadFault {
    ghost from_gives = { λ _ e. e ≡ Memory };

    fn from(_error: AllocFailed<T>) -> ReadFault {
        ReadFault::Memory
    }
}

/// Why a connection came to nothing.
#[derive(Clone, Copy, Debug, PartialEq, Eq, Error)]
pub enum WebFault {
    /// A read failed, or there was no connection. A server that reports it ran no command; a client's peer may have done what it was asked.
    #[error("a read failed")]
    Read,
    /// A write failed. A prefix of the bytes went out, and a command that was served stands.
    #[error("a write failed")]
    Write,
    /// There was no room for the bytes, or for what was read of them.
    #[error("out of memory")]
    Memory,
    /// The peer's reply is none that the profile allows.
    #[error("bad reply")]
    BadReply,
    /// The peer replied with this status, which isn't 200.
    #[error("the peer answered {0}")]
    Peer(u16),
    /// This replica refused.
    #[error("refused")]
    Own(Refusal),
}

impl From<ReadFault> for WebFault {
    ghost from_gives = { λ f e. e ≡ web_fault f };

    fn from(fault: ReadFault) -> WebFault {
        match fault {
            ReadFault::Read => WebFault::Read,
            ReadFault::Memory => WebFault::Memory,
        }
    }
}
