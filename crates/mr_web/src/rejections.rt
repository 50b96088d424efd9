ghost use Rattle.std.specs.Prelude.{◌≡◌};
ghost use Rattle.mr_http.specs.declared.faults.ReadFault.TheVariants.{Memory};
ghost use Rattle.mr_web.specs.declared.rejections.Stop.TheVariants.{Fault};

use mr_http::ReadFault;
use std::alloc::{AllocError, AllocFailed};

/// The first check that a request fails.
#[derive(Clone, Copy)]
pub(crate) enum Rejection {
    BadRequest,
    NotFound,
    /// The path takes another method: POST, or else GET.
    NotAllowed { takes_post: bool },
    TooLarge,
}

/// Why a request asks no command.
#[derive(Clone, Copy)]
pub(crate) enum Stop {
    Rejected(Rejection),
    Fault(ReadFault),
}

impl From<ReadFault> for Stop {
    ghost from_gives = { λ f e. e ≡ Fault f };

    fn from(fault: ReadFault) -> Stop {
        Stop::Fault(fault)
    }
}

impl From<AllocError> for Stop {
    ghost from_gives = { λ _ e. e ≡ Fault Memory };

    fn from(_error: AllocError) -> Stop {
        Stop::Fault(ReadFault::Memory)
    }
}

impl<T: Drop> From<AllocFailed<T>> for Stop {
    ghost from_gives = { λ _ e. e ≡ Fault Memory };

    fn from(_error: AllocFailed<T>) -> Stop {
        Stop::Fault(ReadFault::Memory)
    }
}
