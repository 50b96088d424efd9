//! A keeper as the service of its replica, with its rows in memory. The code between opening and closing a database is generic over the keeper:
//! a call on the keeper of a file is dear to prove, so each command makes exactly one.

ghost use Rattle.std.specs.Prelude.{◌≡◌};

use mr_service::Service;
use mr_store::{Cached, Keeper};
use std::alloc::Global;

/// The replica of this keeper. Its rows are read at the first command, and again after a change that failed or that memory didn't take.
pub(crate) fn remembered<K: Keeper>(alloc: Global, keeper: K) -> Service<Cached<K>>
    ensures { result ≡ keeper }
{
    Service::new(alloc, Cached::new(alloc, keeper))
}

/// Gives the keeper back, with all that was done.
pub(crate) fn released<K: Keeper>(service: Service<Cached<K>>) -> K
    ensures { result ≡ service }
{
    service.into_keeper().release()
}
