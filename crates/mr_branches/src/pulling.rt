//! A round of an exchange over HTTP between two offices, on a line that may be cut anywhere.

ghost use Rattle.std.specs.Prelude.{◌≡◌, take, true, IsTrue};
ghost use Rattle.mr_peer.specs.PeerRequests.{is_host};
ghost use Rattle.mr_branches.specs.Pulling.{PullsBetween, PushesBetween};

use mr_base::{Ending, Position};
use mr_http::WebFault;
use mr_peer::{pull_ask, pull_take, push_ask, push_take};
use mr_service::Service;
use mr_store::Keeper;
use mr_web::serve_one;
use std::alloc::Global;

// The first bytes, or all.
fn front_of(bytes: &[u8], count: usize) -> &[u8]
    ensures { result.now ≡ take count bytes.now }
{
    if count >= bytes.len() {
        return bytes;
    }
    &bytes[..count]
}

/// The client pulls from the server over a line that breaks off behind so many bytes of the request, and so many of the response.
pub fn pull_between<C: Keeper, S: Keeper>(
    alloc: Global,
    client: &mut Service<C>,
    server: &mut Service<S>,
    host: &str,
    sent: usize,
    told: usize,
) -> Result<(u64, u64, Ending), WebFault>
    requires { IsTrue (is_host host.now) }
    ensures { PullsBetween C.Keeper S.Keeper client.old client.new server.old server.new }
{
    let mut request = Vec::new(alloc);
    pull_ask(alloc, client, host, &mut request)?;
    let mut response = Vec::new(alloc);
    let mut line = front_of(request.as_slice(), sent);
    serve_one(alloc, &mut line, &mut response, server)?;
    let mut back = front_of(response.as_slice(), told);
    pull_take(alloc, client, &mut back)
}

/// The client pushes to the server, which is at this position, over a line that breaks off so.
pub fn push_between<C: Keeper, S: Keeper>(
    alloc: Global,
    client: &mut Service<C>,
    server: &mut Service<S>,
    position: &Position,
    host: &str,
    sent: usize,
    told: usize,
) -> Result<(u64, u64, Ending), WebFault>
    requires { IsTrue (is_host host.now) }
    ensures { PushesBetween C.Keeper S.Keeper position.now client.old client.new server.old server.new }
{
    let mut request = Vec::new(alloc);
    let ending = push_ask(alloc, client, position, host, &mut request)?;
    let mut response = Vec::new(alloc);
    let mut line = front_of(request.as_slice(), sent);
    serve_one(alloc, &mut line, &mut response, server)?;
    let mut back = front_of(response.as_slice(), told);
    let (writes, commits) = push_take(alloc, &mut back)?;
    Ok((writes, commits, ending))
}
