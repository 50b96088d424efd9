//! Connections to a peer: which address is meant.

ghost use Rattle.std.specs.Prelude.{◌≡◌, IfErr};
ghost use Rattle.mr_http.specs.declared.faults.WebFault.TheVariants.{Read};

use mr_http::WebFault;
use std::net::TcpStream;

/// A connection to the host of this name, written as in a URL.
pub(crate) fn connect(rt: &HostRuntime, name: &str, port: u16) -> Result<TcpStream, WebFault>
    ensures { IfErr result (λ e. e ≡ Read) }
{
    match TcpStream::connect(rt, (address_of(name), port)) {
        Ok(stream) => Ok(stream),
        Err(_) => Err(WebFault::Read),
    }
}

/// A URL writes an address of version 6 in brackets, which a resolver doesn't know.
fn address_of(name: &str) -> &str {
    match name.strip_prefix('[') {
        Some(rest) => rest.strip_suffix(']').unwrap_or(name),
        None => name,
    }
}
