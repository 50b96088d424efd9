ghost use Rattle.std.specs.Prelude.{◌≡◌, false, IfOk, IsTrue, MatchOption};
ghost use Rattle.std.specs.List.{list_all};
ghost use Rattle.std.specs.String.{string_bytes};
ghost use Rattle.mr_model.specs.Texts.{within};
ghost use Rattle.mr_peer.specs.PeerRequests.{is_host};
ghost use Rattle.mr_net.specs.Hosts.{host_name};

use std::alloc::{AllocError, Global};
use std::marker::Model;

/// What the Host line of a request names: 1 to 300 bytes from 0x21 to 0x7E. In contracts it is the list of these bytes.
#[derive(Drop)]
pub(crate) struct Host {
    text: String,
}

impl Model for Host {
    ghost use Rattle.std.specs.Prelude.{ℕ, List, IsTrue};
    ghost use Rattle.std.specs.String.{string_bytes};
    ghost use Rattle.mr_peer.specs.PeerRequests.{is_host};

    ghost Value = { List ℕ };

    ghost view = { λ h. string_bytes h.text };

    ghost invariant = { λ h. IsTrue (is_host (string_bytes h.text)) };
}

impl Host {
    /// The host with its port, if that isn't 80. It is None if no request may name it.
    pub(crate) fn new(alloc: Global, host: &str, port: u16) -> Result<Option<Host>, AllocError>
        ensures { IfOk result (λ named. MatchOption named (is_host (host_name host.now port) ≡ false)
            (λ h. (h ≡ host_name host.now port) × IsTrue (is_host (host_name host.now port)))) }
    {
        let text = named(alloc, host, port)?;
        if is_host_text(text.as_bytes()) {
            Ok(Some(Host { text }))
        } else {
            Ok(None)
        }
    }

    pub(crate) fn as_str(&self) -> &str
        ensures named { result.now ≡ self.now }
        ensures is_host { IsTrue (is_host result.now) }
    {
        self.text.as_str()
    }
}

fn named(alloc: Global, host: &str, port: u16) -> Result<String, AllocError>
    ensures { IfOk result (λ text. string_bytes text ≡ host_name host.now port) }
{
    if port == 80 {
        String::from_str(alloc, host)
    } else {
        format!(in alloc; "{host}:{port}")
    }
}

fn is_host_text(text: &[u8]) -> bool
    ensures { result ≡ is_host text.now }
{
    text.len() >= 1 && text.len() <= 300 && are_visible(text)
}

fn are_visible(text: &[u8]) -> bool
    ensures { result ≡ list_all (within 0x21 0x7E) text.now }
{
    text.iter().all(|byte| *byte >= 0x21 && *byte <= 0x7E)
}
