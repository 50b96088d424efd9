//! The address of a peer.

ghost use Rattle.std.specs.Prelude.{◌≡◌, ◌⊎◌, ℕ, List, MatchResult};
ghost use Rattle.std.specs.String.{string_bytes};
ghost use Rattle.url.specs.declared.error.ParseError.TheVariants.{OutOfMemory, Overflow};
ghost use Rattle.mr_words.specs.declared.address.AddressFault.TheVariants.{Bad, Memory};
ghost use Rattle.mr_words.specs.Addresses.{IsAddress, IsAddressOf, has_plain_parts};

use std::alloc::{AllocError, Global};
use url::{ParseError, Url};

/// Why a text is no address of a peer.
#[derive(Clone, Copy, Debug, PartialEq, Eq)]
pub enum AddressFault {
    /// The text is no plain `http` URL.
    Bad,
    Memory,
}

impl From<AllocError> for AddressFault {
    ghost from_gives = { λ _ e. e ≡ Memory };

    fn from(_error: AllocError) -> AddressFault {
        AddressFault::Memory
    }
}

/// The host, as a URL writes it, and the port of a peer's address: an `http` URL with a host of at most 255 bytes, a
/// port or none (80), and nothing else but `/`. `Memory` also stands for a URL that is too long for `url`.
pub fn peer_address(alloc: Global, text: &str) -> Result<(String, u16), AddressFault>
    ensures { MatchResult result (λ address. IsAddress text.now (string_bytes address.0) address.1)
        (λ fault. fault ≡ Bad → (host : List ℕ) (port : ℕ) → ¬ IsAddress text.now host port) }
{
    match Url::parse(alloc, text) {
        Ok(url) => address_of(alloc, &url),
        Err(error) => Err(fault_of(error)),
    }
}

/// What an error of `url` is reported as. `Overflow` is that of a URL which is too long.
fn fault_of(error: ParseError) -> AddressFault
    ensures memory { (error ≡ OutOfMemory) ⊎ (error ≡ Overflow) → result ≡ Memory }
    ensures bad { ¬ (error ≡ OutOfMemory) → ¬ (error ≡ Overflow) → result ≡ Bad }
{
    match error {
        ParseError::OutOfMemory | ParseError::Overflow => AddressFault::Memory,
        _ => AddressFault::Bad,
    }
}

/// The host and the port of a URL that is an address.
fn address_of(alloc: Global, url: &Url) -> Result<(String, u16), AddressFault>
    ensures { MatchResult result (λ address. IsAddressOf url.now (string_bytes address.0) address.1)
        (λ fault. fault ≡ Bad → (host : List ℕ) (port : ℕ) → ¬ IsAddressOf url.now host port) }
{
    match url.host_str() {
        Some(host) if host.len() <= 255 && has_plain_parts(url) => {
            Ok((String::from_str(alloc, host)?, url.port().unwrap_or(80)))
        }
        _ => Err(AddressFault::Bad),
    }
}

/// Whether the URL is of `http`, with the path `/` and no part but those of an address.
fn has_plain_parts(url: &Url) -> bool
    ensures { result ≡ has_plain_parts url.now }
{
    url.scheme() == "http"
        && url.path() == "/"
        && url.username().is_empty()
        && url.password().is_none()
        && url.query().is_none()
        && url.fragment().is_none()
}
