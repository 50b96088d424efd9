ghost use Rattle.std.specs.Prelude.{◌≡◌, option_map};
ghost use Rattle.mr_model.specs.Exchange.{version_word};
ghost use Rattle.mr_model.specs.Positions.{position_word as word_of_position};
ghost use Rattle.mr_base.specs.Versions.{version_of};
ghost use Rattle.mr_wire.specs.Fields.{most_alternatives, server_and, version_among, servers_under};

use crate::fields::server_and;
use crate::words::first_word;
use mr_base::{GREATEST_SERVER, MOST_ALTERNATIVES, MOST_ALTERNATIVES_IN_FIRST, ServerId, Version};

/// The first word of a batch's text.
pub(crate) fn batch_word(version: Version) -> &'static str
    ensures { result.now ≡ version_word (version_of version) }
{
    match version {
        Version::First => "mr1",
        Version::Second => "mr2",
    }
}

/// The first word of a position's text.
pub(crate) fn position_word(version: Version) -> &'static str
    ensures { result.now ≡ word_of_position (version_of version) }
{
    match version {
        Version::First => "mp1",
        Version::Second => "mp2",
    }
}

/// How many alternatives a booking may have.
pub(crate) fn most_alternatives(version: Version) -> u64
    ensures { result ≡ most_alternatives (version_of version) }
{
    match version {
        Version::First => MOST_ALTERNATIVES_IN_FIRST as u64,
        Version::Second => MOST_ALTERNATIVES as u64,
    }
}

/// Two servers, of which the second ends the line.
#[tactic(auto, using(std::proofs::lemmas::Bool::Decides::nat_tests))]
fn servers_of(text: &str) -> Option<(ServerId, ServerId)>
    ensures { result ≡ server_and 99 text.now }
{
    let (first, number) = server_and(text, GREATEST_SERVER as u64)?;
    let second = ServerId::new(number as u32)?;
    Some((first, second))
}

/// The version that has this word, of the words of the first and of the second.
#[tactic(auto, unfolding(crate::specs::Fields::version_among))]
fn version_among(word: &str, first: &str, second: &str) -> Option<Version>
    ensures { option_map version_of result ≡ version_among first.now second.now word.now }
{
    if word == first {
        return Some(Version::First);
    }
    if word == second {
        return Some(Version::Second);
    }
    None
}

/// The version whose word the line begins with, of the words of the first and of the second, and the two servers behind it.
#[tactic(auto, unfolding(crate::specs::Fields::servers_under))]
pub(crate) fn servers_under(
    text: &str,
    first: &str,
    second: &str,
) -> Option<(Version, ServerId, ServerId)>
    ensures { option_map (λ x. (version_of x.0, x.1, x.2)) result ≡ servers_under first.now second.now text.now }
{
    let (word, rest) = first_word(text)?;
    let version = version_among(word, first, second)?;
    let (server, primary) = servers_of(rest)?;
    Some((version, server, primary))
}
