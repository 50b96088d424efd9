ghost use Rattle.std.specs.Prelude.{◌≡◌};
ghost use Rattle.mr_peer.specs.Took.{read_took};
ghost use Rattle.mr_peer.specs.TookWords.{took_on};

use mr_wire::{behind_word, number_off};

/// How many writes and commits were taken, as the bytes tell it; none if they are no such text.
pub(crate) fn took_in(bytes: &[u8]) -> Option<(u64, u64)>
    ensures { result ≡ read_took bytes.now }
{
    let Ok(text) = str::from_utf8(bytes) else {
        return None;
    };
    took_on(text)
}

#[tactic(auto, unfolding(crate::specs::TookWords::took_on))]
fn took_on(text: &str) -> Option<(u64, u64)>
    ensures { result ≡ took_on text.now }
{
    let rest = behind_word("took", text)?;
    let (writes, rest) = number_off(rest, 0, u64::MAX)?;
    let rest = behind_word("writes", rest)?;
    let (commits, rest) = number_off(rest, 0, u64::MAX)?;
    if rest == "commits\n" {
        Some((writes, commits))
    } else {
        None
    }
}
