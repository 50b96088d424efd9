ghost use Rattle.std.specs.Prelude.{◌≡◌, ℕ, ◌==◌, false, List, IsTrue, IfOk, Ok, Err};
ghost use Rattle.std.specs.List.{list_all};
ghost use Rattle.std.specs.String.{string_bytes};
ghost use Rattle.std.specs.Cmp.{partial_order_from_own_ties};
ghost use Rattle.std.specs.Cmp.Lexicographic.{slice_cmp, pointwise};
ghost use Rattle.std.specs.Cmp.Rules.{comparing};
ghost use Rattle.std.specs.Ordering.{nat_cmp, as_partial_cmp};
ghost use Rattle.std.proofs.Common.{rules};
ghost use Rattle.mr_model.specs.Writes.{is_room_byte, is_room_name};
ghost use Rattle.mr_base.specs.Answers.{OrOutOfMemory, ok_if};

use crate::{LONGEST_ROOM_NAME, Refusal};
use std::alloc::{AllocError, Global};
use std::cmp::Ordering;
use std::marker::Model;

/// The name of a room: 1 to 16 bytes of a-z, 0-9 and the hyphen. In contracts it is the list of these bytes.
#[derive(Debug, Drop)]
pub struct RoomName {
    text: String,
}

impl Model for RoomName {
    ghost Value = { List ℕ };

    ghost view = { λ r. string_bytes r.text };

    ghost invariant = { λ r. IsTrue (is_room_name (string_bytes r.text)) };
}

impl RoomName {
    /// The room of this name.
    pub fn new(alloc: Global, text: &str) -> Result<RoomName, Refusal>
        ensures value { OrOutOfMemory result (ok_if (is_room_name text.now) text.now Refusal.BadRoomName) }
        // A refusal that is due is returned without memory.
        ensures due { is_room_name text.now ≡ false → result ≡ Err Refusal.BadRoomName }
    {
        if !is_room_text(text.as_bytes()) {
            return Err(Refusal::BadRoomName);
        }
        Ok(RoomName::make(alloc, text)?)
    }

    /// Makes it of a text that passes the test.
    pub fn make(alloc: Global, text: &str) -> Result<RoomName, AllocError>
        requires { IsTrue (is_room_name text.now) }
        ensures { IfOk result (λ made. made ≡ text.now) }
    {
        let text = String::from_str(alloc, text)?;
        Ok(RoomName { text })
    }

    /// 1 to 16 bytes of a-z, 0-9 and the hyphen.
    pub fn as_str(&self) -> &str
        ensures text { result.now ≡ self.now }
        ensures is_name { IsTrue (is_room_name self.now) }
    {
        self.text.as_str()
    }

    /// An equal name.
    pub fn copy(&self, alloc: Global) -> Result<RoomName, Refusal>
        ensures { OrOutOfMemory result (Ok self.now) }
    {
        let text = String::from_str(alloc, self.as_str())?;
        Ok(RoomName { text })
    }
}

impl Clone for RoomName {
    ghost is_clone = { λ s r. r ≡ s };

    fn clone(&self) -> Result<RoomName, AllocError> {
        let text = self.text.clone()?;
        Ok(RoomName { text })
    }
}

impl PartialEq for RoomName {
    ghost eq = { pointwise ◌==◌ };

    ghost laws = { Prim.search (comparing, rules) };

    fn eq(&self, other: &RoomName) -> bool {
        self.as_str() == other.as_str()
    }
}

impl Eq for RoomName {
    ghost laws = { Prim.search (comparing, rules) };
}

impl Ord for RoomName {
    ghost cmp = { slice_cmp nat_cmp };

    ghost total = { Prim.search (comparing, rules) };

    ghost matches_partial_cmp = { Prim.search (comparing, rules) };

    ghost matches_eq = { Prim.search (comparing, rules) };

    fn cmp(&self, other: &RoomName) -> Ordering {
        self.as_str().cmp(other.as_str())
    }
}

impl PartialOrd for RoomName {
    ghost partial_cmp = { as_partial_cmp (slice_cmp nat_cmp) };

    ghost laws = { partial_order_from_own_ties (Prim.search (comparing, rules)) (Prim.search (comparing, rules)) };

    fn partial_cmp(&self, other: &RoomName) -> Option<Ordering> {
        Some(self.cmp(other))
    }
}

/// Whether the bytes are the name of a room.
pub fn is_room_text(text: &[u8]) -> bool
    ensures { result ≡ is_room_name text.now }
{
    text.len() >= 1 && text.len() <= LONGEST_ROOM_NAME && has_room_letters(text)
}

fn has_room_letters(text: &[u8]) -> bool
    ensures { result ≡ list_all is_room_byte text.now }
{
    text.iter().all(|byte| is_room_letter(*byte))
}

fn is_room_letter(byte: u8) -> bool
    ensures { result ≡ is_room_byte byte }
{
    (byte >= b'a' && byte <= b'z') || (byte >= b'0' && byte <= b'9') || byte == b'-'
}
