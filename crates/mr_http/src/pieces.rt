ghost use Rattle.std.specs.Prelude.{◌≡◌, ◌++◌, ◌<◌, ◌≤◌, ◌+◌, ℕ, List, length, vec_len, IfOk};
ghost use Rattle.std.specs.Io.KnownBytes.{Consumes, IsAtEnd};

use crate::faults::ReadFault;
use std::io::Read;

const PIECE: usize = 512;

/// One read of at most `room` bytes, put behind the buffer. It answers how many came, which is 0 at the end of the input alone.
pub(crate) fn read_piece<R: Read>(
    reader: &mut R,
    buffer: &mut Vec<u8>,
    room: usize,
) -> Result<usize, ReadFault>
    requires { 0 < room }
    ensures bytes { IfOk result (λ n. (piece : List ℕ) × (buffer.new.items ≡ buffer.old.items ++ piece) × (length piece ≡ n)
        × (n ≤ room) × Consumes (R.remaining reader.old) (R.remaining reader.new) piece × (n ≡ 0 → IsAtEnd (R.remaining reader.new))) }
    ensures small { IfOk result (λ n. n ≤ 512) }
    ensures len { IfOk result (λ n. vec_len buffer.new ≡ vec_len buffer.old + n) }
{
    let mut piece = [0u8; PIECE];
    let most = room.min(PIECE);
    match reader.read(&mut piece[..most]) {
        Ok(count) => {
            buffer.extend_from_slice(&piece[..count])?;
            Ok(count)
        }
        Err(_) => Err(ReadFault::Read),
    }
}
