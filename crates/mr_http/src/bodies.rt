ghost use Rattle.std.specs.Prelude.{◌≡◌, ◌++◌, ◌<◌, ◌≤◌, ◌-◌, ℕ, List, length, vec_len, OnOk};
ghost use Rattle.std.specs.Io.KnownBytes.{Consumes, IsAtEnd};

use crate::faults::ReadFault;
use crate::pieces::read_piece;
use std::io::Read;

/// Reads on until the buffer has `total` bytes or the input ends, and no byte beyond. A buffer that has them already stays as it is.
pub fn fill_to<R: Read>(reader: &mut R, buffer: &mut Vec<u8>, total: usize) -> Result<(), ReadFault>
    ensures { OnOk result ((more : List ℕ) × (buffer.new.items ≡ buffer.old.items ++ more)
        × Consumes (R.remaining reader.old) (R.remaining reader.new) more
        × (vec_len buffer.new < total → IsAtEnd (R.remaining reader.new))
        × (length more ≤ total - vec_len buffer.old)) }
{
    'filling: while buffer.len() < total {
        let room = total - buffer.len();
        if read_piece(reader, buffer, room)? == 0 {
            break;
        }
    }
    Ok(())
}
