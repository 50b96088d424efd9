ghost use Rattle.std.specs.Prelude.{◌≡◌, ◌≤◌, ℕ, take, length, OnOk, IfErr};
ghost use Rattle.std.specs.Io.KnownBytes.{Appends};
ghost use Rattle.mr_http.specs.declared.faults.WebFault.TheVariants.{Write as fault_write};

use crate::faults::WebFault;
use std::io::Write;

/// Writes all of the bytes, or a prefix of them if a write fails, which is the only fault.
pub fn send<W: Write>(writer: &mut W, bytes: &[u8]) -> Result<(), WebFault>
    ensures ok { OnOk result (Appends (W.contents writer.old) (W.contents writer.new) bytes.now) }
    ensures front { (n : ℕ) × (n ≤ length bytes.now) × Appends (W.contents writer.old) (W.contents writer.new) (take n bytes.now) }
    ensures fault { IfErr result (λ e. e ≡ fault_write) }
{
    let mut at = 0;
    'sending: while at < bytes.len() {
        match writer.write(&bytes[at..]) {
            Ok(0) | Err(_) => return Err(WebFault::Write),
            Ok(count) => at += count,
        }
    }
    Ok(())
}
