ghost use Rattle.std.specs.Prelude.{◌≡◌, ok_or, IfOk, IsTrue, Ok};
ghost use Rattle.mr_model.specs.Writes.{Id, is_id, id_text};
ghost use Rattle.mr_base.specs.Readings.{read_id, id_by_parts};

use crate::{GREATEST_COUNT, GREATEST_SERVER, Refusal, ServerId, WriteId, read_number};

impl WriteId {
    /// Reads `<server>-<n>`, both numbers in decimal without leading zeros and within their limits. Any other text names no request.
    pub fn read(text: &str) -> Result<WriteId, Refusal>
        ensures value { result ≡ ok_or (read_id text.now) Refusal.NoSuchRequest }
        ensures written { IfOk result (λ id. text.now ≡ id_text id) }
        ensures read { (id : Id) → IsTrue (is_id id) → text.now ≡ id_text id → result ≡ Ok id }
    {
        id_of(text).ok_or(Refusal::NoSuchRequest)
    }
}

fn id_of(text: &str) -> Option<WriteId>
    ensures { result ≡ id_by_parts text.now }
{
    let (server, n) = text.split_once('-')?;
    let server = read_number(server, 1, GREATEST_SERVER as u64)?;
    let n = read_number(n, 1, GREATEST_COUNT as u64)?;
    WriteId::new(ServerId::new(server as u32)?, n as u32)
}
