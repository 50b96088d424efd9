ghost use Rattle.std.specs.Prelude.{◌≡◌, ℕ, Some, IsTrue};
ghost use Rattle.mr_model.specs.Texts.{only_if};
ghost use Rattle.mr_model.specs.Writes.{Id, Stamp as StampOfWrite, is_server, is_count, is_time, is_id, is_stamp, id_text};

use crate::{GREATEST_COUNT, GREATEST_SERVER, GREATEST_TIME};
use std::fmt;
use std::marker::Model;

/// A server's number, from 1 to 99.
#[derive(Clone, Copy, Debug, PartialEq, Eq, PartialOrd, Ord)]
pub struct ServerId {
    number: u32,
}

impl Model for ServerId {
    ghost Value = { ℕ };

    ghost view = { λ s. s.number };

    ghost invariant = { λ s. IsTrue (is_server s.number) };

    ghost inverse = { λ n. record { number = n } };
}

impl ServerId {
    /// The server with this number, if there is one.
    pub fn new(number: u32) -> Option<ServerId>
        ensures { result ≡ only_if (is_server number) number }
    {
        if number >= 1 && number <= GREATEST_SERVER {
            Some(ServerId { number })
        } else {
            None
        }
    }

    /// From 1 to 99.
    pub fn number(self) -> u32
        ensures value { result ≡ self }
        ensures in_range { IsTrue (is_server result) }
    {
        self.number
    }
}

impl fmt::Display for ServerId {
    ghost use Rattle.std.specs.Prelude.{Some, decimal};

    ghost output = { λ s. Some (decimal s) };

    fn fmt<W: fmt::Write>(&self, f: &mut fmt::Formatter<W>) -> fmt::Result {
        let number = self.number();
        write!(f, "{number}")
    }
}

/// The identity of a write: the server that accepted it, and that server's count of writes, from 1 to 999,999,999.
#[derive(Clone, Copy, Debug, PartialEq, Eq, PartialOrd, Ord)]
pub struct WriteId {
    pub server: ServerId,
    pub n: u32,
}

impl Model for WriteId {
    ghost Value = { Id };

    ghost view = { λ w. record { server = w.server; n = w.n } };

    ghost invariant = { λ w. IsTrue (is_id (record { server = w.server; n = w.n })) };

    ghost inverse = { λ v. record { server = v.server; n = v.n } };
}

impl WriteId {
    /// The identity with these parts, if the count is in range.
    pub fn new(server: ServerId, n: u32) -> Option<WriteId>
        ensures { result ≡ only_if (is_count n) (record { server = server; n = n }) }
    {
        // For the prover alone: a server is from 1 to 99.
        server.number();
        if n >= 1 && n <= GREATEST_COUNT {
            Some(WriteId { server, n })
        } else {
            None
        }
    }
}

impl fmt::Display for WriteId {
    ghost output = { λ id. Some (id_text id) };

    fn fmt<W: fmt::Write>(&self, f: &mut fmt::Formatter<W>) -> fmt::Result {
        let (server, n) = (self.server, self.n);
        write!(f, "{server}-{n}")
    }
}

/// A write's stamp: its identity, and the logical time at which its server accepted it, from 1 to 999,999,999,999.
#[derive(Clone, Copy, Debug, PartialEq, Eq, PartialOrd, Ord)]
pub struct Stamp {
    pub server: ServerId,
    pub n: u32,
    pub time: u64,
}

impl Model for Stamp {
    ghost Value = { StampOfWrite };

    ghost view = { λ s. record { server = s.server; n = s.n; time = s.time } };

    ghost invariant = { λ s. IsTrue (is_stamp (record { server = s.server; n = s.n; time = s.time })) };

    ghost inverse = { λ v. record { server = v.server; n = v.n; time = v.time } };
}

impl Stamp {
    /// The stamp of this write at this time, if the time is in range.
    pub fn new(id: WriteId, time: u64) -> Option<Stamp>
        ensures { result ≡ only_if (is_time time) (record { server = id.server; n = id.n; time = time }) }
    {
        let WriteId { server, n } = id;
        if time >= 1 && time <= GREATEST_TIME {
            Some(Stamp { server, n, time })
        } else {
            None
        }
    }

    /// The identity of the write.
    pub fn id(self) -> WriteId
        ensures { result ≡ record { server = self.server; n = self.n } }
    {
        WriteId {
            server: self.server,
            n: self.n,
        }
    }
}
