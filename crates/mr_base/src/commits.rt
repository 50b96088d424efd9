ghost use Rattle.std.specs.Prelude.{◌≡◌, ℕ, IsTrue};
ghost use Rattle.mr_model.specs.Texts.{only_if};
ghost use Rattle.mr_model.specs.Writes.{is_commit_number};

use crate::GREATEST_COMMIT;
use std::marker::Model;

/// The number of a commit, from 1 to 999,999,999,999.
#[derive(Clone, Copy, Debug, PartialEq, Eq, PartialOrd, Ord)]
pub struct CommitNumber {
    number: u64,
}

impl Model for CommitNumber {
    ghost Value = { ℕ };

    ghost view = { λ c. c.number };

    ghost invariant = { λ c. IsTrue (is_commit_number c.number) };

    ghost inverse = { λ n. record { number = n } };
}

impl CommitNumber {
    /// The commit of this number, if it is in range.
    pub fn new(number: u64) -> Option<CommitNumber>
        ensures { result ≡ only_if (is_commit_number number) number }
    {
        if number >= 1 && number <= GREATEST_COMMIT {
            Some(CommitNumber { number })
        } else {
            None
        }
    }

    /// From 1 to 999,999,999,999.
    pub fn number(self) -> u64
        ensures value { result ≡ self }
        ensures in_range { IsTrue (is_commit_number result) }
    {
        self.number
    }
}
