ghost use Rattle.std.specs.Prelude.{◌≡◌, ℕ, IsTrue};
ghost use Rattle.mr_model.specs.Texts.{only_if};
ghost use Rattle.mr_base.specs.Limits.{is_line_count};

use crate::MOST_LINES;
use std::marker::Model;

/// How many item lines a batch may have, from 1 to 100,000.
#[derive(Clone, Copy, Debug, PartialEq, Eq)]
pub struct LineCount {
    number: u32,
}

impl Model for LineCount {
    ghost Value = { ℕ };

    ghost view = { λ l. l.number };

    ghost invariant = { λ l. IsTrue (is_line_count l.number) };

    ghost inverse = { λ n. record { number = n } };
}

impl LineCount {
    /// That many lines, if the number is in range.
    pub fn new(number: u32) -> Option<LineCount>
        ensures { result ≡ only_if (is_line_count number) number }
    {
        if number >= 1 && number <= MOST_LINES {
            Some(LineCount { number })
        } else {
            None
        }
    }

    /// The number of lines.
    pub fn number(self) -> u32
        ensures value { result ≡ self }
        ensures in_range { IsTrue (is_line_count result) }
    {
        self.number
    }
}
