ghost use Rattle.std.specs.Prelude.{◌≡◌, ℕ, Some, ◌<◌};
ghost use Rattle.mr_model.specs.Texts.{two_digits};
ghost use Rattle.mr_base.specs.Readings.{pair_in};

use std::fmt;
use std::marker::Model;

/// A number below 100, which is written in two digits.
#[derive(Clone, Copy)]
pub(crate) struct TwoDigits {
    number: u16,
}

impl Model for TwoDigits {
    ghost Value = { ℕ };

    ghost view = { λ t. t.number };

    ghost invariant = { λ t. t.number < 100 };

    ghost inverse = { λ n. record { number = n } };
}

impl TwoDigits {
    /// The number, which is to be below 100.
    pub(crate) fn new(number: u16) -> TwoDigits
        requires { number < 100 }
        ensures { result ≡ number }
    {
        TwoDigits { number }
    }
}

#[tactic(auto, using(std::proofs::lemmas::Fmt::decimal_digit))]
impl fmt::Display for TwoDigits {
    ghost output = { λ t. Some (two_digits t) };

    fn fmt<W: fmt::Write>(&self, f: &mut fmt::Formatter<W>) -> fmt::Result {
        let (tens, ones) = (self.number / 10, self.number % 10);
        write!(f, "{tens}{ones}")
    }
}

/// The number of two ASCII digits, of which the first counts tens.
pub(crate) fn read_pair(tens: u8, ones: u8) -> Option<u8>
    ensures { result ≡ pair_in tens ones }
{
    if tens >= b'0' && tens <= b'9' && ones >= b'0' && ones <= b'9' {
        Some(10 * (tens - b'0') + (ones - b'0'))
    } else {
        None
    }
}
