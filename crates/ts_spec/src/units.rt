// Values, as whole numbers of millionths, and why a text is not a valid value.
ghost use Rattle.std.specs.Prelude.{◌≡◌, ℤ, pos, neg_ℤ, ◌≤◌, ◌↔◌, unsigned_abs, IsSome, IfSome, Some};
ghost use Rattle.ts_spec.specs.Value.{bound};
ghost use Rattle.ts_spec.specs.FaultNames.{name_of};

use std::fmt;
use std::marker::Model;
use thiserror::Error;

/// The greatest magnitude of a value, in millionths.
const BOUND: i128 = 1_000_000_000_000_000_000_000_000;

/// A value: a whole number of millionths, from -10^24 to 10^24.
#[derive(Clone, Copy, Debug, PartialEq, Eq, PartialOrd, Ord)]
pub struct Units {
    millionths: i128,
}

impl Model for Units {
    ghost Value = { ℤ };

    ghost view = { λ u. u.millionths };

    ghost invariant = { λ u. unsigned_abs u.millionths ≤ bound };

    ghost inverse = { λ z. record { millionths = z } };
}

impl Units {
    /// Zero.
    pub const ZERO: Units = Units { millionths: 0 };

    /// The greatest value.
    pub const MAX: Units = Units { millionths: BOUND };

    /// The least value.
    pub const MIN: Units = Units { millionths: -BOUND };

    /// The value of this many millionths, or `None` if it is out of range.
    pub fn new(millionths: i128) -> Option<Units>
        ensures valid { IsSome result ↔ (unsigned_abs millionths ≤ bound) }
        ensures value { IfSome result (λ u. u ≡ millionths) }
    {
        if -BOUND <= millionths && millionths <= BOUND {
            Some(Units { millionths })
        } else {
            None
        }
    }

    /// The value of this many millionths, which must be in range.
    pub fn of_millionths(millionths: i128) -> Units
        requires { unsigned_abs millionths ≤ bound }
        ensures { result ≡ millionths }
    {
        Units { millionths }
    }

    /// The number of millionths.
    pub fn get(self) -> i128
        ensures value { result ≡ self }
        ensures bounded { unsigned_abs result ≤ bound }
    {
        self.millionths
    }

    /// The value with its sign changed.
    pub fn negated(self) -> Units
        ensures { result ≡ neg_ℤ self }
    {
        Units {
            millionths: -self.millionths,
        }
    }
}

/// Why a text is not a valid value.
#[derive(Clone, Copy, PartialEq, Eq, Error)]
pub enum ValueFault {
    /// The text is not a decimal of 1 to 64 bytes.
    #[error("not a number")]
    NotANumber,
    /// The magnitude of the rounded value is above 10^24 millionths.
    #[error("value out of range")]
    OutOfRange,
}

impl fmt::Debug for ValueFault {
    ghost debug_output = { λ fault. Some (name_of fault) };

    fn fmt<W: fmt::Write>(&self, f: &mut fmt::Formatter<W>) -> fmt::Result {
        f.write_str(match self {
            ValueFault::NotANumber => "NotANumber",
            ValueFault::OutOfRange => "OutOfRange",
        })
    }
}
