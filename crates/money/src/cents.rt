//! Amounts in cents within two ranges, that of a balance and that of one entry, and sums checked against the first.

ghost use Rattle.std.specs.Prelude.{◌≡◌, ◌+ℤ◌, ◌↔◌, IsSome, IfSome};
ghost use Rattle.money.specs.Range.{IsCents, IsDelta};

use std::marker::Model;

/// The greatest amount of a balance, a cash or a branch total, in cents; the least is its negative.
pub const MAX_CENTS: i64 = 999_999_999_999;

/// The greatest amount that one entry adds, in cents; the least is its negative.
pub const MAX_DELTA: i64 = 999_999;

/// Whole cents of a balance, a cash or a branch total, from -999,999,999,999 to 999,999,999,999.
#[derive(Clone, Copy, Debug, PartialEq, Eq, PartialOrd, Ord)]
pub struct Cents {
    value: i64,
}

impl Model for Cents {
    ghost use Rattle.std.specs.Prelude.{ℤ};

    ghost Value = { ℤ };

    ghost use Rattle.money.specs.Range.{IsCents};

    ghost view = { λ c. c.value };

    ghost invariant = { λ c. IsCents c.value };

    ghost inverse = { λ z. record { value = z } };
}

impl Cents {
    /// The amount of these cents, or none exactly where they lie out of range.
    pub fn new(value: i64) -> Option<Cents>
        ensures valid { IsSome result ↔ IsCents value }
        ensures value { IfSome result (λ c. c ≡ value) }
    {
        if -MAX_CENTS <= value && value <= MAX_CENTS {
            Some(Cents { value })
        } else {
            None
        }
    }

    /// The cents, from -999,999,999,999 to 999,999,999,999.
    pub fn get(self) -> i64
        ensures value { result ≡ self }
        ensures in_range { IsCents self }
    {
        self.value
    }
}

impl From<Delta> for Cents {
    ghost use Rattle.std.specs.Prelude.{◌≡◌};

    ghost from_gives = { λ delta cents. cents ≡ delta };

    fn from(delta: Delta) -> Cents {
        Cents { value: delta.get() }
    }
}

/// Whole cents that one entry adds, from -999,999 to 999,999.
#[derive(Clone, Copy, Debug, PartialEq, Eq, PartialOrd, Ord)]
pub struct Delta {
    change: i64,
}

impl Model for Delta {
    ghost use Rattle.std.specs.Prelude.{ℤ};

    ghost Value = { ℤ };

    ghost use Rattle.money.specs.Range.{IsDelta};

    ghost view = { λ d. d.change };

    ghost invariant = { λ d. IsDelta d.change };

    ghost inverse = { λ z. record { change = z } };
}

impl Delta {
    /// The amount of these cents, or none exactly where they lie out of range.
    pub fn new(value: i64) -> Option<Delta>
        ensures valid { IsSome result ↔ IsDelta value }
        ensures value { IfSome result (λ d. d ≡ value) }
    {
        if -MAX_DELTA <= value && value <= MAX_DELTA {
            Some(Delta { change: value })
        } else {
            None
        }
    }

    /// The cents, from -999,999 to 999,999.
    pub fn get(self) -> i64
        ensures value { result ≡ self }
        ensures in_range { IsDelta self }
    {
        self.change
    }
}

/// The balance after an entry, or none exactly where it would leave the range.
pub fn plus(balance: Cents, delta: Delta) -> Option<Cents>
    ensures in_range { IsSome result ↔ IsCents (balance +ℤ delta) }
    ensures sum { IfSome result (λ c. c ≡ balance +ℤ delta) }
{
    Cents::new(balance.get() + delta.get())
}

/// The sum of two amounts, or none exactly where it would leave the range.
pub fn add(first: Cents, second: Cents) -> Option<Cents>
    ensures in_range { IsSome result ↔ IsCents (first +ℤ second) }
    ensures sum { IfSome result (λ c. c ≡ first +ℤ second) }
{
    Cents::new(first.get() + second.get())
}
