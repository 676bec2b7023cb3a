//! The trait of what gives each message its moment.

ghost use Rattle.std.specs.Prelude.{ℕ, ◌≤◌};
ghost use Rattle.bank_terms.specs.Limits.{max_moment};

/// Where the moments of messages come from.
pub trait Clock {
    /// Which moment it may give next, and what it is then.
    ghost may_give: { Self → ℕ → Self → Type 0 };

    /// The moment of the message that is answered next, in seconds, 0 to 99,999,999,999. It takes
    /// no memory.
    fn moment(&mut self) -> u64
        ensures in_range { result ≤ max_moment }
        ensures given { may_give self.old result self.new };
}
