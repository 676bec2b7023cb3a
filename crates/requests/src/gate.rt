//! The trait of what knows which user each badge names.

ghost use Rattle.std.specs.Prelude.{ℕ, List, Option, ◌≡◌};

/// Who is let in: the users whom badges name. That a badge is in the right hands is not its affair.
pub trait Gate {
    /// The user whom a badge names.
    ghost users: { Self → List ℕ → Option ℕ };

    /// The user whom the badge names, or none where it names none. It takes no memory.
    fn user_of(&self, badge: &[u8]) -> Option<u32>
        ensures { result ≡ users self.now badge.now };
}
