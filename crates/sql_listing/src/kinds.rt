//! The kinds of lines of the policy, in the order in which they are listed.

ghost use Rattle.std.specs.Prelude.{◌≡◌};
ghost use Rattle.sql_listing.specs.Lines.{following};

/// A kind of lines of the policy.
#[derive(Clone, Copy)]
pub(crate) enum LineKind {
    /// The users.
    User,
    /// The certifiers.
    Certifier,
    /// The members of sets.
    Member,
    /// The relations.
    Relation,
    /// The triples.
    Triple,
}

impl LineKind {
    /// The kind that is listed after it, if it isn't the last.
    pub(crate) fn following(self) -> Option<LineKind>
        ensures { result ≡ following self }
    {
        match self {
            LineKind::User => Some(LineKind::Certifier),
            LineKind::Certifier => Some(LineKind::Member),
            LineKind::Member => Some(LineKind::Relation),
            LineKind::Relation => Some(LineKind::Triple),
            LineKind::Triple => None,
        }
    }
}
