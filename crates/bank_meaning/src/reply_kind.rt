//! The kinds of texts that replies are, each with its content type.

ghost use Rattle.std.specs.Prelude.{◌≡◌};
ghost use Rattle.bank_meaning.specs.Meaning.{content_type_of};

/// What the text of a reply is.
#[derive(Clone, Copy, Debug, PartialEq, Eq)]
pub enum ReplyKind {
    /// An object in JSON.
    Json,
    /// Plain text, as reports are.
    Plain,
}

impl ReplyKind {
    /// The type of its content, as a reply's head names it.
    pub fn content_type(self) -> &'static str
        ensures { result.now ≡ content_type_of self }
    {
        match self {
            ReplyKind::Json => "application/json",
            ReplyKind::Plain => "text/plain",
        }
    }
}
