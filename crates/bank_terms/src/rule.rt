//! The 22 rules that may deny a request: their order, numbers and names, and which of them are about who asks.

ghost use Rattle.std.specs.Prelude.{◌≡◌};
ghost use Rattle.bank_terms.specs.Rule.{is_forbidden, name_of, number_of};

/// The rules that may deny a request, in the order in which they are tested: the denial names the
/// first that denies.
#[derive(Clone, Copy, Debug, PartialEq, Eq)]
pub enum Rule {
    /// The user is not known, is suspended, or bears no present session.
    Identity,
    /// No certified relation of the procedure holds every touched item.
    NotCertified,
    /// No one triple of the user for the procedure holds every touched item.
    NoTriple,
    /// The amount is above the limit of each triple that holds the items.
    Limit,
    /// The release that is named does not authorize the operation.
    Release,
    /// An account, teller or branch that the operation names is not there.
    Unknown,
    /// A teller of the operation is not of its branch.
    Branch,
    /// A drawer is not held as the operation asks.
    Drawer,
    /// The operation asks for another user than this one.
    SecondPerson,
    /// The entry can't be corrected, or is not as named.
    Entry,
    /// An account's balance would go below its floor.
    Floor,
    /// A drawer or a vault would go below zero.
    Cash,
    /// A number of the books would leave the range of money.
    Range,
    /// The account is there already.
    Taken,
    /// A drawer of the branch is held, so its day can't end.
    Day,
    /// A count would pass its limit.
    Full,
    /// Only an officer may do this.
    Officer,
    /// Only a certifier of the procedure may do this.
    Certifier,
    /// A user would execute what they certify, or an officer would execute or certify something.
    Separation,
    /// A row that the command names is not there.
    PolicyUnknown,
    /// A row that the command adds is there already, or a limit of the policy is reached; or who is to be suspended is who
    /// asks or is suspended, or who is to be restored is not suspended.
    PolicyState,
    /// The slip that is named is the user's already, with another operation.
    Slip,
}

impl Rule {
    /// Its number, 1 to 22.
    pub fn number(self) -> u8
        ensures { result ≡ number_of self }
    {
        match self {
            Rule::Identity => 1,
            Rule::NotCertified => 2,
            Rule::NoTriple => 3,
            Rule::Limit => 4,
            Rule::Release => 5,
            Rule::Unknown => 6,
            Rule::Branch => 7,
            Rule::Drawer => 8,
            Rule::SecondPerson => 9,
            Rule::Entry => 10,
            Rule::Floor => 11,
            Rule::Cash => 12,
            Rule::Range => 13,
            Rule::Taken => 14,
            Rule::Day => 15,
            Rule::Full => 16,
            Rule::Officer => 17,
            Rule::Certifier => 18,
            Rule::Separation => 19,
            Rule::PolicyUnknown => 20,
            Rule::PolicyState => 21,
            Rule::Slip => 22,
        }
    }

    /// Its name, as the reply to a denied request writes it.
    pub fn name(self) -> &'static str
        ensures { result.now ≡ name_of self }
    {
        match self {
            Rule::Identity => "identity",
            Rule::NotCertified => "not certified",
            Rule::NoTriple => "no triple",
            Rule::Limit => "limit",
            Rule::Release => "release",
            Rule::Unknown => "unknown",
            Rule::Branch => "branch",
            Rule::Drawer => "drawer",
            Rule::SecondPerson => "second person",
            Rule::Entry => "entry",
            Rule::Floor => "floor",
            Rule::Cash => "cash",
            Rule::Range => "range",
            Rule::Taken => "taken",
            Rule::Day => "day",
            Rule::Full => "full",
            Rule::Officer => "officer",
            Rule::Certifier => "certifier",
            Rule::Separation => "separation",
            Rule::PolicyUnknown => "policy unknown",
            Rule::PolicyState => "policy state",
            Rule::Slip => "slip",
        }
    }

    /// Whether its denial is about who asks (status 403), and not about the state of the bank
    /// (status 409).
    pub fn is_forbidden(self) -> bool
        ensures { result ≡ is_forbidden self }
    {
        match self {
            Rule::Identity
            | Rule::NotCertified
            | Rule::NoTriple
            | Rule::Limit
            | Rule::Release
            | Rule::Drawer
            | Rule::SecondPerson
            | Rule::Officer
            | Rule::Certifier
            | Rule::Separation => true,
            Rule::Unknown
            | Rule::Branch
            | Rule::Entry
            | Rule::Floor
            | Rule::Cash
            | Rule::Range
            | Rule::Taken
            | Rule::Day
            | Rule::Full
            | Rule::PolicyUnknown
            | Rule::PolicyState
            | Rule::Slip => false,
        }
    }
}
