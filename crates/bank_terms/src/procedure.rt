//! The thirteen procedures of the counter, with their numbers and the names that paths and commands write.

ghost use Rattle.std.specs.Prelude.{◌≡◌};
ghost use Rattle.bank_terms.specs.Procedure.{name_of, number_of, procedure_named, procedures, takes_slip};

/// The procedures that users may be authorized to carry out: the transformation procedures of
/// Clark and Wilson's model, in the order of their numbers, 1 to 13.
#[derive(Clone, Copy, Debug, PartialEq, Eq, Hash)]
pub enum Procedure {
    /// Adds an amount to an account at a teller.
    Post,
    /// Moves an amount from one account to another.
    Transfer,
    /// Undoes an entry.
    Correct,
    /// Gives a drawer to the user, with cash from the vault.
    DrawerOn,
    /// Takes the counted cash of a drawer back to the vault.
    DrawerOff,
    /// Moves cash between drawers, or a drawer and the vault.
    MoveCash,
    /// Opens an account.
    NewAccount,
    /// Authorizes another user for one operation.
    Release,
    /// Reports the balance of an account.
    Balance,
    /// Lists the entries of an account.
    Statement,
    /// Lists the accounts that the user may see.
    Accounts,
    /// Prints the books of a branch.
    Proof,
    /// Ends the day of a branch.
    CloseDay,
}

impl Procedure {
    /// All thirteen, in the order of their numbers.
    pub fn all() -> [Procedure; 13]
        ensures { result ≡ procedures }
    {
        [
            Procedure::Post,
            Procedure::Transfer,
            Procedure::Correct,
            Procedure::DrawerOn,
            Procedure::DrawerOff,
            Procedure::MoveCash,
            Procedure::NewAccount,
            Procedure::Release,
            Procedure::Balance,
            Procedure::Statement,
            Procedure::Accounts,
            Procedure::Proof,
            Procedure::CloseDay,
        ]
    }

    /// Its number, 1 to 13.
    pub fn number(self) -> u8
        ensures { result ≡ number_of self }
    {
        match self {
            Procedure::Post => 1,
            Procedure::Transfer => 2,
            Procedure::Correct => 3,
            Procedure::DrawerOn => 4,
            Procedure::DrawerOff => 5,
            Procedure::MoveCash => 6,
            Procedure::NewAccount => 7,
            Procedure::Release => 8,
            Procedure::Balance => 9,
            Procedure::Statement => 10,
            Procedure::Accounts => 11,
            Procedure::Proof => 12,
            Procedure::CloseDay => 13,
        }
    }

    /// Whether a slip is looked at with it: it is one of the forms that write.
    pub fn takes_slip(self) -> bool
        ensures { result ≡ takes_slip self }
    {
        match self {
            Procedure::Post
            | Procedure::Transfer
            | Procedure::Correct
            | Procedure::DrawerOn
            | Procedure::DrawerOff
            | Procedure::MoveCash
            | Procedure::NewAccount
            | Procedure::Release
            | Procedure::CloseDay => true,
            Procedure::Balance | Procedure::Statement | Procedure::Accounts | Procedure::Proof =>
                false,
        }
    }

    /// Its name, as paths and policy commands write it.
    pub fn name(self) -> &'static str
        ensures { result.now ≡ name_of self }
    {
        match self {
            Procedure::Post => "post",
            Procedure::Transfer => "transfer",
            Procedure::Correct => "correct",
            Procedure::DrawerOn => "drawer-on",
            Procedure::DrawerOff => "drawer-off",
            Procedure::MoveCash => "move-cash",
            Procedure::NewAccount => "new-account",
            Procedure::Release => "release",
            Procedure::Balance => "balance",
            Procedure::Statement => "statement",
            Procedure::Accounts => "accounts",
            Procedure::Proof => "proof",
            Procedure::CloseDay => "close-day",
        }
    }

    /// The procedure of this name, or none where no procedure has it.
    pub fn named(name: &str) -> Option<Procedure>
        ensures { result ≡ procedure_named name.now }
    {
        match name {
            "post" => Some(Procedure::Post),
            "transfer" => Some(Procedure::Transfer),
            "correct" => Some(Procedure::Correct),
            "drawer-on" => Some(Procedure::DrawerOn),
            "drawer-off" => Some(Procedure::DrawerOff),
            "move-cash" => Some(Procedure::MoveCash),
            "new-account" => Some(Procedure::NewAccount),
            "release" => Some(Procedure::Release),
            "balance" => Some(Procedure::Balance),
            "statement" => Some(Procedure::Statement),
            "accounts" => Some(Procedure::Accounts),
            "proof" => Some(Procedure::Proof),
            "close-day" => Some(Procedure::CloseDay),
            _ => None,
        }
    }
}
