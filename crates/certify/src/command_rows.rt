//! What each command of the policy is judged on, gathered from what a store answers.

ghost use Rattle.std.specs.Prelude.{◌≡◌};
ghost use Rattle.certify.specs.CommandRows.{of_certifier, of_officer};
ghost use Rattle.certify.specs.StoredRows.{appoint_rows, certify_rows, define_set_rows, dismiss_rows, enrol_rows, grant_rows, has_one_by, is_among, is_held_on, is_officer_row, revoke_rows, suspension_rows, withdraw_rows};

use bank_policy::{CertifiedRow, HeldRow, RelationKey, Standing, Triple, TripleKey};

/// The rows of the policy that a command is judged on, as far as it needs them; what it doesn't is false, none or 0.
#[derive(Clone, Copy, Debug, PartialEq, Eq)]
pub struct CommandRows {
    /// Whether who asks is an officer.
    pub officer: bool,
    /// Whether who asks is a certifier of the procedure, or for a set of any.
    pub certifies: bool,
    /// What the row of the user whom it names says.
    pub user: Option<Standing>,
    /// Whether that user is a certifier of the procedure, or a relation of it is certified by them.
    pub has_certified: bool,
    /// Whether that user has a triple for the procedure.
    pub executes: bool,
    /// Whether the set that it names is there.
    pub has_set: bool,
    /// Whether the procedure is certified on the set.
    pub is_related: bool,
    /// Whether what it adds or takes away is there.
    pub is_there: bool,
    /// How many there are of what it adds, whose number is limited: sets, relations of the procedure, triples
    /// of the user.
    pub count: u64,
}

/// The rows of each command, from what a store answers.
impl CommandRows {
    /// Of a set to define: whether who asks is a certifier of any procedure, whether the set is there, and
    /// how many sets are.
    pub fn of_define_set(certifies: bool, has_set: bool, count: u64) -> CommandRows
        ensures { result ≡ define_set_rows certifies has_set count }
    {
        CommandRows {
            is_there: has_set,
            count,
            ..of_certifier(certifies)
        }
    }

    /// Of a relation to certify: whether who asks is a certifier of its procedure, whether its set is
    /// there, and the relations of the procedure.
    pub fn of_certify(
        certifies: bool,
        has_set: bool,
        relations: &[CertifiedRow],
        key: &RelationKey,
    ) -> CommandRows
        ensures { result ≡ certify_rows certifies has_set relations.now key.now }
    {
        CommandRows {
            has_set,
            is_there: is_among(key.set, relations),
            count: relations.len() as u64,
            ..of_certifier(certifies)
        }
    }

    /// Of a relation to take away: whether who asks is a certifier of its procedure, and the relations of
    /// the procedure.
    pub fn of_withdraw(
        certifies: bool,
        relations: &[CertifiedRow],
        key: &RelationKey,
    ) -> CommandRows
        ensures { result ≡ withdraw_rows certifies relations.now key.now }
    {
        CommandRows {
            is_there: is_among(key.set, relations),
            ..of_certifier(certifies)
        }
    }

    /// Of a triple to give: whether who asks is a certifier of its procedure; of the user whom it names
    /// the row, whether they are a certifier of the procedure, and how many triples they have; the relations
    /// of the procedure, and that user's triples for it.
    pub fn of_grant(
        certifies: bool,
        user: Option<Standing>,
        is_certifier: bool,
        relations: &[CertifiedRow],
        triples: &[HeldRow],
        count: u64,
        triple: &Triple,
    ) -> CommandRows
        ensures { result ≡ grant_rows certifies user is_certifier relations.now triples.now count triple.now }
    {
        CommandRows {
            user,
            has_certified: is_certifier || has_one_by(triple.user, relations),
            is_related: is_among(triple.set, relations),
            is_there: is_held_on(triple.set, triples),
            count,
            ..of_certifier(certifies)
        }
    }

    /// Of a triple to take away: whether who asks is a certifier of its procedure, and its user's triples
    /// for the procedure.
    pub fn of_revoke(certifies: bool, triples: &[HeldRow], key: &TripleKey) -> CommandRows
        ensures { result ≡ revoke_rows certifies triples.now key.now }
    {
        CommandRows {
            is_there: is_held_on(key.set, triples),
            ..of_certifier(certifies)
        }
    }

    /// Of a certifier to name: the rows of who asks and of that user, that user's triples for the procedure,
    /// and whether they are a certifier of it.
    pub fn of_appoint(
        asks: Option<Standing>,
        user: Option<Standing>,
        triples: &[HeldRow],
        is_certifier: bool,
    ) -> CommandRows
        ensures { result ≡ appoint_rows asks user triples.now is_certifier }
    {
        CommandRows {
            user,
            executes: !triples.is_empty(),
            is_there: is_certifier,
            ..of_officer(asks)
        }
    }

    /// Of a certifier to dismiss: the row of who asks, and whether that user is a certifier of the
    /// procedure.
    pub fn of_dismiss(asks: Option<Standing>, is_there: bool) -> CommandRows
        ensures { result ≡ dismiss_rows asks is_there }
    {
        CommandRows {
            is_there,
            ..of_officer(asks)
        }
    }

    /// Of a user to take in: the row of who asks, and the one of the new user's number.
    pub fn of_enrol(asks: Option<Standing>, user: Option<Standing>) -> CommandRows
        ensures { result ≡ enrol_rows asks user }
    {
        CommandRows {
            is_there: user.is_some(),
            ..of_officer(asks)
        }
    }

    /// Of a user to suspend or to restore: the rows of who asks and of that user.
    pub fn of_suspension(asks: Option<Standing>, user: Option<Standing>) -> CommandRows
        ensures { result ≡ suspension_rows asks user }
    {
        CommandRows {
            user,
            ..of_officer(asks)
        }
    }
}

/// Of who asks for a certifier's command, and of nothing else.
fn of_certifier(certifies: bool) -> CommandRows
    ensures { result ≡ of_certifier certifies }
{
    CommandRows {
        officer: false,
        certifies,
        user: None,
        has_certified: false,
        executes: false,
        has_set: false,
        is_related: false,
        is_there: false,
        count: 0,
    }
}

/// Of who asks for an officer's command, and of nothing else.
fn of_officer(asks: Option<Standing>) -> CommandRows
    ensures { result ≡ of_officer (is_officer_row asks) }
{
    CommandRows {
        officer: is_officer_row(asks),
        ..of_certifier(false)
    }
}

/// Whether a user's row says that they are an officer.
fn is_officer_row(user: Option<Standing>) -> bool
    ensures { result ≡ is_officer_row user }
{
    user.is_some_and(|standing| standing.officer)
}

/// Whether one of these relations is on the set.
fn is_among(set: u32, relations: &[CertifiedRow]) -> bool
    ensures { result ≡ is_among set relations.now }
{
    relations.iter().any(|row| row.relation().set == set)
}

/// Whether one of these relations stands by the user.
fn has_one_by(user: u32, relations: &[CertifiedRow]) -> bool
    ensures { result ≡ has_one_by user relations.now }
{
    relations.iter().any(|row| row.relation().by == user)
}

/// Whether one of these triples is on the set.
fn is_held_on(set: u32, triples: &[HeldRow]) -> bool
    ensures { result ≡ is_held_on set triples.now }
{
    triples.iter().any(|row| row.triple().set == set)
}
