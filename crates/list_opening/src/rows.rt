//! The rows of the opening lists, each read from the fields of its record.

ghost use Rattle.std.specs.Prelude.{◌≡◌, ◌∷◌, [], IfOk, map};
ghost use Rattle.list_opening.specs.Rows.{account_row, branch_row, certifier_row, floor_of, key_of, limit_of, member_row, moment_of, moments_of, relation_row, teller_row, timed_row, triple_during, triple_row, user_number, user_row};
ghost use Rattle.list_opening.specs.Opening.{account_names, branch_names, certifier_names, member_names, relation_names, teller_names, user_names};

use crate::list_row::ListRow;
use crate::set_member::SetMember;
use bank_books::{Account, Branch, Teller};
use bank_policy::{Certifier, Member, Name, Relation, Triple, User};
use bank_terms::{MAX_KEY, MAX_LIMIT, MAX_MOMENT, MAX_USER, MIN_FLOOR};
use list_fields::{
    amount_of, flag_of, kind_named, name_of, number_in, number_up_to, procedure_named,
};
use list_records::is_record;
use money::Cents;
use std::alloc::{AllocError, Global};

/// The key of an account, a teller, a branch or a set.
fn key_of(field: &[u8]) -> Option<u32>
    ensures { result ≡ key_of field.now }
{
    number_in(1, MAX_KEY, field)
}

/// The number of a user.
pub(crate) fn user_number(field: &[u8]) -> Option<u32>
    ensures { result ≡ user_number field.now }
{
    number_in(1, MAX_USER, field)
}

/// The limit of a triple.
fn limit_of(field: &[u8]) -> Option<u32>
    ensures { result ≡ limit_of field.now }
{
    number_in(0, MAX_LIMIT, field)
}

/// The first or the last moment of a triple.
fn moment_of(field: &[u8]) -> Option<u64>
    ensures { result ≡ moment_of field.now }
{
    number_up_to(MAX_MOMENT, field)
}

/// The moments of a triple, of which the first is not above the last.
fn moments_of(first: &[u8], last: &[u8]) -> Option<(u64, u64)>
    ensures { result ≡ moments_of first.now last.now }
{
    let first = moment_of(first)?;
    let last = moment_of(last)?;
    if first <= last {
        Some((first, last))
    } else {
        None
    }
}

/// The floor of an account.
fn floor_of(field: &[u8]) -> Option<Cents>
    ensures { result ≡ floor_of field.now }
{
    let floor = amount_of(field)?;
    if MIN_FLOOR as i64 <= floor.get() && floor.get() <= 0 {
        Some(floor)
    } else {
        None
    }
}

/// The branch that a record states, on its first day.
fn branch_row(fields: &[&[u8]]) -> Option<Branch>
    ensures { result ≡ branch_row (map (λ f. f.now) fields.now) }
{
    match fields {
        [branch, balance, cash] => Some(Branch {
            branch: key_of(branch)?,
            opening: amount_of(balance)?,
            cash: amount_of(cash)?,
            day: 1,
        }),
        _ => None,
    }
}

/// The teller that a record states.
fn teller_row(fields: &[&[u8]]) -> Option<Teller>
    ensures { result ≡ teller_row (map (λ f. f.now) fields.now) }
{
    match fields {
        [teller, branch, balance] => Some(Teller {
            teller: key_of(teller)?,
            branch: key_of(branch)?,
            opening: amount_of(balance)?,
        }),
        _ => None,
    }
}

/// The account that a record states.
fn account_row(fields: &[&[u8]]) -> Option<Account>
    ensures { result ≡ account_row (map (λ f. f.now) fields.now) }
{
    match fields {
        [account, home, balance, floor] => Some(Account {
            account: key_of(account)?,
            home: key_of(home)?,
            opening: amount_of(balance)?,
            floor: floor_of(floor)?,
        }),
        _ => None,
    }
}

/// The user that a record states, who never had a session. The error is that memory is refused.
fn user_row(alloc: Global, fields: &[&[u8]]) -> Result<Option<User>, AllocError>
    ensures { IfOk result (λ row. row ≡ user_row (map (λ f. f.now) fields.now)) }
{
    match fields {
        [user, name, officer] => user_of(alloc, user, name, officer),
        _ => Ok(None),
    }
}

/// The user of this number, name and office.
fn user_of(
    alloc: Global,
    user: &[u8],
    name: &[u8],
    officer: &[u8],
) -> Result<Option<User>, AllocError>
    ensures { IfOk result (λ row. row ≡ user_row (user.now ∷ name.now ∷ officer.now ∷ [])) }
{
    let Some(number) = user_number(user) else {
        return Ok(None);
    };
    let Some(text) = name_of(name) else {
        return Ok(None);
    };
    let Some(officer) = flag_of(officer) else {
        return Ok(None);
    };
    Ok(Some(User {
        user: number,
        name: Name::new(alloc, text)?,
        officer,
        suspended: false,
        session: 0,
        on: false,
    }))
}

/// The member of a set that a record states.
fn member_row(fields: &[&[u8]]) -> Option<SetMember>
    ensures { result ≡ member_row (map (λ f. f.now) fields.now) }
{
    match fields {
        [set, kind, low, high] => {
            let set = key_of(set)?;
            let kind = kind_named(kind)?;
            let low = key_of(low)?;
            let high = key_of(high)?;
            if low <= high {
                Some(SetMember {
                    set,
                    member: Member { kind, low, high },
                })
            } else {
                None
            }
        }
        _ => None,
    }
}

/// The certified relation that a record states.
fn relation_row(fields: &[&[u8]]) -> Option<Relation>
    ensures { result ≡ relation_row (map (λ f. f.now) fields.now) }
{
    match fields {
        [procedure, set, by] => Some(Relation {
            procedure: procedure_named(procedure)?,
            set: key_of(set)?,
            by: user_number(by)?,
        }),
        _ => None,
    }
}

/// The triple of these fields that is in effect from one moment to another.
fn triple_during(
    user: &[u8],
    procedure: &[u8],
    set: &[u8],
    limit: &[u8],
    first: u64,
    last: u64,
) -> Option<Triple>
    ensures { result ≡ triple_during user.now procedure.now set.now limit.now first last }
{
    Some(Triple {
        user: user_number(user)?,
        procedure: procedure_named(procedure)?,
        set: key_of(set)?,
        limit: limit_of(limit)?,
        first,
        last,
    })
}

/// The triple of a record that states no moments: it is in effect at each of them.
pub(crate) fn triple_row(fields: &[&[u8]]) -> Option<Triple>
    ensures { result ≡ triple_row (map (λ f. f.now) fields.now) }
{
    match fields {
        [user, procedure, set, limit] => triple_during(user, procedure, set, limit, 0, MAX_MOMENT),
        _ => None,
    }
}

/// The triple of a record that states its first and its last moment.
pub(crate) fn timed_row(fields: &[&[u8]]) -> Option<Triple>
    ensures { result ≡ timed_row (map (λ f. f.now) fields.now) }
{
    match fields {
        [user, procedure, set, limit, first, last] => {
            let (first, last) = moments_of(first, last)?;
            triple_during(user, procedure, set, limit, first, last)
        }
        _ => None,
    }
}

/// The certifier that a record states.
fn certifier_row(fields: &[&[u8]]) -> Option<Certifier>
    ensures { result ≡ certifier_row (map (λ f. f.now) fields.now) }
{
    match fields {
        [user, procedure] => Some(Certifier {
            user: user_number(user)?,
            procedure: procedure_named(procedure)?,
        }),
        _ => None,
    }
}

impl ListRow for Branch {
    ghost row_of = { branch_row };

    ghost heading = { branch_names };

    fn is_heading(fields: &[&[u8]]) -> bool {
        is_record(&[b"branch", b"balance", b"cash"], fields)
    }

    fn read(_alloc: Global, fields: &[&[u8]]) -> Result<Option<Branch>, AllocError> {
        Ok(branch_row(fields))
    }
}

impl ListRow for Teller {
    ghost row_of = { teller_row };

    ghost heading = { teller_names };

    fn is_heading(fields: &[&[u8]]) -> bool {
        is_record(&[b"teller", b"branch", b"balance"], fields)
    }

    fn read(_alloc: Global, fields: &[&[u8]]) -> Result<Option<Teller>, AllocError> {
        Ok(teller_row(fields))
    }
}

impl ListRow for Account {
    ghost row_of = { account_row };

    ghost heading = { account_names };

    fn is_heading(fields: &[&[u8]]) -> bool {
        is_record(&[b"account", b"home", b"balance", b"floor"], fields)
    }

    fn read(_alloc: Global, fields: &[&[u8]]) -> Result<Option<Account>, AllocError> {
        Ok(account_row(fields))
    }
}

impl ListRow for SetMember {
    ghost row_of = { member_row };

    ghost heading = { member_names };

    fn is_heading(fields: &[&[u8]]) -> bool {
        is_record(&[b"set", b"kind", b"low", b"high"], fields)
    }

    fn read(_alloc: Global, fields: &[&[u8]]) -> Result<Option<SetMember>, AllocError> {
        Ok(member_row(fields))
    }
}

impl ListRow for Relation {
    ghost row_of = { relation_row };

    ghost heading = { relation_names };

    fn is_heading(fields: &[&[u8]]) -> bool {
        is_record(&[b"procedure", b"set", b"by"], fields)
    }

    fn read(_alloc: Global, fields: &[&[u8]]) -> Result<Option<Relation>, AllocError> {
        Ok(relation_row(fields))
    }
}

impl ListRow for Certifier {
    ghost row_of = { certifier_row };

    ghost heading = { certifier_names };

    fn is_heading(fields: &[&[u8]]) -> bool {
        is_record(&[b"user", b"procedure"], fields)
    }

    fn read(_alloc: Global, fields: &[&[u8]]) -> Result<Option<Certifier>, AllocError> {
        Ok(certifier_row(fields))
    }
}

impl ListRow for User {
    ghost row_of = { user_row };

    ghost heading = { user_names };

    fn is_heading(fields: &[&[u8]]) -> bool {
        is_record(&[b"user", b"name", b"officer"], fields)
    }

    fn read(alloc: Global, fields: &[&[u8]]) -> Result<Option<User>, AllocError> {
        user_row(alloc, fields)
    }
}
