//! The users, sets, certified relations, triples and certifiers of the sample bank.

ghost use Rattle.std.specs.Prelude.{◌≡◌, [], IfOk, OnOk, fold};
ghost use Rattle.keyed_rows.specs.Ordered.{add_row};
ghost use Rattle.bank_policy.specs.PolicyKeys.{certifier_key, relation_key, triple_key};
ghost use Rattle.sample_bank.specs.SamplePolicy.{at_the_counter, certifier, certifiers, everything, first_branch, listed, member, relation, relations, sample_policy, sets, triple, triples, user, users};

use bank_policy::{Certifier, ItemSet, Member, Name, Policy, Relation, Triple, User};
use bank_terms::{Kind, MAX_MOMENT, Procedure};
use std::alloc::{AllocError, Global};

/// The policy of the sample bank. The only error is that memory is refused.
pub fn sample_policy(alloc: Global) -> Result<Policy, AllocError>
    ensures { IfOk result (λ policy. policy ≡ sample_policy) }
{
    let mut policy = Policy::new(alloc);
    add_users(alloc, &mut policy)?;
    add_sets(alloc, &mut policy)?;
    add_relations(&mut policy)?;
    add_triples(&mut policy)?;
    add_certifiers(&mut policy)?;
    Ok(policy)
}

fn add_users(alloc: Global, policy: &mut Policy) -> Result<(), AllocError>
    requires { policy.old.users ≡ [] }
    ensures { OnOk result (policy.new ≡ record policy.old { users = users }) }
{
    policy.add_user(user(alloc, 1, "Olga", true)?)?;
    policy.add_user(user(alloc, 2, "Carl", false)?)?;
    policy.add_user(user(alloc, 3, "Cora", false)?)?;
    policy.add_user(user(alloc, 7, "Tess", false)?)?;
    policy.add_user(user(alloc, 8, "Tom", false)?)?;
    policy.add_user(user(alloc, 9, "Sue", false)?)
}

/// A user whose first session is open.
fn user(alloc: Global, number: u32, name: &str, officer: bool) -> Result<User, AllocError>
    ensures { IfOk result (λ row. row ≡ user number name.now officer) }
{
    Ok(User {
        user: number,
        name: Name::new(alloc, name)?,
        officer,
        suspended: false,
        session: 1,
        on: true,
    })
}

fn add_sets(alloc: Global, policy: &mut Policy) -> Result<(), AllocError>
    requires { policy.old.sets ≡ [] }
    ensures { OnOk result (policy.new ≡ record policy.old { sets = sets }) }
{
    policy.add_set(ItemSet::new(1, everything(alloc)?))?;
    policy.add_set(ItemSet::new(2, first_branch(alloc)?))?;
    policy.add_set(ItemSet::new(3, at_the_counter(alloc, 101)?))?;
    policy.add_set(ItemSet::new(4, at_the_counter(alloc, 102)?))?;
    policy.add_set(ItemSet::new(5, listed(alloc)?))
}

fn everything(alloc: Global) -> Result<Vec<Member>, AllocError>
    ensures { IfOk result (λ members. members.items ≡ everything) }
{
    Ok(vec![in alloc;
        member(Kind::Account, 1, 999_999),
        member(Kind::Teller, 1, 999),
        member(Kind::Branch, 1, 99),
        member(Kind::History, 1, 99),
        member(Kind::Drawer, 1, 999),
        member(Kind::Vault, 1, 99),
    ]?)
}

fn first_branch(alloc: Global) -> Result<Vec<Member>, AllocError>
    ensures { IfOk result (λ members. members.items ≡ first_branch) }
{
    Ok(vec![in alloc;
        member(Kind::Account, 101, 102),
        member(Kind::Account, 201, 201),
        member(Kind::Teller, 11, 12),
        member(Kind::Branch, 1, 1),
        member(Kind::History, 1, 1),
        member(Kind::Drawer, 11, 12),
        member(Kind::Vault, 1, 1),
    ]?)
}

fn at_the_counter(alloc: Global, account: u32) -> Result<Vec<Member>, AllocError>
    ensures { IfOk result (λ members. members.items ≡ at_the_counter account) }
{
    Ok(vec![in alloc;
        member(Kind::Account, account, account),
        member(Kind::Teller, 11, 12),
        member(Kind::Branch, 1, 1),
        member(Kind::History, 1, 1),
        member(Kind::Drawer, 11, 12),
    ]?)
}

fn listed(alloc: Global) -> Result<Vec<Member>, AllocError>
    ensures { IfOk result (λ members. members.items ≡ listed) }
{
    Ok(vec![in alloc;
        member(Kind::Account, 101, 150),
        member(Kind::Account, 102, 199),
    ]?)
}

/// The items of a kind from `low` to `high`.
fn member(kind: Kind, low: u32, high: u32) -> Member
    ensures { result ≡ member kind low high }
{
    Member { kind, low, high }
}

fn add_relations(policy: &mut Policy) -> Result<(), AllocError>
    requires { policy.old.relations ≡ [] }
    ensures { OnOk result (policy.new ≡ record policy.old { relations = relations }) }
{
    write_relations(
        policy,
        &[
            (Procedure::Post, 1),
            (Procedure::Post, 2),
            (Procedure::Transfer, 1),
            (Procedure::Transfer, 2),
            (Procedure::Transfer, 3),
            (Procedure::Transfer, 4),
            (Procedure::Correct, 2),
            (Procedure::DrawerOn, 2),
            (Procedure::DrawerOff, 2),
            (Procedure::MoveCash, 2),
            (Procedure::NewAccount, 1),
            (Procedure::Release, 1),
            (Procedure::Balance, 1),
            (Procedure::Balance, 2),
            (Procedure::Statement, 2),
            (Procedure::Accounts, 5),
            (Procedure::Proof, 2),
            (Procedure::CloseDay, 2),
        ],
    )
}

/// Writes the certificates of procedures on sets, all by Carl.
#[tactic(auto, using(std::proofs::lemmas::List::Sums::fold_more))]
fn write_relations(policy: &mut Policy, rows: &[(Procedure, u32)]) -> Result<(), AllocError>
    ensures { OnOk result (policy.new ≡ record policy.old { relations = fold (λ written row. add_row relation_key (relation row.0 row.1) written) policy.old.relations rows.now }) }
{
    for &(procedure, set) in rows {
        policy.add_relation(Relation {
            procedure,
            set,
            by: 2,
        })?;
    }
    Ok(())
}

fn add_triples(policy: &mut Policy) -> Result<(), AllocError>
    requires { policy.old.triples ≡ [] }
    ensures { OnOk result (policy.new ≡ record policy.old { triples = triples }) }
{
    let of_tess = [
        (Procedure::Post, 2, 999_999),
        (Procedure::Transfer, 3, 50_000),
        (Procedure::Transfer, 4, 50_000),
        (Procedure::Correct, 2, 999_999),
        (Procedure::DrawerOn, 2, 100_000),
        (Procedure::DrawerOff, 2, 0),
        (Procedure::MoveCash, 2, 100_000),
        (Procedure::Balance, 2, 0),
        (Procedure::Statement, 2, 0),
        (Procedure::Accounts, 5, 0),
    ];
    let of_tom = [
        (Procedure::Post, 1, 1_000),
        (Procedure::Post, 2, 50_000),
        (Procedure::Transfer, 1, 1_000),
        (Procedure::Transfer, 2, 50_000),
        (Procedure::Correct, 2, 999_999),
        (Procedure::DrawerOn, 2, 100_000),
        (Procedure::DrawerOff, 2, 0),
    ];
    let of_sue = [
        (Procedure::NewAccount, 1, 0),
        (Procedure::Release, 1, 999_999),
        (Procedure::Proof, 2, 0),
        (Procedure::CloseDay, 2, 0),
    ];
    write_triples(policy, 7, &of_tess)?;
    write_triples(policy, 8, &of_tom)?;
    write_triples(policy, 9, &of_sue)
}

/// Writes what a user may carry out at every moment, on the items of which set and up to which limit in cents.
#[tactic(auto, using(std::proofs::lemmas::List::Sums::fold_more))]
fn write_triples(
    policy: &mut Policy,
    user: u32,
    rows: &[(Procedure, u32, u32)],
) -> Result<(), AllocError>
    ensures { OnOk result (policy.new ≡ record policy.old { triples = fold (λ written row. add_row triple_key (triple user row.0 row.1 row.2) written) policy.old.triples rows.now }) }
{
    for &(procedure, set, limit) in rows {
        policy.add_triple(Triple {
            user,
            procedure,
            set,
            limit,
            first: 0,
            last: MAX_MOMENT,
        })?;
    }
    Ok(())
}

fn add_certifiers(policy: &mut Policy) -> Result<(), AllocError>
    requires { policy.old.certifiers ≡ [] }
    ensures { OnOk result (policy.new ≡ record policy.old { certifiers = certifiers }) }
{
    let procedures = Procedure::all();
    write_certifiers(policy, 2, &procedures)?;
    write_certifiers(policy, 3, &procedures)
}

/// Writes that a user may certify these procedures.
#[tactic(auto, using(std::proofs::lemmas::List::Sums::fold_more))]
fn write_certifiers(
    policy: &mut Policy,
    user: u32,
    procedures: &[Procedure],
) -> Result<(), AllocError>
    ensures { OnOk result (policy.new ≡ record policy.old { certifiers = fold (λ written procedure. add_row certifier_key (certifier user procedure) written) policy.old.certifiers procedures.now }) }
{
    for &procedure in procedures {
        policy.add_certifier(Certifier { user, procedure })?;
    }
    Ok(())
}
