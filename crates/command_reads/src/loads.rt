//! The rows of the policy that a command is judged on, loaded by the form of the command.

ghost use Rattle.std.specs.Prelude.{◌≡◌};
ghost use Rattle.std.specs.List.{list_any};
ghost use Rattle.bank_policy.specs.HeldRows.{standing, triples_of};
ghost use Rattle.world_reads.specs.PolicyReads.{is_certifier};
ghost use Rattle.store_rows.specs.Status.{MayRead, ReadsRow, count_after, mark_of};
ghost use Rattle.certify.specs.CommandRows.{certifies_any, command_rows};
ghost use Rattle.certify.specs.StoredRows.{appoint_rows, dismiss_rows, enrol_rows, suspension_rows};

use crate::standing::standing_of;
use bank_policy::{Certifier, ItemSet, Standing, Triple};
use bank_terms::Procedure;
use certify::CommandRows;
use money::Fault;
use policy_commands::{Enrolment, PolicyOp, RelationKey, TripleKey, UserKey};
use std::alloc::Global;
use store_rows::PolicyReads;

/// The rows of the policy that a command of this user is judged on, where their own row says this. The
/// first rule against it is that of its plan.
pub fn load_command_rows<P: PolicyReads>(
    alloc: Global,
    store: &mut P,
    by: u32,
    asks: Option<Standing>,
    command: &PolicyOp,
) -> Result<CommandRows, Fault>
    ensures { ReadsRow (P.status store.old) (P.status store.new) result (λ w rows. asks ≡ standing w.policy by → rows ≡ command_rows w.policy by command.now) }
{
    match command {
        PolicyOp::DefineSet(set) => load_define_set(alloc, store, by, set),
        PolicyOp::Certify(key) => load_certify(alloc, store, by, key),
        PolicyOp::Withdraw(key) => load_withdraw(alloc, store, by, key),
        PolicyOp::Grant(triple) => load_grant(alloc, store, by, triple),
        PolicyOp::Revoke(key) => load_revoke(alloc, store, by, key),
        PolicyOp::Appoint(certifier) => load_appoint(alloc, store, asks, certifier),
        PolicyOp::Dismiss(certifier) => load_dismiss(alloc, store, asks, certifier),
        PolicyOp::Enrol(enrolment) => load_enrol(alloc, store, asks, enrolment),
        PolicyOp::Suspend(key) => load_suspension(alloc, store, asks, key),
        PolicyOp::Restore(key) => load_suspension(alloc, store, asks, key),
    }
}

fn load_define_set<P: PolicyReads>(
    alloc: Global,
    store: &mut P,
    by: u32,
    set: &ItemSet,
) -> Result<CommandRows, Fault>
    ensures { ReadsRow (P.status store.old) (P.status store.new) result (λ w rows. rows ≡ command_rows w.policy by (PolicyOp.DefineSet set.now)) }
{
    let has_set = store.set(alloc, set.set())?;
    let count = store.sets(alloc)?;
    let certifies = certifies_any(alloc, store, by)?;
    Ok(CommandRows::of_define_set(certifies, has_set, count))
}

fn load_certify<P: PolicyReads>(
    alloc: Global,
    store: &mut P,
    by: u32,
    key: &RelationKey,
) -> Result<CommandRows, Fault>
    ensures { ReadsRow (P.status store.old) (P.status store.new) result (λ w rows. rows ≡ command_rows w.policy by (PolicyOp.Certify key.now)) }
{
    let certifies = store.certifier(alloc, by, key.procedure)?;
    let has_set = store.set(alloc, key.set)?;
    let relations = store.relations_of(alloc, key.procedure)?;
    Ok(CommandRows::of_certify(certifies, has_set, &relations, key))
}

fn load_withdraw<P: PolicyReads>(
    alloc: Global,
    store: &mut P,
    by: u32,
    key: &RelationKey,
) -> Result<CommandRows, Fault>
    ensures { ReadsRow (P.status store.old) (P.status store.new) result (λ w rows. rows ≡ command_rows w.policy by (PolicyOp.Withdraw key.now)) }
{
    let certifies = store.certifier(alloc, by, key.procedure)?;
    let relations = store.relations_of(alloc, key.procedure)?;
    Ok(CommandRows::of_withdraw(certifies, &relations, key))
}

fn load_grant<P: PolicyReads>(
    alloc: Global,
    store: &mut P,
    by: u32,
    triple: &Triple,
) -> Result<CommandRows, Fault>
    ensures { ReadsRow (P.status store.old) (P.status store.new) result (λ w rows. rows ≡ command_rows w.policy by (PolicyOp.Grant triple.now)) }
{
    let certifies = store.certifier(alloc, by, triple.procedure)?;
    let user = standing_of(alloc, store, triple.user)?;
    let is_certifier = store.certifier(alloc, triple.user, triple.procedure)?;
    let relations = store.relations_of(alloc, triple.procedure)?;
    let triples = store.triples_of(alloc, triple.user, triple.procedure)?;
    let count = store.triples(alloc, triple.user)?;
    Ok(CommandRows::of_grant(
        certifies,
        user,
        is_certifier,
        &relations,
        &triples,
        count,
        triple,
    ))
}

fn load_revoke<P: PolicyReads>(
    alloc: Global,
    store: &mut P,
    by: u32,
    key: &TripleKey,
) -> Result<CommandRows, Fault>
    ensures { ReadsRow (P.status store.old) (P.status store.new) result (λ w rows. rows ≡ command_rows w.policy by (PolicyOp.Revoke key.now)) }
{
    let certifies = store.certifier(alloc, by, key.procedure)?;
    let triples = store.triples_of(alloc, key.user, key.procedure)?;
    Ok(CommandRows::of_revoke(certifies, &triples, key))
}

fn load_appoint<P: PolicyReads>(
    alloc: Global,
    store: &mut P,
    asks: Option<Standing>,
    certifier: &Certifier,
) -> Result<CommandRows, Fault>
    ensures { ReadsRow (P.status store.old) (P.status store.new) result (λ w rows. rows ≡ appoint_rows asks (standing w.policy certifier.now.user) (triples_of w.policy certifier.now.user certifier.now.procedure) (is_certifier w certifier.now.user certifier.now.procedure)) }
{
    let user = standing_of(alloc, store, certifier.user)?;
    let triples = store.triples_of(alloc, certifier.user, certifier.procedure)?;
    let is_certifier = store.certifier(alloc, certifier.user, certifier.procedure)?;
    Ok(CommandRows::of_appoint(asks, user, &triples, is_certifier))
}

fn load_dismiss<P: PolicyReads>(
    alloc: Global,
    store: &mut P,
    asks: Option<Standing>,
    certifier: &Certifier,
) -> Result<CommandRows, Fault>
    ensures { ReadsRow (P.status store.old) (P.status store.new) result (λ w rows. rows ≡ dismiss_rows asks (is_certifier w certifier.now.user certifier.now.procedure)) }
{
    let is_there = store.certifier(alloc, certifier.user, certifier.procedure)?;
    Ok(CommandRows::of_dismiss(asks, is_there))
}

fn load_enrol<P: PolicyReads>(
    alloc: Global,
    store: &mut P,
    asks: Option<Standing>,
    enrolment: &Enrolment,
) -> Result<CommandRows, Fault>
    ensures { ReadsRow (P.status store.old) (P.status store.new) result (λ w rows. rows ≡ enrol_rows asks (standing w.policy enrolment.now.user)) }
{
    let user = standing_of(alloc, store, enrolment.user)?;
    Ok(CommandRows::of_enrol(asks, user))
}

/// Of a user to suspend or to restore.
fn load_suspension<P: PolicyReads>(
    alloc: Global,
    store: &mut P,
    asks: Option<Standing>,
    key: &UserKey,
) -> Result<CommandRows, Fault>
    ensures { ReadsRow (P.status store.old) (P.status store.new) result (λ w rows. rows ≡ suspension_rows asks (standing w.policy key.now.user)) }
{
    let user = standing_of(alloc, store, key.user)?;
    Ok(CommandRows::of_suspension(asks, user))
}

/// Whether a user is a certifier of any procedure.
fn certifies_any<P: PolicyReads>(alloc: Global, store: &mut P, user: u32) -> Result<bool, Fault>
    ensures read { MayRead (P.status store.old) (P.status store.new) result (λ w is. is ≡ certifies_any w.policy user) }
    ensures counted { (P.status store.new).fault_count ≡ count_after (mark_of result) (P.status store.old).fault_count }
{
    certifies_one_of(alloc, store, user, &Procedure::all())
}

/// Whether a user is a certifier of one of these procedures. No more of them are asked about than it
/// takes.
fn certifies_one_of<P: PolicyReads>(
    alloc: Global,
    store: &mut P,
    user: u32,
    procedures: &[Procedure],
) -> Result<bool, Fault>
    ensures read { MayRead (P.status store.old) (P.status store.new) result (λ w is. is ≡ list_any (is_certifier w user) procedures.now) }
    ensures counted { (P.status store.new).fault_count ≡ count_after (mark_of result) (P.status store.old).fault_count }
{
    for &procedure in procedures {
        if store.certifier(alloc, user, procedure)? {
            return Ok(true);
        }
    }
    Ok(false)
}
