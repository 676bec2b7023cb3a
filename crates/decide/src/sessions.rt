//! Sessions: a user opens one before asking for anything else, and ends it.

ghost use Rattle.std.specs.Prelude.{◌≡◌, ◌+◌, None, Some, Ok, Err, IfErr, IfOk, IsNone, IsSome, OnOk};
ghost use Rattle.serde_json.specs.View.{view};
ghost use Rattle.bank_terms.specs.declared.rule.Rule.TheVariants.{Identity};
ghost use Rattle.store_rows.specs.Status.{Answers, Reads, Refuses, StaysWhole, mark_of};
ghost use Rattle.bank_meaning.specs.Requests.{ends_session, first, opens_session, verdict};
ghost use Rattle.bank_meaning.specs.Sessions.{ending_data, ending_text, first_against_ending, first_against_opening, latest, opening_data, opening_text};
ghost use Rattle.op_prepare.specs.Judged.{DeniesOrCounts, IsJudged};
ghost use Rattle.decide.specs.OneRequest.{IsAnsweredInJson, LeavesBoth, Moves, Replies, Settles};

use crate::carried_out::carry_out_prepared;
use crate::policy_rules::is_identified;
use bank_books::RowWrite;
use bank_meaning::Who;
use bank_policy::{Session, Standing};
use bank_terms::{MAX_KEY, Rule};
use command_reads::standing_of;
use money::Fault;
use op_prepare::{Prepared, compact};
use serde_json::{Value, json};
use std::alloc::{AllocError, Global};
use store_rows::{Bank, PolicyReads, Store};

/// Opens the next session of the user whom the authenticator names, and replies its number, which the user has to name
/// from then on. A session of theirs that is open is replaced. Else the first rule that denies: there is no such user,
/// they are suspended, or their sessions have no number left. At a fault nothing has changed. Where a rule denies, a
/// fault is one that the store counted. A request of no user is denied whatever the store holds, and so can't fail.
pub fn begin<S: Store>(
    bank: &mut Bank<S>,
    alloc: Global,
    user: Option<u32>,
) -> Result<Result<Vec<u8>, Rule>, Fault>
    ensures answers { Answers (S.status bank.old.store) (S.status bank.new.store) (mark_of result) }
    ensures moved { Moves (S.status bank.old.store) (S.status bank.new.store) (opens_session user) (mark_of result) }
    ensures replied { Replies (S.status bank.old.store) (S.status bank.new.store) (opens_session user) IsAnsweredInJson result }
    ensures crash { LeavesBoth (S.status bank.old.store) (S.status bank.new.store) (opens_session user) }
    ensures whole { StaysWhole (S.status bank.old.store) (S.status bank.new.store) }
    ensures settled { Settles (S.status bank.old.store) (S.status bank.new.store) (opens_session user) (mark_of result) }
    ensures refused { IsSome user → Refuses (S.status bank.old.store) (mark_of result) }
    ensures stranger { IsNone user → result ≡ Ok (Err Identity) }
    ensures denied { DeniesOrCounts (S.status bank.old.store) (S.status bank.new.store) (λ w. first w (opens_session user)) result }
{
    let Some(user) = user else {
        return Ok(Err(Rule::Identity));
    };
    let judged = prepare_opening(alloc, &mut bank.store, user)?;
    carry_out_prepared(alloc, &mut bank.store, judged)
}

/// Ends the session of who asks, and replies its number, which stays: until they open the next one, they can ask
/// for nothing else. Else the first rule that denies: they are not known by it. At a fault nothing has changed. Where
/// a rule denies, a fault was counted by the store. A request of no user is denied whatever the store holds, and so
/// can't fail.
pub fn end<S: Store>(
    bank: &mut Bank<S>,
    alloc: Global,
    who: Who,
) -> Result<Result<Vec<u8>, Rule>, Fault>
    ensures answers { Answers (S.status bank.old.store) (S.status bank.new.store) (mark_of result) }
    ensures moved { Moves (S.status bank.old.store) (S.status bank.new.store) (ends_session who) (mark_of result) }
    ensures replied { Replies (S.status bank.old.store) (S.status bank.new.store) (ends_session who) IsAnsweredInJson result }
    ensures crash { LeavesBoth (S.status bank.old.store) (S.status bank.new.store) (ends_session who) }
    ensures whole { StaysWhole (S.status bank.old.store) (S.status bank.new.store) }
    ensures settled { Settles (S.status bank.old.store) (S.status bank.new.store) (ends_session who) (mark_of result) }
    ensures refused { IsSome who.user → Refuses (S.status bank.old.store) (mark_of result) }
    ensures stranger { IsNone who.user → result ≡ Ok (Err Identity) }
    ensures denied { DeniesOrCounts (S.status bank.old.store) (S.status bank.new.store) (λ w. first w (ends_session who)) result }
{
    if who.user.is_none() {
        return Ok(Err(Rule::Identity));
    }
    let judged = prepare_ending(alloc, &mut bank.store, who)?;
    carry_out_prepared(alloc, &mut bank.store, judged)
}

/// What opens a session of this user, or the first rule that denies it.
fn prepare_opening<P: PolicyReads>(
    alloc: Global,
    store: &mut P,
    user: u32,
) -> Result<Result<Prepared, Rule>, Fault>
    ensures judged { Reads (P.status store.old) (P.status store.new) result (IsJudged (verdict (opens_session (Some user)))) }
    ensures denied { DeniesOrCounts (P.status store.old) (P.status store.new) (λ w. first w (opens_session (Some user))) result }
{
    let standing = standing_of(alloc, store, user)?;
    match next_session(standing) {
        Ok(session) => {
            let opened = Session {
                user,
                session,
                on: true,
            };
            let plan = vec![in alloc; RowWrite::Session(opened)]?;
            let text = opening_text(alloc, session)?;
            Ok(Ok(Prepared { plan, text }))
        }
        Err(rule) => Ok(Err(rule)),
    }
}

/// What ends the session of who asks, or the first rule that denies it.
fn prepare_ending<P: PolicyReads>(
    alloc: Global,
    store: &mut P,
    who: Who,
) -> Result<Result<Prepared, Rule>, Fault>
    requires { IsSome who.user }
    ensures judged { Reads (P.status store.old) (P.status store.new) result (IsJudged (verdict (ends_session who))) }
    ensures denied { DeniesOrCounts (P.status store.old) (P.status store.new) (λ w. first w (ends_session who)) result }
{
    let Some(user) = who.user else {
        unreachable!();
    };
    let standing = standing_of(alloc, store, user)?;
    match present_session(standing, who.session) {
        Ok(session) => {
            let ended = Session {
                user,
                session,
                on: false,
            };
            let plan = vec![in alloc; RowWrite::Session(ended)]?;
            let text = ending_text(alloc, session)?;
            Ok(Ok(Prepared { plan, text }))
        }
        Err(rule) => Ok(Err(rule)),
    }
}

/// The first rule that denies the opening of a session, or none, by what the row of the user says.
pub(crate) fn rule_against_opening(standing: Option<Standing>) -> Option<Rule>
    ensures { result ≡ first_against_opening standing }
{
    next_session(standing).err()
}

/// The first rule that denies the ending of this session, or none.
pub(crate) fn rule_against_ending(standing: Option<Standing>, session: u32) -> Option<Rule>
    ensures { result ≡ first_against_ending standing session }
{
    present_session(standing, session).err()
}

/// The number of the session that is opened next, or the first rule that denies its opening.
fn next_session(standing: Option<Standing>) -> Result<u32, Rule>
    ensures number { IfOk result (λ number. number ≡ latest standing + 1) }
    ensures allowed { OnOk result (first_against_opening standing ≡ None) }
    ensures denied { IfErr result (λ rule. first_against_opening standing ≡ Some rule) }
{
    match standing {
        Some(row) if !row.suspended => {
            if row.session < MAX_KEY {
                Ok(row.session + 1)
            } else {
                Err(Rule::Full)
            }
        }
        _ => Err(Rule::Identity),
    }
}

/// The number of the session that is ended, or the first rule that denies its ending.
fn present_session(standing: Option<Standing>, session: u32) -> Result<u32, Rule>
    ensures number { IfOk result (λ number. number ≡ latest standing) }
    ensures allowed { OnOk result (first_against_ending standing session ≡ None) }
    ensures denied { IfErr result (λ rule. first_against_ending standing session ≡ Some rule) }
{
    match standing {
        Some(row) if is_identified(standing, session) => Ok(row.session),
        _ => Err(Rule::Identity),
    }
}

/// The bytes of the reply to an opening.
fn opening_text(alloc: Global, session: u32) -> Result<Vec<u8>, AllocError>
    ensures { IfOk result (λ text. text.items ≡ opening_text session) }
{
    let value = opening_value(alloc, session)?;
    compact(alloc, &value)
}

fn opening_value(alloc: Global, session: u32) -> Result<Value, AllocError>
    ensures { IfOk result (λ value. view value ≡ opening_data session) }
{
    json!(in alloc; {"session": session})
}

/// The bytes of the reply to an ending.
fn ending_text(alloc: Global, session: u32) -> Result<Vec<u8>, AllocError>
    ensures { IfOk result (λ text. text.items ≡ ending_text session) }
{
    let value = ending_value(alloc, session)?;
    compact(alloc, &value)
}

fn ending_value(alloc: Global, session: u32) -> Result<Value, AllocError>
    ensures { IfOk result (λ value. view value ≡ ending_data session) }
{
    json!(in alloc; {"ended": session})
}
