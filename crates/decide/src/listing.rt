//! The listing of the policy: an officer asks for it, in their session.

ghost use Rattle.std.specs.Prelude.{◌≡◌, IfErr, IfOk, IsNone, IsOkAnd, IsSome, None};
ghost use Rattle.std.specs.Borrow.{sem, RestsIfErr};
ghost use Rattle.store_rows.specs.contracts.bank.Bank.{the_row};
ghost use Rattle.store_rows.specs.Status.{Keeps, Reads, Refuses, Tells, mark_of};
ghost use Rattle.bank_meaning.specs.Listing.{first_against_listing, is_officer_row};
ghost use Rattle.bank_meaning.specs.Requests.{first, lists, verdict};
ghost use Rattle.op_prepare.specs.Judged.{DeniesOrCounts, IsCountedFor};
ghost use Rattle.decide.specs.Listed.{IsListed, IsListedToStranger, listed_bank};

use crate::permit::Denial;
use crate::policy_rules::is_identified;
use bank_meaning::Who;
use bank_policy::Standing;
use bank_terms::Rule;
use command_reads::standing_of;
use money::Fault;
use reports::{Contents, Listing, Report, counted};
use rule_tests::first_denial;
use std::alloc::Global;
use store_rows::{Bank, PolicyReads, ReportReads, Store};

/// What is decided of the listing of the policy.
pub enum Listed<'b, S> {
    /// A rule denies it: the first that does.
    Denied(Denial<'b, S>),
    /// No rule denies it: the report.
    Report(Report<'b, S>),
}

/// Counts the lines of the policy for who asks, and replies with their report; else the first rule that denies it. Nothing
/// is changed. Where a rule denies, a fault is one that the store counted. A request of no user is denied whatever the
/// store holds, and so can't fail.
pub fn list_policy<'b, S: Store>(
    bank: &'b mut Bank<S>,
    alloc: Global,
    who: Who,
) -> Result<Listed<'b, S>, Fault>
    ensures* fault { sem 𝓛 (RestsIfErr (the_row S.row) bank.entry (λ d. (listed_bank d).ghost_name) result (λ n. IfErr result (λ f. Keeps (S.status bank.old.store) (S.status n.store) (Some f))
        × DeniesOrCounts (S.status bank.old.store) (S.status n.store) (λ w. first w (lists who)) result)) }
    ensures same_reference { IfOk result (λ d. (listed_bank d).ghost_name ≡ bank.entry.ghost_name) }
    ensures kept { IfOk result (λ d. Keeps (S.status bank.old.store) (S.status (listed_bank d).now.store) None) }
    ensures refused { IsSome who.user → Refuses (S.status bank.old.store) (mark_of result) }
    ensures stranger { IsNone who.user → IsOkAnd result IsListedToStranger }
    ensures listed { IfOk result (λ d. Tells (S.status bank.old.store) (S.status (listed_bank d).now.store) (λ w. IsListed w (lists who) d)) }
{
    if who.user.is_none() {
        return Ok(Listed::Denied(Denial::new(bank, Rule::Identity)));
    }
    match prepare_listing(alloc, &mut bank.store, who)? {
        Ok(contents) => Ok(Listed::Report(Report::new(alloc, bank, contents))),
        Err(rule) => Ok(Listed::Denied(Denial::new(bank, rule))),
    }
}

/// The lines of the policy, counted, or the first rule that denies them to who asks.
fn prepare_listing<S: PolicyReads + ReportReads>(
    alloc: Global,
    store: &mut S,
    who: Who,
) -> Result<Result<Contents, Rule>, Fault>
    requires { IsSome who.user }
    ensures judged { Reads (S.status store.old) (S.status store.new) result (IsCountedFor (verdict (lists who))) }
    ensures denied { DeniesOrCounts (S.status store.old) (S.status store.new) (λ w. first w (lists who)) result }
{
    let Some(user) = who.user else {
        unreachable!();
    };
    let standing = standing_of(alloc, store, user)?;
    if let Some(rule) = rule_against_listing(standing, who.session) {
        return Ok(Err(rule));
    }
    let contents = counted(alloc, store, Listing::Policy(None), u32::MAX)?;
    Ok(Ok(contents))
}

/// The first rule that denies the listing, or none, by what the row of who asks says.
pub(crate) fn rule_against_listing(standing: Option<Standing>, session: u32) -> Option<Rule>
    ensures { result ≡ first_against_listing standing session }
{
    first_denial(&[
        (Rule::Identity, !is_identified(standing, session)),
        (Rule::Officer, !is_officer(standing)),
    ])
}

fn is_officer(standing: Option<Standing>) -> bool
    ensures { result ≡ is_officer_row standing }
{
    match standing {
        Some(row) => row.officer,
        None => false,
    }
}
