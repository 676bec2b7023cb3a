//! Commands of the policy: an officer or a certifier asks for each, in their session.

ghost use Rattle.std.specs.Prelude.{◌≡◌, Ok, Err, IfOk, IsNone, IsSome};
ghost use Rattle.serde_json.specs.View.{view};
ghost use Rattle.bank_terms.specs.declared.rule.Rule.TheVariants.{Identity};
ghost use Rattle.bank_books.specs.WorldLists.{WorldLists};
ghost use Rattle.store_rows.specs.Status.{Answers, Reads, Refuses, StaysWhole, mark_of};
ghost use Rattle.bank_meaning.specs.Commands.{done_data, done_text};
ghost use Rattle.bank_meaning.specs.Requests.{commands, first, verdict};
ghost use Rattle.op_prepare.specs.Judged.{DeniesOrCounts, IsJudged};
ghost use Rattle.policy_commands.specs.Ranges.{IsPolicyOp};
ghost use Rattle.decide.specs.Judged.{ChangesPolicy};
ghost use Rattle.decide.specs.Loaded.{IsLoadedForCommand};
ghost use Rattle.decide.specs.OneRequest.{FindsVersion, IsAnsweredInJson, LeavesBoth, Moves, Replies, Settles};

use crate::by_rows::CommandGrounds;
use crate::carried_out::carry_out_prepared;
use crate::policy_rules::is_identified;
use bank_meaning::Who;
use bank_terms::Rule;
use certify::{plan_policy, rule_against_command};
use command_reads::{load_command_rows, standing_of};
use money::Fault;
use op_prepare::{Prepared, compact};
use policy_commands::{Command, PolicyOp};
use serde_json::{Value, json};
use std::alloc::{AllocError, Global};
use store_rows::{Bank, PolicyReads, Store};

/// Carries a command of the policy out, whose members are in their ranges, and replies that it is done. Else the first
/// rule that denies it. At a fault nothing has changed: `Fault::Size` says that the policy was changed as often as it can
/// be. Where a rule denies, a fault is one that the store counted. A request of no user is denied whatever the store
/// holds, and so can't fail.
pub fn decide_policy<S: Store>(
    bank: &mut Bank<S>,
    alloc: Global,
    who: Who,
    command: PolicyOp,
) -> Result<Result<Vec<u8>, Rule>, Fault>
    requires proper { IsPolicyOp command }
    ensures answers { Answers (S.status bank.old.store) (S.status bank.new.store) (mark_of result) }
    ensures moved { Moves (S.status bank.old.store) (S.status bank.new.store) (commands command who) (mark_of result) }
    ensures replied { Replies (S.status bank.old.store) (S.status bank.new.store) (commands command who) IsAnsweredInJson result }
    ensures crash { LeavesBoth (S.status bank.old.store) (S.status bank.new.store) (commands command who) }
    ensures whole { StaysWhole (S.status bank.old.store) (S.status bank.new.store) }
    ensures settled { Settles (S.status bank.old.store) (S.status bank.new.store) (commands command who) (mark_of result) }
    ensures room { FindsVersion (S.status bank.old.store) (S.status bank.new.store) result }
    ensures refused { IsSome who.user → Refuses (S.status bank.old.store) (mark_of result) }
    ensures stranger { IsNone who.user → result ≡ Ok (Err Identity) }
    ensures denied { DeniesOrCounts (S.status bank.old.store) (S.status bank.new.store) (λ w. first w (commands command who)) result }
{
    if who.user.is_none() {
        return Ok(Err(Rule::Identity));
    }
    let judged = prepare_command(alloc, &mut bank.store, who, command)?;
    carry_out_prepared(alloc, &mut bank.store, judged)
}

/// What carries a command out, or the first rule that denies it. Who asks is judged before anything else is read.
fn prepare_command<P: PolicyReads>(
    alloc: Global,
    store: &mut P,
    who: Who,
    command: PolicyOp,
) -> Result<Result<Prepared, Rule>, Fault>
    requires { IsSome who.user }
    ensures judged { Reads (P.status store.old) (P.status store.new) result (IsJudged (verdict (commands command who))) }
    ensures changes { ChangesPolicy result }
    ensures denied { DeniesOrCounts (P.status store.old) (P.status store.new) (λ w. first w (commands command who)) result }
{
    let Some(user) = who.user else {
        unreachable!();
    };
    let standing = standing_of(alloc, store, user)?;
    if !is_identified(standing, who.session) {
        return Ok(Err(Rule::Identity));
    }
    let rows = load_command_rows(alloc, store, user, standing, &command)?;
    let done = command.command();
    match plan_policy(alloc, &rows, user, command)? {
        Ok(plan) => {
            let text = done_text(alloc, done)?;
            Ok(Ok(Prepared { plan, text }))
        }
        Err(rule) => Ok(Err(rule)),
    }
}

/// The first rule that denies a command, or none, where these are its rows.
pub(crate) fn rule_against_asked(
    grounds: &CommandGrounds,
    who: Who,
    command: &PolicyOp,
) -> Option<Rule>
    ensures { (w : WorldLists) → IsLoadedForCommand w who command.now grounds.now → result ≡ first w (commands command.now who) }
{
    if !is_identified(grounds.standing, who.session) {
        return Some(Rule::Identity);
    }
    rule_against_command(&grounds.rows, who.user.unwrap_or(0), command)
}

/// The bytes of the reply.
fn done_text(alloc: Global, command: Command) -> Result<Vec<u8>, AllocError>
    ensures { IfOk result (λ text. text.items ≡ done_text command) }
{
    let value = done_value(alloc, command)?;
    compact(alloc, &value)
}

fn done_value(alloc: Global, command: Command) -> Result<Value, AllocError>
    ensures { IfOk result (λ value. view value ≡ done_data command) }
{
    json!(in alloc; {"done": command.name()})
}
