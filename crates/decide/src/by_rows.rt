//! The rows that a request is judged by, once they are loaded, and the first rule that denies it by them.

ghost use Rattle.std.specs.Prelude.{◌≡◌, ◌==◌, ◌&&◌, not, false, nat_le, is_none};
ghost use Rattle.std.specs.Option.{option_map_or};
ghost use Rattle.bank_terms.specs.Limits.{max_slips};
ghost use Rattle.counter_ops.specs.Rows.{row_of};
ghost use Rattle.bank_meaning.specs.Executions.{execution_verdict};
ghost use Rattle.bank_meaning.specs.NamedRelease.{is_same_operation};
ghost use Rattle.bank_meaning.specs.Slips.{slip_named};
ghost use Rattle.bank_books.specs.WorldLists.{WorldLists};
ghost use Rattle.decide.specs.Loaded.{IsLoaded, IsLoadedFor, loaded_grounds};
ghost use Rattle.bank_meaning.specs.PolicyRules.{first_of_policy};
ghost use Rattle.bank_meaning.specs.Requests.{executes, first};

use crate::commands::rule_against_asked;
use crate::listing::rule_against_listing;
use crate::named_release::{NamedRelease, is_released, is_same_operation};
use crate::policy_rules::{authorization_by_triples, is_certified_for, is_identified};
use crate::sessions::{rule_against_ending, rule_against_opening};
use bank_books::Slip;
use bank_meaning::{Asked, Authorization, Execution, Request};
use bank_policy::{CertifiedRow, HeldRow, Standing};
use bank_terms::{MAX_SLIPS, Rule};
use certify::CommandRows;
use counter_ops::{amount, touches};
use op_prepare::{BookRows, first_of_books};
use std::rc::RcSlice;

/// The rows of the policy by which an operation is judged.
#[derive(Drop)]
pub struct PolicyRows {
    /// What the row of the user who asks says of whether they may, or none where there is no such user.
    pub standing: Option<Standing>,
    /// The relations of the procedure.
    pub relations: RcSlice<CertifiedRow>,
    /// The user's triples for it.
    pub held: RcSlice<HeldRow>,
    /// What the release that is named is judged by, or none where it isn't there.
    pub released: Option<NamedRelease>,
}

/// All rows by which one operation is judged.
#[derive(Drop)]
pub struct OperationRows {
    /// Those of the policy.
    pub policy: PolicyRows,
    /// Those of the books.
    pub books: BookRows,
    /// Those of its slip.
    pub slip: SlipRows,
}

/// What the slip of an operation is judged by.
#[derive(Drop)]
pub struct SlipRows {
    /// The slip that is named, or none where none is or who asks has it not.
    pub found: Option<Slip>,
    /// How many slips who asks has.
    pub count: u64,
}

/// All rows by which one command of the policy is judged.
#[derive(Drop)]
pub struct CommandGrounds {
    /// What the row of the user who asks says of whether they may, or none where there is no such user.
    pub standing: Option<Standing>,
    /// What the policy has of that user and of what the command names.
    pub rows: CommandRows,
}

/// All rows by which one request is judged.
#[derive(Drop)]
pub enum Loaded {
    /// Of an operation.
    Operation(OperationRows),
    /// Of the opening or the ending of a session, or of the listing: what the row of the user who asks says of whether
    /// they may, or none where there is no such user.
    Session(Option<Standing>),
    /// Of a command of the policy.
    Command(CommandGrounds),
}

/// The first rule that denies a request, or none, where these rows were loaded for it from a World.
/// It takes no memory.
pub fn first_rule(rows: &Loaded, request: &Request) -> Option<Rule>
    ensures { (w : WorldLists) → IsLoaded w request.now rows.now → result ≡ first w request.now }
{
    match (rows, &request.asked) {
        (Loaded::Operation(rows), Asked::Operation(op)) => first_of_operation(
            rows,
            &Execution {
                who: request.who,
                moment: request.moment,
                op: *op,
            },
        ),
        (Loaded::Session(standing), Asked::Opening) => rule_against_opening(*standing),
        (Loaded::Session(standing), Asked::Ending) => {
            rule_against_ending(*standing, request.who.session)
        }
        (Loaded::Session(standing), Asked::Listing) => {
            rule_against_listing(*standing, request.who.session)
        }
        (Loaded::Command(grounds), Asked::Command(command)) => {
            rule_against_asked(grounds, request.who, command)
        }
        _ => None,
    }
}

/// The same of an operation: the rule on slips comes right after that on identity, and whether there is room for a
/// new slip is asked last.
fn first_of_operation(rows: &OperationRows, execution: &Execution) -> Option<Rule>
    ensures { (w : WorldLists) → IsLoadedFor w execution.now rows.now → result ≡ first w (executes execution.now) }
{
    if !is_identified(rows.policy.standing, execution.who.session) {
        return Some(Rule::Identity);
    }
    if is_of_another(&rows.slip.found, execution) {
        return Some(Rule::Slip);
    }
    match first_without_slip(rows, execution) {
        Some(rule) => Some(rule),
        None if has_no_room(&rows.slip, execution) => Some(Rule::Full),
        None => None,
    }
}

/// Whether a slip that is found was taken with another operation.
fn is_of_another(found: &Option<Slip>, execution: &Execution) -> bool
    ensures { result ≡ option_map_or (λ s. not (is_same_operation s.operation (row_of execution.now.op))) found.now false }
{
    match found {
        Some(slip) => !is_same_operation(&slip.operation(), &execution.op.to_row()),
        None => false,
    }
}

/// Whether a slip that is named would be a new one, and one too many.
fn has_no_room(slip: &SlipRows, execution: &Execution) -> bool
    ensures { result ≡ not (slip_named execution.now == 0) && (is_none slip.now.found && nat_le max_slips slip.now.count) }
{
    execution.slip() != 0 && slip.found.is_none() && slip.count >= MAX_SLIPS
}

/// The same beside its slip: the rules of the policy come first.
fn first_without_slip(rows: &OperationRows, execution: &Execution) -> Option<Rule>
    ensures { (w : WorldLists) → IsLoadedFor w execution.now rows.now → result ≡ (execution_verdict execution.now w).first }
{
    match first_of_policy(&rows.policy, execution) {
        Some(rule) => Some(rule),
        None => first_of_books(&rows.books, &execution.op, execution.signature()),
    }
}

/// The first rule of the policy against an operation, or none.
fn first_of_policy(rows: &PolicyRows, execution: &Execution) -> Option<Rule>
    ensures { result ≡ first_of_policy (loaded_grounds rows.now execution.now) }
{
    if !is_identified(rows.standing, execution.who.session) {
        return Some(Rule::Identity);
    }
    let items = touches(&execution.op);
    if !is_certified_for(&rows.relations, items.as_slice()) {
        return Some(Rule::NotCertified);
    }
    match authorization_by_triples(
        &rows.held,
        items.as_slice(),
        amount(&execution.op),
        execution.who.release,
        execution.moment,
    ) {
        Err(rule) => Some(rule),
        Ok(Authorization::Triple) => None,
        Ok(Authorization::Release(_)) => {
            if is_released(&rows.released, execution) {
                None
            } else {
                Some(Rule::Release)
            }
        }
    }
}
