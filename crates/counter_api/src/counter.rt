//! A bank that answers messages: it decides the request that each states, carries it out, and replies.

ghost use Rattle.std.specs.Prelude.{◌≡◌, ◌≤◌, IfErr, IfOk, OnErr, OnOk};
ghost use Rattle.bank_terms.specs.Limits.{max_moment};
ghost use Rattle.std.specs.Io.KnownBytes.{Appends};
ghost use Rattle.money.specs.Counted.{AppendsBeginning, stream_of};
ghost use Rattle.bank_meaning.specs.Sums.{IsProper};
ghost use Rattle.http_messages.specs.Failures.{CountsByCall};
ghost use Rattle.counter_api.specs.CarriedOut.{IsCarried, IsCarriedOut, IsResponded, KeepsWriter};
ghost use Rattle.counter_api.specs.Handled.{IsDone, outcome_of};
ghost use Rattle.counter_api.specs.Run.{IsResponse, framed};

use crate::response::Response;
use crate::sent::{Sent, streamed};
use counter_clocks::Clock;
use decide::{
    Asked, Decision, Listed, Op, PolicyOp, Reply, Request, Rule, Who, begin, carry_out, decide,
    decide_policy, end, list_policy,
};
use http_messages::{AnswerFault, Engine, Message};
use money::{Fault, Tallied, WriteStopped};
use requests::{Gate, Routes, stated_request};
use std::alloc::Global;
use std::io::Write;
use store_rows::{Bank, Store};

/// A bank that answers messages: its store, what gives the moments, and who may ask for what.
#[derive(Drop)]
pub struct Counter<S, G, C> {
    /// The bank.
    pub bank: Bank<S>,
    /// What gives the moments.
    pub clock: C,
    /// What reads the messages.
    pub clerk: Clerk<G>,
}

impl<S, G: Gate + Copy, C> Counter<S, G, C> {
    /// A counter over a store. If memory is refused for its paths, the store and the clock are handed back.
    pub fn new(alloc: Global, store: S, asking: Asking<G, C>) -> Result<Counter<S, G, C>, (S, C)>
        ensures store { IfOk result (λ c. c.bank.store ≡ store) }
        ensures clock { IfOk result (λ c. c.clock ≡ asking.moments) }
        ensures gate { IfOk result (λ c. c.clerk.gate ≡ asking.gate) }
        ensures returned { IfErr result (λ parts. (parts.0 ≡ store) × (parts.1 ≡ asking.moments)) }
    {
        let Asking { gate, moments } = asking;
        match Routes::new(alloc) {
            Ok(routes) => Ok(Counter {
                bank: Bank { store },
                clock: moments,
                clerk: Clerk {
                    alloc,
                    gate,
                    routes,
                },
            }),
            Err(_) => Err((store, moments)),
        }
    }

    /// Its store and its clock, as it leaves them.
    pub fn into_parts(self) -> (S, C)
        ensures store { result.0 ≡ self.bank.store }
        ensures clock { result.1 ≡ self.clock }
    {
        let Counter {
            bank: Bank { store },
            clock,
            clerk: _,
        } = self;
        (store, clock)
    }
}

/// Who may ask a counter, and what gives the moments.
#[derive(Drop)]
pub struct Asking<G, M> {
    /// What names users for the badges.
    pub gate: G,
    /// A clock, or one moment for all messages.
    pub moments: M,
}

/// What reads the messages of a counter, and has its bank do what they ask for.
#[derive(Drop)]
pub struct Clerk<G> {
    /// The memory in which it works.
    pub alloc: Global,
    /// What names users for the badges.
    pub gate: G,
    /// The paths that it knows.
    routes: Routes,
}

/// Who asks, and when.
#[derive(Clone, Copy)]
struct Asker {
    who: Who,
    moment: u64,
}

/// What a request came to.
enum Outcome {
    /// A response, which is still to be written.
    Response(Response),
    /// A report, and how far its reply went out.
    Report(Sent),
}

impl<G: Gate> Clerk<G> {
    /// Does what a message asks for at a moment: the reply to it, which is still to be written, but for a report;
    /// or the fault that kept it from one.
    fn handled<S: Store, W: Write>(
        &self,
        bank: &mut Bank<S>,
        message: &Message<'_>,
        moment: u64,
        writer: &mut Tallied<W>,
    ) -> Result<Outcome, Fault>
        requires { moment ≤ max_moment }
        ensures done { IsDone (G.users self.now.gate) (S.status bank.old.store) (S.status bank.new.store) (W.contents (stream_of writer.old)) (W.contents (stream_of writer.new)) message.now moment result }
        ensures writer { KeepsWriter writer.old writer.new result }
    {
        let stated = match stated_request(self.alloc, &self.routes, &self.gate, message, moment) {
            Ok(stated) => stated,
            Err(fault) => return Err(fault),
        };
        match stated {
            Ok(request) => self.carried_out(bank, request, message, writer),
            Err(fault) => Ok(Outcome::Response(Response::refused(fault))),
        }
    }

    /// Decides a request, and carries it out where it is allowed: the reply to it, which is still to be
    /// written, but for a report; or the fault that kept it from being made.
    fn carried_out<S: Store, W: Write>(
        &self,
        bank: &mut Bank<S>,
        request: Request,
        message: &Message<'_>,
        writer: &mut Tallied<W>,
    ) -> Result<Outcome, Fault>
        requires { IsProper request }
        ensures carried { IsCarried (S.status bank.old.store) (S.status bank.new.store) (W.contents (stream_of writer.old)) (W.contents (stream_of writer.new)) message.now request result }
        ensures writer { KeepsWriter writer.old writer.new result }
    {
        let Request { who, moment, asked } = request;
        let alloc = self.alloc;
        match asked {
            Asked::Operation(op) => {
                self.operation_done(bank, Asker { who, moment }, &op, message, writer)
            }
            Asked::Opening => outcome_of(session_opened(bank, alloc, who, moment)),
            Asked::Ending => outcome_of(session_ended(bank, alloc, who, moment)),
            Asked::Command(command) => outcome_of(command_done(bank, alloc, who, moment, command)),
            Asked::Listing => policy_listed(bank, alloc, who, moment, message, writer),
        }
    }

    /// Decides an operation, and carries it out where it is allowed.
    fn operation_done<S: Store, W: Write>(
        &self,
        bank: &mut Bank<S>,
        asker: Asker,
        op: &Op,
        message: &Message<'_>,
        writer: &mut Tallied<W>,
    ) -> Result<Outcome, Fault>
        requires { IsProper (record { who = asker.who; moment = asker.moment; asked = Asked.Operation op.now }) }
        ensures carried { IsCarried (S.status bank.old.store) (S.status bank.new.store) (W.contents (stream_of writer.old)) (W.contents (stream_of writer.new)) message.now (record { who = asker.who; moment = asker.moment; asked = Asked.Operation op.now }) result }
        ensures writer { KeepsWriter writer.old writer.new result }
    {
        let Asker { who, moment } = asker;
        let alloc = self.alloc;
        match decide(bank, alloc, who, moment, op) {
            Ok(Decision::Denied(denial)) => Ok(Outcome::Response(Response::denied(
                alloc,
                denial.rule(),
            )?)),
            Ok(Decision::Repeated(done)) => Ok(Outcome::Response(Response::done(done.into_body()))),
            Ok(Decision::Allowed(permit)) => match carry_out(permit) {
                Ok(Reply::Done(done)) => Ok(Outcome::Response(Response::done(done.into_body()))),
                Ok(Reply::Report(report)) => Ok(Outcome::Report(streamed(report, message, writer))),
                Err(fault) => Err(fault),
            },
            Err(fault) => Err(fault),
        }
    }
}

/// A response as what a request came to.
fn outcome_of(response: Result<Response, Fault>) -> Result<Outcome, Fault>
    ensures { result ≡ outcome_of response }
{
    Ok(Outcome::Response(response?))
}

/// Lists the policy to who asks, or returns the rule against that. The moment is not looked at.
fn policy_listed<S: Store, W: Write>(
    bank: &mut Bank<S>,
    alloc: Global,
    who: Who,
    moment: u64,
    message: &Message<'_>,
    writer: &mut Tallied<W>,
) -> Result<Outcome, Fault>
    ensures carried { IsCarried (S.status bank.old.store) (S.status bank.new.store) (W.contents (stream_of writer.old)) (W.contents (stream_of writer.new)) message.now (record { who = who; moment = moment; asked = Asked.Listing }) result }
    ensures writer { KeepsWriter writer.old writer.new result }
{
    match list_policy(bank, alloc, who) {
        Ok(Listed::Denied(denial)) => Ok(Outcome::Response(Response::denied(
            alloc,
            denial.rule(),
        )?)),
        Ok(Listed::Report(report)) => Ok(Outcome::Report(streamed(report, message, writer))),
        Err(fault) => Err(fault),
    }
}

/// The response to what a request came to: its reply, or the rule against it.
fn responded(alloc: Global, stated: Result<Result<Vec<u8>, Rule>, Fault>) -> Result<Response, Fault>
    ensures { IsResponded stated result }
{
    match stated? {
        Ok(body) => Ok(Response::done(body)),
        Err(rule) => Ok(Response::denied(alloc, rule)?),
    }
}

/// Opens a session for who asks, or returns the rule against that. The moment is not looked at.
fn session_opened<S: Store>(
    bank: &mut Bank<S>,
    alloc: Global,
    who: Who,
    moment: u64,
) -> Result<Response, Fault>
    ensures { IsCarriedOut IsResponse (S.status bank.old.store) (S.status bank.new.store) (record { who = who; moment = moment; asked = Asked.Opening }) result }
{
    responded(alloc, begin(bank, alloc, who.user))
}

/// Ends the session of who asks, or returns the rule against that. The moment is not looked at.
fn session_ended<S: Store>(
    bank: &mut Bank<S>,
    alloc: Global,
    who: Who,
    moment: u64,
) -> Result<Response, Fault>
    ensures { IsCarriedOut IsResponse (S.status bank.old.store) (S.status bank.new.store) (record { who = who; moment = moment; asked = Asked.Ending }) result }
{
    responded(alloc, end(bank, alloc, who))
}

/// Carries a command of the policy out, or returns the rule against it. The moment is not looked at.
fn command_done<S: Store>(
    bank: &mut Bank<S>,
    alloc: Global,
    who: Who,
    moment: u64,
    command: PolicyOp,
) -> Result<Response, Fault>
    requires { IsProper (record { who = who; moment = moment; asked = Asked.Command command }) }
    ensures { IsCarriedOut IsResponse (S.status bank.old.store) (S.status bank.new.store) (record { who = who; moment = moment; asked = Asked.Command command }) result }
{
    responded(alloc, decide_policy(bank, alloc, who, command))
}

/// Writes a response, framed as its message asks for it.
fn write_response<W: Write>(
    message: &Message<'_>,
    response: &Response,
    writer: &mut Tallied<W>,
) -> Result<(), WriteStopped>
    ensures whole { OnOk result (Appends (W.contents (stream_of writer.old)) (W.contents (stream_of writer.new)) (framed message.now response.now)) }
    ensures beginning { OnErr result (AppendsBeginning (W.contents (stream_of writer.old)) (W.contents (stream_of writer.new)) (framed message.now response.now)) }
    ensures failures { CountsByCall writer.old writer.new result }
{
    message.reply(
        writer,
        response.status(),
        response.content_type(),
        response.body(),
    )
}

impl<S: Store, G: Gate, C: Clock> Engine for Counter<S, G, C> {
    ghost use Rattle.counter_api.specs.Answers.{CounterAnswers, CounterBreaks};
    ghost use Rattle.counter_api.specs.Run.{IsWhole};
    ghost use Rattle.reports.specs.Report.{BeginsWith};

    ghost answers = { CounterAnswers S.status G.users C.may_give IsWhole };

    // A report is written row by row, and may stop within its text.
    ghost stops = { CounterAnswers S.status G.users C.may_give BeginsWith };

    // A report alone breaks.
    ghost breaks = { CounterBreaks S.status G.users C.may_give };

    fn answer<W: Write>(
        &mut self,
        message: &Message<'_>,
        writer: &mut Tallied<W>,
    ) -> Result<(), AnswerFault> {
        let moment = self.clock.moment();
        let outcome = self.clerk.handled(&mut self.bank, message, moment, writer);
        match outcome {
            Ok(Outcome::Response(response)) => Ok(write_response(message, &response, writer)?),
            Ok(Outcome::Report(Sent::Whole)) => Ok(()),
            Ok(Outcome::Report(Sent::Stopped)) => Err(AnswerFault::Write),
            Ok(Outcome::Report(Sent::Broken(_))) => Err(AnswerFault::Report),
            Err(fault) => {
                let response = Response::faulted(fault);
                Ok(write_response(message, &response, writer)?)
            }
        }
    }
}
