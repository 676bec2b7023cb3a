//! What answers messages over a bank.

ghost use Rattle.std.specs.Prelude.{◌≡◌, ℕ, List, Option};
ghost use Rattle.store_rows.specs.Status.{Status};

use counter_api::{Clock, Counter, Gate};
use http_messages::Engine;
use store_rows::Store;

/// What answers messages over a bank.
pub trait Service: Engine {
    ghost use Rattle.counter_loop.specs.Service.{AnswersByBank};

    // What its store is.
    ghost status: { Self → Status };

    // The users that its gate names for the badges.
    ghost users: { Self → List ℕ → Option ℕ };

    // The clock of the first may give this moment, which leaves the second.
    ghost may_give: { Self → ℕ → Self → Type 0 };

    /// Does its store refuse each call?
    fn is_stopped(&self) -> bool
        ensures { result ≡ (status self.now).is_stopped };

    /// What it answers is what its bank replies, at a moment that its clock gives.
    ghost by_bank: { AnswersByBank status users may_give Self.Engine.answers Self.Engine.stops Self.Engine.breaks };
}

impl<S: Store, G: Gate, C: Clock> Service for Counter<S, G, C> {
    ghost use Rattle.counter_api.specs.Answers.{CounterGives};
    ghost use Rattle.counter_loop.specs.Service.{counter_by_bank};

    ghost status = { λ e. S.status e.bank.store };

    ghost users = { λ e. G.users e.clerk.gate };

    ghost may_give = { CounterGives C.may_give };

    ghost by_bank = { counter_by_bank S.status G.users C.may_give };

    fn is_stopped(&self) -> bool {
        self.bank.store.is_stopped()
    }
}
