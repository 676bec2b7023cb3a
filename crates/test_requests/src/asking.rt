//! A bank in memory that is asked, and what has to come of it.

use bank_books::{BranchRecord, TellerRecord, World};
use bank_terms::MAX_MOMENT;
use decide::{Decision, Op, Reply, Rule, Who, carry_out, decide};
use rule_tests::{CashBook, Ledger};
use sample_bank::sample_world;
use std::alloc::Global;
use std::process::Abort;
use store_rows::{Bank, BookReads, ListStore, StoreState};

/// Tess, who holds drawer 11 of the sample, and posts, moves cash and asks for balances at branch 1.
pub(crate) const TESS: Who = Who {
    user: Some(7),
    session: 1,
    release: 0,
    slip: 0,
};

/// Tom, who holds drawer 12, and posts and transfers up to 500.00 at branch 1, and up to 10.00 anywhere.
pub(crate) const TOM: Who = Who {
    user: Some(8),
    session: 1,
    release: 0,
    slip: 0,
};

/// The moment of requests, where no other is given.
pub(crate) const MOMENT: u64 = 700;

/// The history of branch 1 of the sample.
pub(crate) const SAMPLE_LEDGER: Ledger = Ledger {
    day: 1,
    balance: 60_000,
    entries: 0,
    history: 0,
};

/// The cash book of branch 1 of the sample, whose vault has 550.00.
pub(crate) const SAMPLE_CASH_BOOK: CashBook = CashBook {
    day: 1,
    lines: 4,
    drawers: 45_000,
    cash_entries: 0,
    differences: 0,
};

/// A bank in memory, as it is asked.
#[derive(Drop)]
pub(crate) struct Desk {
    bank: Bank<ListStore>,
    alloc: Global,
}

impl Desk {
    /// That of this bank.
    pub(crate) fn over(alloc: Global, world: World) -> Desk {
        let bank = Bank {
            store: ListStore::new(world),
        };
        Desk { bank, alloc }
    }

    /// That of the sample bank.
    pub(crate) fn of_sample(rt: &impl Abort, alloc: Global) -> Desk {
        Desk::over(alloc, sample_world(alloc).expect(rt, "memory"))
    }

    /// The body of the reply to a request that is carried out, or the rule that denies it.
    ///
    /// What `decide` wants of it is asked here, once: that its moment is one, and that its members are in their ranges, as
    /// an operation is that is read back from its row.
    fn ask(&mut self, rt: &impl Abort, who: Who, moment: u64, op: Op) -> Result<Vec<u8>, Rule> {
        assert!(rt; moment <= MAX_MOMENT, "{moment}");
        let read = Op::from_row(&op.to_row()).expect(rt, "an operation in its ranges");
        match decide(&mut self.bank, self.alloc, who, moment, &read) {
            Ok(Decision::Allowed(permit)) => match carry_out(permit) {
                Ok(Reply::Done(done)) => Ok(done.into_body()),
                Ok(Reply::Report(report)) => {
                    report.release();
                    panic!(rt; "a report");
                }
                Err(fault) => panic!(rt; "{fault}"),
            },
            Ok(Decision::Repeated(done)) => Ok(done.into_body()),
            Ok(Decision::Denied(denial)) => Err(denial.rule()),
            Err(fault) => panic!(rt; "{fault}"),
        }
    }

    /// An operation at this moment that has to be carried out, with the body of its reply.
    pub(crate) fn done_at(&mut self, rt: &impl Abort, who: Who, moment: u64, op: Op, body: &str) {
        match self.ask(rt, who, moment, op) {
            Ok(given) => assert!(rt; given.as_slice() == body.as_bytes(), "{body}"),
            Err(rule) => panic!(rt; "{}", rule.name()),
        }
    }

    /// An operation that has to be carried out, with the body of its reply.
    pub(crate) fn done(&mut self, rt: &impl Abort, who: Who, op: Op, body: &str) {
        self.done_at(rt, who, MOMENT, op, body);
    }

    /// An operation that has to be denied by this rule.
    pub(crate) fn denied(&mut self, rt: &impl Abort, who: Who, op: Op, rule: Rule) {
        match self.ask(rt, who, MOMENT, op) {
            Ok(_) => panic!(rt; "carried out"),
            Err(given) => assert!(rt; given == rule, "{}", given.name()),
        }
    }

    /// Asks for the balance of an account, and how many entries name it.
    pub(crate) fn account_is(&mut self, rt: &impl Abort, account: u32, balance: i128, turns: u64) {
        let row = self.bank.store.account(self.alloc, account);
        let row = row.expect(rt, "no fault").expect(rt, "the account");
        assert!(rt; row.balance == balance && row.turns == turns);
    }

    /// Asks for the balance of a teller.
    pub(crate) fn teller_is(&mut self, rt: &impl Abort, teller: u32, balance: i128) {
        assert!(rt; self.teller(rt, teller).balance == balance);
    }

    /// Asks for the cash of the drawer of a teller, and who holds it.
    pub(crate) fn drawer_is(
        &mut self,
        rt: &impl Abort,
        teller: u32,
        cash: i128,
        holder: Option<u32>,
    ) {
        let row = self.teller(rt, teller);
        assert!(rt; row.cash == cash && row.holder == holder);
    }

    fn teller(&mut self, rt: &impl Abort, teller: u32) -> TellerRecord {
        let row = self.bank.store.teller(self.alloc, teller);
        row.expect(rt, "no fault").expect(rt, "the teller")
    }

    /// Asks for the history of a branch.
    pub(crate) fn ledger_is(&mut self, rt: &impl Abort, branch: u32, ledger: Ledger) {
        let row = self.branch(rt, branch);
        assert!(rt; Ledger::of(&row) == ledger);
    }

    /// Asks for the cash book of branch 1, and for the cash of its vault.
    pub(crate) fn cash_is(&mut self, rt: &impl Abort, book: CashBook, vault: i128) {
        let row = self.branch(rt, 1);
        assert!(rt; CashBook::of(&row) == book && row.vault == vault);
    }

    fn branch(&mut self, rt: &impl Abort, branch: u32) -> BranchRecord {
        let row = self.bank.store.branch(self.alloc, branch);
        row.expect(rt, "no fault").expect(rt, "the branch")
    }
}
