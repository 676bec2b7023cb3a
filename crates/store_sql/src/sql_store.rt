//! The store over a SQL connection: it asks and applies as long as it is not stopped, and counts each fault.

ghost use Rattle.std.specs.Prelude.{◌≡◌, ◌≢◌, ◌≤◌, ◌+◌, false, Err, IfErr, IfOk, IfSome, IsErr, IsSome, IsTrue, Ok, OnOk, Some};
ghost use Rattle.sqlite.specs.Held.{state};
ghost use Rattle.bank_books.specs.Effects.{applied};
ghost use Rattle.bank_books.specs.Records.{account_record, branch_record, slip_count, teller_record};
ghost use Rattle.bank_books.specs.Version.{has_version_for};
ghost use Rattle.bank_books.specs.WorldLists.{WorldLists};
ghost use Rattle.money.specs.declared.fault.Fault.TheVariants.{Stopped};
ghost use Rattle.store_rows.specs.Status.{Changes, ReadsRow, RoseBy, Tells, count_after, counts, counts_at_most, failures_after, mark_of, stops};
ghost use Rattle.sql_writes.specs.Known.{AreKnownOf};
ghost use Rattle.store_sql.specs.Bank.{KnowsNothing, sql_status, with_known};

use crate::applying::apply_plan;
use crate::asking::ask;
use bank_books::{AccountRecord, BranchRecord, Plan, RowWrite, TellerRecord};
use money::Fault;
use sql_schema::Question;
use sql_writes::KnownRows;
use sqlite::{Alter, Connection};
use std::alloc::Global;
use store_rows::{Store, StoreState};

/// The bank in a SQL database. After a fault of the disk it is stopped, and answers nothing any more. It keeps an account or two, a
/// teller and a branch that it read or wrote last.
#[derive(Drop)]
pub struct SqlStore<S: Alter> {
    conn: Connection<S>,
    /// Rows of the books that it read or wrote last.
    known: KnownRows,
    is_stopped: bool,
    faults: u64,
    failures: u64,
    ghost idle: { conn.in_transaction ≡ false },
}

impl<S: Alter> SqlStore<S> {
    /// The store over the tables of this connection. It represents the World that they hold.
    pub fn over(conn: Connection<S>) -> SqlStore<S>
        requires { conn.in_transaction ≡ false }
        ensures connection { result.conn ≡ conn }
        ensures known { KnowsNothing result.known }
        ensures works { result.is_stopped ≡ false }
        ensures none { result.faults ≡ 0 }
        ensures no_failure { result.failures ≡ 0 }
    {
        SqlStore {
            conn,
            known: KnownRows::nothing(),
            is_stopped: false,
            faults: 0,
            failures: 0,
        }
    }

    /// The connection to its tables, to which nothing is left to be written.
    pub fn into_connection(self) -> Connection<S>
        ensures connection { result ≡ self.conn }
        ensures idle { result.in_transaction ≡ false }
    {
        self.conn
    }

    /// Counts a fault of the database and returns it: what is neither memory nor size is the disk, and stops the store.
    fn refuse(&mut self, fault: Fault) -> Fault
        ensures conn { self.new.conn ≡ self.old.conn }
        ensures known { self.new.known ≡ self.old.known }
        ensures named { result ≢ Stopped }
        ensures stated { fault ≢ Stopped → result ≡ fault }
        ensures state { self.new.is_stopped ≡ stops (Some result) self.old.is_stopped }
        ensures counted { self.new.faults ≡ count_after (Some result) self.old.faults }
        ensures rose { RoseBy (counts (Some result)) self.old.faults self.new.faults }
        ensures no_more { self.new.faults ≤ self.old.faults + 1 }
        ensures failed { self.new.failures ≡ failures_after (Some result) self.old.failures }
    {
        self.faults = self.faults.saturating_add(1);
        match fault {
            Fault::Memory => Fault::Memory,
            Fault::Size => {
                self.failures = self.failures.saturating_add(1);
                Fault::Size
            }
            Fault::Disk | Fault::Stopped => {
                self.failures = self.failures.saturating_add(1);
                self.is_stopped = true;
                Fault::Disk
            }
        }
    }

    /// What the tables answered. A fault is counted, and reported as `refuse` says.
    fn counted<A>(&mut self, answer: Result<A, Fault>) -> Result<A, Fault>
        ensures conn { self.new.conn ≡ self.old.conn }
        ensures known { self.new.known ≡ self.old.known }
        ensures ok { IfOk answer (λ it. result ≡ Ok it) }
        ensures err { IfErr answer (λ _. IsErr result) }
        ensures stated { IfErr answer (λ fault. fault ≢ Stopped → result ≡ Err fault) }
        ensures named { mark_of result ≢ Some Stopped }
        ensures state { self.new.is_stopped ≡ stops (mark_of result) self.old.is_stopped }
        ensures counted { self.new.faults ≡ count_after (mark_of result) self.old.faults }
        ensures rose { RoseBy (counts (mark_of result)) self.old.faults self.new.faults }
        ensures no_more { self.new.faults ≤ self.old.faults + counts_at_most (mark_of result) }
        ensures failed { self.new.failures ≡ failures_after (mark_of result) self.old.failures }
    {
        match answer {
            Ok(it) => Ok(it),
            Err(fault) => Err(self.refuse(fault)),
        }
    }

    /// Counts a call of a store that is stopped.
    fn refuse_stopped(&mut self) -> Fault
        ensures conn { self.new.conn ≡ self.old.conn }
        ensures known { self.new.known ≡ self.old.known }
        ensures fault { result ≡ Stopped }
        ensures state { self.new.is_stopped ≡ self.old.is_stopped }
        ensures counted { self.new.faults ≡ count_after (Some result) self.old.faults }
        ensures failed { self.new.failures ≡ failures_after (Some result) self.old.failures }
    {
        self.faults = self.faults.saturating_add(1);
        self.failures = self.failures.saturating_add(1);
        Fault::Stopped
    }

    /// Carries out the whole plan in one transaction, or at a fault nothing of it.
    fn write(&mut self, alloc: Global, plan: &[RowWrite]) -> Result<(), Fault>
        ensures changed { Changes (with_known self.old.known (sql_status (state S.Store self.old.conn) self.old.is_stopped self.old.faults self.old.failures)) (with_known self.new.known (sql_status (state S.Store self.new.conn) self.new.is_stopped self.new.faults self.new.failures)) (applied plan.now) (mark_of result) }
        ensures room { Tells (with_known self.old.known (sql_status (state S.Store self.old.conn) self.old.is_stopped self.old.faults self.old.failures)) (with_known self.new.known (sql_status (state S.Store self.new.conn) self.new.is_stopped self.new.faults self.new.failures)) (λ w. OnOk result (IsTrue (has_version_for plan.now w.version))) }
        ensures refused { IsTrue self.old.is_stopped → mark_of result ≡ Some Stopped }
        ensures counted { self.new.faults ≡ count_after (mark_of result) self.old.faults }
    {
        if self.is_stopped {
            return Err(self.refuse_stopped());
        }
        let done = apply_plan(alloc, &mut self.conn, &mut self.known, plan);
        self.counted(done)
    }

    /// The account of this number, if it is known and the store is not stopped.
    pub(crate) fn known_account(&self, account: u32) -> Option<AccountRecord>
        ensures works { IsSome result → self.now.is_stopped ≡ false }
        ensures stated { (w : WorldLists) → AreKnownOf w self.now.known → IfSome result (λ row. account_record w account ≡ Some row) }
    {
        if self.is_stopped {
            None
        } else {
            self.known.account(account)
        }
    }

    /// The teller of this number, if it is known and the store is not stopped.
    pub(crate) fn known_teller(&self, teller: u32) -> Option<TellerRecord>
        ensures works { IsSome result → self.now.is_stopped ≡ false }
        ensures stated { (w : WorldLists) → AreKnownOf w self.now.known → IfSome result (λ row. teller_record w teller ≡ Some row) }
    {
        if self.is_stopped {
            None
        } else {
            self.known.teller(teller)
        }
    }

    /// The branch of this number, if it is known and the store is not stopped.
    pub(crate) fn known_branch(&self, branch: u32) -> Option<BranchRecord>
        ensures works { IsSome result → self.now.is_stopped ≡ false }
        ensures stated { (w : WorldLists) → AreKnownOf w self.now.known → IfSome result (λ row. branch_record w branch ≡ Some row) }
    {
        if self.is_stopped {
            None
        } else {
            self.known.branch(branch)
        }
    }

    /// How many slips this user has, if it is known and the store is not stopped.
    pub(crate) fn known_slips(&self, user: u32) -> Option<u64>
        ensures works { IsSome result → self.now.is_stopped ≡ false }
        ensures stated { (w : WorldLists) → AreKnownOf w self.now.known → IfSome result (λ n. n ≡ slip_count user w.slips) }
    {
        if self.is_stopped {
            None
        } else {
            self.known.slips(user)
        }
    }

    /// Keeps what was read of an account.
    pub(crate) fn keep_account(&mut self, account: u32, row: &Option<AccountRecord>)
        ensures conn { self.new.conn ≡ self.old.conn }
        ensures state { self.new.is_stopped ≡ self.old.is_stopped }
        ensures counted { self.new.faults ≡ self.old.faults }
        ensures failed { self.new.failures ≡ self.old.failures }
        ensures known { (w : WorldLists) → row.now ≡ account_record w account → AreKnownOf w self.old.known → AreKnownOf w self.new.known }
    {
        if let Some(row) = row {
            self.known.keep_account(account, row);
        }
    }

    /// Keeps what was read of a teller.
    pub(crate) fn keep_teller(&mut self, teller: u32, row: &Option<TellerRecord>)
        ensures conn { self.new.conn ≡ self.old.conn }
        ensures state { self.new.is_stopped ≡ self.old.is_stopped }
        ensures counted { self.new.faults ≡ self.old.faults }
        ensures failed { self.new.failures ≡ self.old.failures }
        ensures known { (w : WorldLists) → row.now ≡ teller_record w teller → AreKnownOf w self.old.known → AreKnownOf w self.new.known }
    {
        if let Some(row) = row {
            self.known.keep_teller(teller, row);
        }
    }

    /// Keeps what was read of a branch.
    pub(crate) fn keep_branch(&mut self, branch: u32, row: &Option<BranchRecord>)
        ensures conn { self.new.conn ≡ self.old.conn }
        ensures state { self.new.is_stopped ≡ self.old.is_stopped }
        ensures counted { self.new.faults ≡ self.old.faults }
        ensures failed { self.new.failures ≡ self.old.failures }
        ensures known { (w : WorldLists) → row.now ≡ branch_record w branch → AreKnownOf w self.old.known → AreKnownOf w self.new.known }
    {
        if let Some(row) = row {
            self.known.keep_branch(branch, row);
        }
    }

    /// Asks the tables.
    pub(crate) fn ask<Q: Question>(
        &mut self,
        alloc: Global,
        question: &Q,
    ) -> Result<Q::Answer, Fault>
        ensures { ReadsRow (with_known self.old.known (sql_status (state S.Store self.old.conn) self.old.is_stopped self.old.faults self.old.failures)) (with_known self.new.known (sql_status (state S.Store self.new.conn) self.new.is_stopped self.new.faults self.new.failures)) result (Q.says question.now) }
    {
        if self.is_stopped {
            Err(self.refuse_stopped())
        } else {
            let answer = ask(alloc, &mut self.conn, question);
            self.counted(answer)
        }
    }
}

impl<S: Alter> StoreState for SqlStore<S> {
    ghost status = { λ store. with_known store.known (sql_status (state S.Store store.conn) store.is_stopped store.faults store.failures) };

    fn faults(&self) -> u64 {
        self.faults
    }

    fn is_stopped(&self) -> bool {
        self.is_stopped
    }
}

impl<S: Alter> Store for SqlStore<S> {
    fn apply(&mut self, alloc: Global, plan: Plan) -> Result<(), Fault> {
        self.write(alloc, &plan)
    }
}
