//! The rows of each table.

ghost use Rattle.sql_create.specs.Filled.{with_account, with_branch, with_certifier, with_entry, with_line, with_proof, with_relation, with_release, with_set, with_slip, with_slip_count, with_teller, with_triple, with_user};

use crate::sheet_row::SheetRow;
use bank_books::{
    AccountRecord, BranchRecord, CashLine, EntryRecord, Proof, Release, ReleaseCount, Slip,
    TellerRecord,
};
use bank_policy::{Certifier, ItemSet, Relation, Triple};
use book_kept::{KeptTeller, KeptUser, SlipCount};
use money::Fault;
use sql_writes::write_members;
use sqlite::{Alter, Transaction};

impl SheetRow for KeptUser {
    ghost with_it = { with_user };

    fn add<S: Alter>(&self, tx: &mut Transaction<'_, S>) -> Result<(), Fault> {
        sql_policy::add_user(tx, self)
    }
}

impl SheetRow for ItemSet {
    ghost with_it = { with_set };

    fn add<S: Alter>(&self, tx: &mut Transaction<'_, S>) -> Result<(), Fault> {
        sql_policy::add_set(tx, self.set())?;
        write_members(tx, self)
    }
}

impl SheetRow for Relation {
    ghost with_it = { with_relation };

    fn add<S: Alter>(&self, tx: &mut Transaction<'_, S>) -> Result<(), Fault> {
        sql_policy::add_relation(tx, self)
    }
}

impl SheetRow for Triple {
    ghost with_it = { with_triple };

    fn add<S: Alter>(&self, tx: &mut Transaction<'_, S>) -> Result<(), Fault> {
        sql_policy::add_triple(tx, self)
    }
}

impl SheetRow for Certifier {
    ghost with_it = { with_certifier };

    fn add<S: Alter>(&self, tx: &mut Transaction<'_, S>) -> Result<(), Fault> {
        sql_policy::add_certifier(tx, self)
    }
}

impl SheetRow for BranchRecord {
    ghost with_it = { with_branch };

    fn add<S: Alter>(&self, tx: &mut Transaction<'_, S>) -> Result<(), Fault> {
        sql_books::add_branch(tx, self)
    }
}

impl SheetRow for TellerRecord {
    ghost with_it = { with_teller };

    fn add<S: Alter>(&self, tx: &mut Transaction<'_, S>) -> Result<(), Fault> {
        sql_books::add_teller(tx, &KeptTeller::of(self))
    }
}

impl SheetRow for AccountRecord {
    ghost with_it = { with_account };

    fn add<S: Alter>(&self, tx: &mut Transaction<'_, S>) -> Result<(), Fault> {
        sql_books::add_account(tx, self)
    }
}

impl SheetRow for EntryRecord {
    ghost with_it = { with_entry };

    fn add<S: Alter>(&self, tx: &mut Transaction<'_, S>) -> Result<(), Fault> {
        sql_books::add_entry(tx, self)
    }
}

impl SheetRow for CashLine {
    ghost with_it = { with_line };

    fn add<S: Alter>(&self, tx: &mut Transaction<'_, S>) -> Result<(), Fault> {
        sql_books::add_line(tx, self)
    }
}

impl SheetRow for Proof {
    ghost with_it = { with_proof };

    fn add<S: Alter>(&self, tx: &mut Transaction<'_, S>) -> Result<(), Fault> {
        sql_books::add_proof(tx, self)
    }
}

impl SheetRow for Release {
    ghost with_it = { with_release };

    fn add<S: Alter>(&self, tx: &mut Transaction<'_, S>) -> Result<(), Fault> {
        sql_releases::add_release(tx, self)
    }
}

impl SheetRow for Slip {
    ghost with_it = { with_slip };

    fn add<S: Alter>(&self, tx: &mut Transaction<'_, S>) -> Result<(), Fault> {
        sql_releases::add_slip(tx, self)
    }
}

impl SheetRow for ReleaseCount {
    ghost with_it = { with_slip_count };

    fn add<S: Alter>(&self, tx: &mut Transaction<'_, S>) -> Result<(), Fault> {
        let count = SlipCount {
            user: self.user,
            slips: self.slips,
        };
        sql_releases::add_slip_count(tx, &count)
    }
}
