//! Questions about the slips.

ghost use Rattle.std.specs.Prelude.{◌≡◌};
ghost use Rattle.std.specs.Option.{option_map_or};
ghost use Rattle.bank_books.specs.Records.{slip_count};
ghost use Rattle.world_reads.specs.BookReads.{slip};

use bank_books::Slip;
use book_kept::SlipCount;
use money::Fault;
use sql_schema::Question;
use sqlite::{Alter, Transaction};
use std::alloc::Global;

/// The slip of this number of a user, or none where it isn't there.
#[derive(Clone, Copy)]
pub struct SlipOf {
    /// The user.
    pub user: u32,
    /// The number.
    pub number: u32,
}

impl Question for SlipOf {
    type Answer = Option<Slip>;

    ghost says = { λ asked w row. row ≡ slip w asked.user asked.number };

    fn ask<S: Alter>(
        &self,
        alloc: Global,
        tx: &mut Transaction<'_, S>,
    ) -> Result<Option<Slip>, Fault> {
        let number = self.number;
        sql_releases::slip_of(tx, self.user, number)
    }
}

/// How many there are, by the row that is kept of a user.
fn slips_in(found: Option<SlipCount>) -> u64
    ensures { result ≡ option_map_or (λ c. c.slips) found 0 }
{
    match found {
        Some(count) => count.slips,
        None => 0,
    }
}

/// How many slips a user has.
#[derive(Clone, Copy)]
pub struct SlipsOf {
    /// The user.
    pub user: u32,
}

impl Question for SlipsOf {
    type Answer = u64;

    ghost says = { λ asked w n. n ≡ slip_count asked.user w.slips };

    fn ask<S: Alter>(&self, alloc: Global, tx: &mut Transaction<'_, S>) -> Result<u64, Fault> {
        Ok(slips_in(sql_releases::slip_count_of(tx, self.user)?))
    }
}
