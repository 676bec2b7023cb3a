//! Tellers as a read answers them, of the rows that the tables keep.

ghost use Rattle.std.specs.Prelude.{◌≡◌, ◌≢◌, Option, Some, option_map};
ghost use Rattle.bank_books.specs.declared.records.TellerRecord.{TellerRecord as TheRecord};
ghost use Rattle.book_kept.specs.Records.{kept_teller};

use bank_books::TellerRecord;
use book_kept::KeptTeller;

/// The teller that is kept so, if there is one. Nobody is user 0.
pub fn record_of(found: Option<KeptTeller>) -> Option<TellerRecord>
    ensures { (o : Option TheRecord) → found ≡ option_map kept_teller o → ((t : TheRecord) → o ≡ Some t → t.holder ≢ Some 0) → result ≡ o }
{
    match found {
        Some(kept) => Some(kept.to_record()),
        None => None,
    }
}
