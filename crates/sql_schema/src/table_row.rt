//! How the rows that a query shows are read as rows of a table of a bank.

ghost use Rattle.std.specs.Prelude.{◌≡◌, List, map, Contains, IfErr, IfOk};
ghost use Rattle.sql_schema.specs.Readable.{IsUnread};

use money::Fault;
use sqlite::Row;
use std::alloc::Global;

/// A row of a table of a bank. Whoever reads rows of the table, one, some, or all of them, reads each by this.
pub trait TableRow: Sized {
    ghost use Rattle.std.specs.Prelude.{ℕ, ◌≡◌, IfErr, IfOk};
    ghost use Rattle.sqlite.specs.Order.{Row as Cells};
    ghost use Rattle.sql_schema.specs.Held.{Sheet};
    ghost use Rattle.sql_schema.specs.Readable.{IsUnread};

    // the table; its row and its key; what of a row is compared; the row that a row of an answer shows; how an answer
    // shows it; that its numbers are small enough for its key; and that they are of the types that they are read as
    ghost sheet: { Sheet };

    ghost cells: { Self → Cells };

    ghost key: { Self → ℕ };

    ghost shows: { Cells → Cells };

    ghost stated: { Cells → Cells };

    ghost shown: { Self → Cells };

    ghost fits: { Self → Type 0 };

    ghost readable: { Self → Type 0 };

    /// The row that a row of an answer shows, whose columns stand as the queries for the table name them. Only memory,
    /// or a value that its column may not have, keeps it from being read.
    fn read(alloc: Global, row: &Row) -> Result<Self, Fault>
        ensures same { IfOk result (λ x. stated row.now ≡ cells x) }
        ensures there { IfOk result (λ x. (there : Self) → fits there → row.now ≡ shown there → x ≡ there) }
        ensures fit { IfOk result fits }
        ensures typed { IfOk result readable }
        ensures unread { IfErr result (IsUnread cells readable (stated row.now)) };
}

/// The rows that all of these show, in their order.
pub fn read_rows<T: TableRow + Drop>(alloc: Global, rows: &[Row]) -> Result<Vec<T>, Fault>
    ensures same { IfOk result (λ list. map T.stated rows.now ≡ map T.cells list.items) }
    ensures there { IfOk result (λ list. (there : List T) → ((x : T) → Contains there x → T.fits x) → rows.now ≡ map T.shown there → list.items ≡ there) }
    ensures fit { IfOk result (λ list. (x : T) → Contains list.items x → T.fits x) }
    ensures typed { IfOk result (λ list. (x : T) → Contains list.items x → T.readable x) }
    ensures unread { IfErr result (IsUnread (map T.cells) (λ (list : List T). (x : T) → Contains list x → T.readable x) (map T.stated rows.now)) }
{
    let mut list = Vec::new(alloc);
    for row in rows {
        list.push(T::read(alloc, row)?)?;
    }
    Ok(list)
}
