//! The store of the sample bank over SQL, made by creating the tables in memory.

ghost use Rattle.std.specs.Prelude.{IfOk};
ghost use Rattle.sample_service.specs.Serving.{IsOpening};
ghost use Rattle.sample_service.specs.Tables.{memory_status};

use bank_meaning::laws::world_is_in_order;
use sample_bank::sample_world;
use sql_create::create;
use sqlite::{Connection, MemStore};
use std::alloc::{AllocError, Global};
use store_sql::SqlStore;

/// The sample bank as its books are opened, in SQL tables in memory. Only memory keeps it from one.
pub fn sql_sample(alloc: Global) -> Result<SqlStore<MemStore>, AllocError>
    ensures { IfOk result (IsOpening memory_status) }
{
    let world = sample_world(alloc)?;
    world_is_in_order(&world);
    let conn = Connection::open_in_memory(alloc)?;
    match create(alloc, conn, &world) {
        Ok(store) => Ok(store),
        Err(_) => Err(AllocError),
    }
}
