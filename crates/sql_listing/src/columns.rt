//! Keys of lines by the columns of their tables.

ghost use Rattle.std.specs.Prelude.{◌≡◌, ◌<◌, ◌^◌, ◌-◌, min};
ghost use Rattle.bank_terms.specs.Procedure.{number_of};
ghost use Rattle.sql_listing.specs.Columns.{FitsKey, key_columns, key_kind};

use crate::kinds::LineKind;
use bank_terms::Procedure;
use world_reads::PolicyKey;

/// The numbers in the key columns of a line, in order; 0 where its table has fewer of them.
#[derive(Clone, Copy)]
pub(crate) struct Columns {
    pub(crate) first: u32,
    pub(crate) second: u32,
    pub(crate) third: u32,
}

/// A place as a column holds it. No row has a place above 32 bits, so the greatest of 32 bits represents those above.
fn place_column(place: u64) -> u32
    ensures value { result ≡ min place (2 ^ 32 - 1) }
    ensures small { place < 2 ^ 64 }
{
    if place < u32::MAX as u64 {
        place as u32
    } else {
        u32::MAX
    }
}

fn procedure_column(procedure: Procedure) -> u32
    ensures { result ≡ number_of procedure }
{
    procedure.number() as u32
}

/// The kind of the line of this key.
pub(crate) fn key_kind(key: PolicyKey) -> LineKind
    ensures { result ≡ key_kind key }
{
    match key {
        PolicyKey::User { .. } => LineKind::User,
        PolicyKey::Certifier { .. } => LineKind::Certifier,
        PolicyKey::Member { .. } => LineKind::Member,
        PolicyKey::Relation { .. } => LineKind::Relation,
        PolicyKey::Triple { .. } => LineKind::Triple,
    }
}

/// Its columns.
pub(crate) fn key_columns(key: PolicyKey) -> Columns
    ensures value { result ≡ key_columns key }
    ensures small { FitsKey key }
{
    match key {
        PolicyKey::User { user } => Columns {
            first: user,
            second: 0,
            third: 0,
        },
        PolicyKey::Certifier { user, procedure } => Columns {
            first: user,
            second: procedure_column(procedure),
            third: 0,
        },
        PolicyKey::Member { set, place } => Columns {
            first: set,
            second: place_column(place),
            third: 0,
        },
        PolicyKey::Relation { procedure, set } => Columns {
            first: procedure_column(procedure),
            second: set,
            third: 0,
        },
        PolicyKey::Triple {
            user,
            procedure,
            set,
        } => Columns {
            first: user,
            second: procedure_column(procedure),
            third: set,
        },
    }
}
