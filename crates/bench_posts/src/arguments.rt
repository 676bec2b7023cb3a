//! The arguments of the command line: the store, and the size of the bank.

use bench_bank::Size;

/// How many branches a bank may have here.
const MOST_BRANCHES: u32 = 1_000;

/// How many entries a branch may have here.
const MOST_ENTRIES: u32 = 1_000_000;

/// How many triples a user may have.
const MOST_TRIPLES: u32 = 1_000;

/// How many slips a user may have here, so that as many more may be taken as messages are served.
const MOST_SLIPS: u32 = 90_000;

/// Where the bank is kept.
#[derive(Clone, Copy, Debug, PartialEq, Eq)]
pub enum StoreName {
    /// In lists.
    Lists,
    /// In SQL tables in memory.
    Tables,
    /// The same with a cache in front.
    CachedTables,
    /// In SQL tables in a file.
    File,
    /// The same with a cache in front.
    CachedFile,
}

/// What the arguments ask for.
#[derive(Clone, Copy, Debug, PartialEq, Eq)]
pub struct Arguments {
    /// Where the bank is kept.
    pub store: StoreName,
    /// How large it is.
    pub size: Size,
}

/// The store of this name.
fn store_named(name: &str) -> Option<StoreName> {
    match name {
        "lists" => Some(StoreName::Lists),
        "tables" => Some(StoreName::Tables),
        "cached_tables" => Some(StoreName::CachedTables),
        "file" => Some(StoreName::File),
        "cached_file" => Some(StoreName::CachedFile),
        _ => None,
    }
}

/// A number up to the greatest that is taken.
fn number_up_to(argument: &str, most: u32) -> Option<u32> {
    let number = argument.parse::<u32>().ok()?;
    if number <= most { Some(number) } else { None }
}

/// What the arguments after the program's name ask for. None where they are refused.
pub fn arguments_of(given: &[&str]) -> Option<Arguments> {
    let [store, branches, entries, triples, slips] = given else {
        return None;
    };
    Some(Arguments {
        store: store_named(store)?,
        size: Size {
            branches: number_up_to(branches, MOST_BRANCHES)?,
            entries: number_up_to(entries, MOST_ENTRIES)?,
            triples: number_up_to(triples, MOST_TRIPLES)?,
            slips: number_up_to(slips, MOST_SLIPS)?,
        },
    })
}
