//! The arguments of the command line: the store, and the moment.

use sample_service::{Moment, StoreName};

/// What the arguments ask for.
#[derive(Clone, Copy)]
pub struct Arguments {
    /// The store that the sample bank is kept in.
    pub store: StoreName,
    /// The moment of every message.
    pub moment: Moment,
}

/// The store of this name.
fn store_named(name: &str) -> Option<StoreName> {
    match name {
        "list" => Some(StoreName::List),
        "cached" => Some(StoreName::Cached),
        "sql" => Some(StoreName::Tables),
        _ => None,
    }
}

/// What the arguments after the program's name ask for. None where they are refused.
pub fn arguments_of(given: &[&str]) -> Option<Arguments> {
    let [store, moment] = given else {
        return None;
    };
    Some(Arguments {
        store: store_named(store)?,
        moment: Moment::new(moment.parse::<u64>().ok()?)?,
    })
}
