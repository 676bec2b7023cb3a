//! The opening lists in a folder, and the name of each.

ghost use Rattle.std.specs.Prelude.{◌≡◌, IfOk, string_bytes};
ghost use Rattle.cli_make.specs.Lists.{file_name, path_in};

use crate::lists::OpeningLists;
use cli_file::{ActionFault, Lists};
use list_opening::ListName;
use std::alloc::{AllocError, Global};

/// A folder in which the opening lists stand.
#[derive(Drop)]
pub(crate) struct Folder<'a, L> {
    pub lists: &'a L,
    pub dir: &'a str,
}

impl<'a, L: Lists> OpeningLists for Folder<'a, L> {
    ghost use Rattle.cli_make.specs.Lists.{path_in};

    ghost known = { λ folder list. L.text (path_in folder.dir.now list) };

    fn read(&self, alloc: Global, list: ListName) -> Result<Vec<u8>, ActionFault<'static>> {
        let Ok(path) = path_of(alloc, self.dir, list) else {
            return Err(ActionFault::Memory);
        };
        self.lists.read(alloc, path.as_str())
    }
}

/// The path of a list in a folder.
fn path_of(alloc: Global, dir: &str, list: ListName) -> Result<String, AllocError>
    ensures { IfOk result (λ path. string_bytes path ≡ path_in dir.now list) }
{
    let name = file_name(list);
    format!(in alloc; "{dir}/{name}")
}

/// The name of the file in which a list stands.
fn file_name(list: ListName) -> &'static str
    ensures { result.now ≡ file_name list }
{
    match list {
        ListName::Branches => "branches.csv",
        ListName::Tellers => "tellers.csv",
        ListName::Accounts => "accounts.csv",
        ListName::Users => "users.csv",
        ListName::Sets => "sets.csv",
        ListName::Relations => "relations.csv",
        ListName::Triples => "triples.csv",
        ListName::Certifiers => "certifiers.csv",
    }
}
