//! How the file of a bank is opened at a path: one that is there, or one to be made.

ghost use Rattle.std.specs.Prelude.{◌≡◌, false, IfErr, IfOk, IsErrAnd};
ghost use Rattle.sqlite_wal.specs.Files.{image_at};
ghost use Rattle.cli_file.specs.Faults.{IsOfFile};
ghost use Rattle.cli_file.specs.Opened.{IsOpenedFrom};
ghost use Rattle.cli_file.specs.Sums.{HasSumsAsAsked};
ghost use Rattle.cli_file.specs.Unopened.{IsUnopenedFor};

use crate::beginning::begin_file;
use crate::fault::ActionFault;
use crate::file::FileConnection;
use crate::left::{FileLeft, PathLeft};
use sqlite::{Connection, Error, ErrorCode, FileFrom, Start};
use sqlite_disk::Disk;
use std::fs;

/// How a file is opened on a disk of this kind. The image represents what the file and its log held before; no clause
/// ties it to a path.
pub trait Opener<D: Disk + Drop>: Drop {
    ghost use Rattle.std.specs.Prelude.{◌≡◌, false, IfErr, IfOk};
    ghost use Rattle.sqlite_wal.specs.Recovery.{Image};
    ghost use Rattle.cli_file.specs.Faults.{IsOfFile};
    ghost use Rattle.cli_file.specs.Opened.{IsOpenedFrom};
    ghost use Rattle.cli_file.specs.Sums.{HasSumsAsAsked};

    ghost image: { Image };

    /// Opens a file, or makes it, and reads the log that stands beside it. Each page, row and index is looked at.
    fn open(self, rt: &HostRuntime, path: &str) -> Result<FileConnection<D>, ActionFault<'static>>
        ensures opened { IfOk result (IsOpenedFrom image) }
        ensures idle { IfOk result (λ conn. conn.in_transaction ≡ false) }
        ensures refused { IfErr result IsOfFile };

    /// Opens a file in which a bank is to be made, or makes it. One that holds nothing begins as an empty database in pages of
    /// 512 bytes, which end in sums where these are asked for. What it holds otherwise is opened as `open` does.
    fn make(
        self,
        rt: &HostRuntime,
        path: &str,
        sums: bool,
    ) -> Result<FileConnection<D>, ActionFault<'static>>
        ensures opened { IfOk result (IsOpenedFrom image) }
        ensures idle { IfOk result (λ conn. conn.in_transaction ≡ false) }
        ensures sums { IfOk result (HasSumsAsAsked sums image) }
        ensures refused { IfErr result IsOfFile };
}

/// Opens the files of the machine, which began with what the start says.
#[derive(Drop)]
pub struct Machine<S: Start> {
    /// What they began with.
    pub start: S,
}

impl<S: Start> Opener<FileFrom<S>> for Machine<S> {
    ghost use Rattle.sqlite_wal.specs.Files.{image_at};

    ghost image = { image_at S.Start };

    fn open(
        self,
        rt: &HostRuntime,
        path: &str,
    ) -> Result<FileConnection<FileFrom<S>>, ActionFault<'static>> {
        opened(rt, path, false, self)
    }

    fn make(
        self,
        rt: &HostRuntime,
        path: &str,
        sums: bool,
    ) -> Result<FileConnection<FileFrom<S>>, ActionFault<'static>> {
        begin_file(rt, path, sums)?;
        opened(rt, path, sums, self)
    }
}

/// Opens a file of the machine. One that holds nothing gets pages that end in sums where these are asked for.
fn opened<S: Start>(
    rt: &HostRuntime,
    path: &str,
    sums: bool,
    machine: Machine<S>,
) -> Result<FileConnection<FileFrom<S>>, ActionFault<'static>>
    ensures opened { IfOk result (IsOpenedFrom (image_at S.Start)) }
    ensures idle { IfOk result (λ conn. conn.in_transaction ≡ false) }
    ensures sums { IfOk result (HasSumsAsAsked sums (image_at S.Start)) }
    ensures refused { IfErr result IsOfFile }
{
    let Machine { start } = machine;
    match Connection::open_from(rt, path, sums, start) {
        Ok(conn) => Ok(conn),
        Err((Error::SqliteFailure(ErrorCode::OutOfMemory), _)) => Err(ActionFault::Memory),
        Err(_) => Err(ActionFault::NotRead),
    }
}

/// Opens a file that is there. One of no bytes is no bank and is not opened: an open would make a database of it, and write
/// over a log that stands beside it. Where no file was opened, the opener is handed back.
pub fn open_existing<D: Disk + Drop, O: Opener<D>>(
    rt: &HostRuntime,
    path: &str,
    opener: O,
) -> Result<FileConnection<D>, (PathLeft<O, FileLeft<D>>, ActionFault<'static>)>
    ensures opened { IfOk result (IsOpenedFrom O.image) }
    ensures idle { IfOk result (λ conn. conn.in_transaction ≡ false) }
    ensures refused { IfErr result (λ e. IsUnopenedFor opener e.0 e.1) }
{
    match len_of(rt, path) {
        Ok(len) => open_seen(rt, path, len, opener),
        Err(fault) => Err((PathLeft::Unopened(opener), fault)),
    }
}

/// Opens a file of this length, in bytes. It is reported to be no bank exactly where it has none.
fn open_seen<D: Disk + Drop, O: Opener<D>>(
    rt: &HostRuntime,
    path: &str,
    len: u64,
    opener: O,
) -> Result<FileConnection<D>, (PathLeft<O, FileLeft<D>>, ActionFault<'static>)>
    ensures opened { IfOk result (IsOpenedFrom O.image) }
    ensures idle { IfOk result (λ conn. conn.in_transaction ≡ false) }
    ensures refused { IfErr result (λ e. IsUnopenedFor opener e.0 e.1) }
    ensures empty { len ≡ 0 → IsErrAnd result (λ e. e.1 ≡ ActionFault.NotABank) }
    ensures only { IfErr result (λ e. e.1 ≡ ActionFault.NotABank → len ≡ 0) }
{
    if len == 0 {
        return Err((PathLeft::Unopened(opener), ActionFault::NotABank));
    }
    match opener.open(rt, path) {
        Ok(conn) => Ok(conn),
        Err(fault) => Err((PathLeft::Refused, fault)),
    }
}

/// How many bytes a file has that is there. What the machine says of it is believed.
fn len_of(rt: &HostRuntime, path: &str) -> Result<u64, ActionFault<'static>>
    ensures { IfErr result IsOfFile }
{
    match fs::metadata(rt, path) {
        Ok(seen) => Ok(seen.len()),
        Err(error) => Err(ActionFault::of_io(&error)),
    }
}
