//! Puts the first page into a file that holds nothing, whole or not at all.

ghost use Rattle.std.specs.Prelude.{◌≡◌, ◌↔◌, false, IfErr, IsTrue};
ghost use Rattle.cli_file.specs.Faults.{IsOfFile};

use crate::fault::ActionFault;
use crate::page::{PAGE_LEN, first_page};
use os::RangeLock;
use std::fs::{File, Metadata, OpenOptions, Permissions};
use std::io::ErrorKind;
use std::os::fd::AsRawFd;
use std::os::unix::fs::{FileExt, MetadataExt, OpenOptionsExt, PermissionsExt, fchown};
use std::path::PathBuf;
use std::{fs, io};

/// Has a file that holds nothing, or is not there, begin as an empty database of one page. Any other stays as it is, and so does
/// one beside which a log or a journal stands: as SQLite does, the opening takes a log beside an empty file for none. A crash leaves
/// no file, an empty one, or that page.
pub(crate) fn begin_file(
    rt: &HostRuntime,
    path: &str,
    sums: bool,
) -> Result<(), ActionFault<'static>>
    ensures { IfErr result IsOfFile }
{
    match begun(rt, path, sums) {
        Ok(()) => Ok(()),
        Err(error) => Err(ActionFault::of_io(&error)),
    }
}

/// Whether a file of this length and with this number of names takes a first page, where a log or a journal stands beside it or not.
fn takes_page(len: u64, names: u64, has_log: bool, has_journal: bool) -> bool
    ensures { IsTrue result ↔ (len ≡ 0) × (names ≡ 1) × (has_log ≡ false) × (has_journal ≡ false) }
{
    len == 0 && names == 1 && !has_log && !has_journal
}

/// Puts the page into the file of this path, where it takes one.
fn begun(rt: &HostRuntime, path: &str, sums: bool) -> io::Result<()> {
    // SQLite's names for what is no path.
    if path == ":memory:" || path.starts_with("file:") {
        return Ok(());
    }
    let real = real_path(rt, path)?;
    let found = fs::symlink_metadata(rt, real.as_str())?;
    if !found.is_file() || found.len() > 0 {
        return Ok(());
    }
    let file = OpenOptions::new()
        .read(true)
        .write(true)
        .open(rt, real.as_str())?;
    lock(&file)?;
    let found = file.metadata()?;
    let named = fs::symlink_metadata(rt, real.as_str())?;
    let is_named = found.dev() == named.dev() && found.ino() == named.ino();
    let has_log = stands(rt, real.as_str(), "-wal")?;
    let has_journal = stands(rt, real.as_str(), "-journal")?;
    if is_named && takes_page(found.len(), found.nlink(), has_log, has_journal) {
        put_page(rt, real.as_str(), &found, &first_page(sums))
    } else {
        Ok(())
    }
}

/// The path with no link in it. A file that is missing is made.
fn real_path(rt: &HostRuntime, path: &str) -> io::Result<PathBuf> {
    match fs::canonicalize(rt, path) {
        Err(error) if error.kind() == ErrorKind::NotFound => {
            OpenOptions::new()
                .write(true)
                .create_new(true)
                .mode(0o644)
                .open(rt, path)?;
            fs::canonicalize(rt, path)
        }
        found => found,
    }
}

/// Takes the lock that SQLite takes on a file that it writes. It is held until the file is closed.
fn lock(file: &File) -> io::Result<()> {
    if os::try_lock_range(file.as_raw_fd(), RangeLock::Exclusive, 1 << 30, 512) == 0 {
        Ok(())
    } else {
        Err(io::Error::from_raw_os_error(os::errno()))
    }
}

/// Whether anything has this name with this ending.
fn stands(rt: &HostRuntime, name: &str, ending: &str) -> io::Result<bool> {
    let path = format!(in rt.alloc(); "{name}{ending}")?;
    match fs::symlink_metadata(rt, path.as_str()) {
        Ok(_) => Ok(true),
        Err(error) if error.kind() == ErrorKind::NotFound => Ok(false),
        Err(error) => Err(error),
    }
}

/// Writes the page to a file beside the empty one, with its owner and rights, and gives it the name of that. Where the owner can't
/// be kept, the empty one stays.
fn put_page(
    rt: &HostRuntime,
    name: &str,
    empty: &Metadata,
    page: &[u8; PAGE_LEN],
) -> io::Result<()> {
    let beside = format!(in rt.alloc(); "{name}-new")?;
    clear(rt, beside.as_str())?;
    let new = OpenOptions::new()
        .write(true)
        .create_new(true)
        .mode(0o600)
        .open(rt, beside.as_str())?;
    match written(&new, empty, page) {
        Ok(true) => fs::rename(rt, beside.as_str(), name),
        Ok(false) => fs::remove_file(rt, beside.as_str()),
        Err(error) => {
            let _ = fs::remove_file(rt, beside.as_str());
            Err(error)
        }
    }
}

/// Removes what a crash left of a page beside the file. What is longer than a page, or is no file, is none: then it is refused.
fn clear(rt: &HostRuntime, beside: &str) -> io::Result<()> {
    match fs::symlink_metadata(rt, beside) {
        Ok(left) if left.is_file() && left.len() <= PAGE_LEN as u64 => fs::remove_file(rt, beside),
        Ok(_) => Err(ErrorKind::AlreadyExists.into()),
        Err(error) if error.kind() == ErrorKind::NotFound => Ok(()),
        Err(error) => Err(error),
    }
}

/// Gives a new file the owner and rights of the empty one, and writes the page to it. Whether it got them; if not, nothing is written.
fn written(new: &File, empty: &Metadata, page: &[u8; PAGE_LEN]) -> io::Result<bool> {
    unless_denied(fchown(new, None, Some(empty.gid())))?;
    unless_denied(fchown(new, Some(empty.uid()), None))?;
    new.set_permissions(Permissions::from_mode(empty.mode() & 0o7777))?;
    let got = new.metadata()?;
    if got.uid() != empty.uid() || got.gid() != empty.gid() || got.mode() != empty.mode() {
        return Ok(false);
    }
    new.write_all_at(page, 0)?;
    new.sync_all()?;
    Ok(true)
}

/// The outcome of a change that the system may deny. Whether it was made is looked at later.
fn unless_denied(outcome: io::Result<()>) -> io::Result<()> {
    match outcome {
        Err(error) if error.kind() == ErrorKind::PermissionDenied => Ok(()),
        other => other,
    }
}
