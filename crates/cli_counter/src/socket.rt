//! Unix sockets bound at a path, in place of one that an ended program left there.

use mio::net::{UnixListener, UnixStream};
use std::io::ErrorKind;
use std::os::unix::fs::FileTypeExt;
use std::{fs, io};

/// Binds a Unix socket at a path, with the rights that the system gives. A socket that stands there and refuses a connection was
/// left by a program that is no more, and is replaced. Whatever else stands there stays, and is the error.
pub(crate) fn bind(rt: &HostRuntime, path: &str) -> io::Result<UnixListener> {
    match UnixListener::bind(rt, path) {
        Ok(listener) => Ok(listener),
        Err(error) => {
            if error.kind() == ErrorKind::AddrInUse && is_left(rt, path) {
                fs::remove_file(rt, path)?;
                UnixListener::bind(rt, path)
            } else {
                Err(error)
            }
        }
    }
}

/// Whether a socket stands at a path to which nobody listens.
fn is_left(rt: &HostRuntime, path: &str) -> bool {
    let Ok(seen) = fs::symlink_metadata(rt, path) else {
        return false;
    };
    if !seen.file_type().is_socket() {
        return false;
    }
    match UnixStream::connect(rt, path) {
        Ok(_) => false,
        Err(error) => error.kind() == ErrorKind::ConnectionRefused,
    }
}
