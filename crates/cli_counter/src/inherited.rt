//! The listening socket that a supervisor hands over to the program as it starts.

use crate::listener::Listener;
use crate::probed::Probed;
use mio::net::{TcpListener, UnixListener};
use os::FromRawFd;
use std::os::fd::{IntoRawFd, OwnedFd, RawFd};
use std::os::unix;
use std::{env, net, process};

/// The descriptor that a supervisor hands over first.
const FIRST: RawFd = 3;

/// The listening socket that a supervisor handed over as descriptor 3: it says that there is one, and that it is for this process,
/// by LISTEN_FDS and LISTEN_PID. What is no socket is left open as it is.
pub(crate) fn inherited_socket(rt: &HostRuntime) -> Option<Probed<Listener>> {
    if !has_number(rt, "LISTEN_FDS", 1)
        || !has_number(rt, "LISTEN_PID", process::id(rt.process()))
    {
        return None;
    }
    let listener = net::TcpListener::from(take_over());
    if listener.local_addr().is_ok() {
        return of_tcp(listener);
    }
    let listener = unix::net::UnixListener::from(OwnedFd::from(listener));
    if listener.local_addr().is_ok() {
        return of_unix(listener);
    }
    let _left_open = OwnedFd::from(listener).into_raw_fd();
    None
}

/// Takes descriptor 3 over. It is the only function here that names a descriptor by its number.
fn take_over() -> OwnedFd {
    // It is called once, and only where the supervisor says that descriptor 3 is this process's own: nothing else closes it.
    // Where it says so wrongly, the caller finds no socket there, and does not close it.
    unsafe { OwnedFd::from_raw_fd(FIRST) }
}

/// Whether a variable of the environment is this number.
fn has_number(rt: &HostRuntime, name: &str, number: u32) -> bool {
    match env::var(rt, name) {
        Ok(text) => match text.as_str().parse::<u32>() {
            Ok(given) => given == number,
            Err(_) => false,
        },
        Err(_) => false,
    }
}

/// A door of TCP.
fn of_tcp(listener: net::TcpListener) -> Option<Probed<Listener>> {
    if listener.set_nonblocking(true).is_err() {
        return None;
    }
    Probed::new(Listener::Tcp(TcpListener::from_std(listener)))
}

/// A door that is a Unix socket.
fn of_unix(listener: unix::net::UnixListener) -> Option<Probed<Listener>> {
    if listener.set_nonblocking(true).is_err() {
        return None;
    }
    Probed::new(Listener::Unix(UnixListener::from_std(listener)))
}
