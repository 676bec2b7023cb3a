//! Where connections come, and until when.

use counter_places::Place;
use std::os::fd::RawFd;

/// The place to which connections come, and what ends the serving once its other side is closed, if that is given.
#[derive(Clone, Copy)]
pub struct Listening<'a> {
    /// Where they come.
    pub place: Place<'a>,
    /// What ends it.
    pub until: Option<RawFd>,
}
