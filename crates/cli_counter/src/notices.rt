//! Lines on standard error while a bank is served, for the machine's journal.

use counter_loop::Notices;
use std::io::Write;

/// The line after a fault of the disk. Each request is answered 503 then, until the bank is started again.
const DISK_FAILED: &[u8] = b"disk: failed\n";

/// What is reported on the machine's standard error. A line that can't be written is passed over.
#[derive(Drop)]
pub(crate) struct ErrorLines<'a> {
    pub(crate) rt: &'a HostRuntime,
}

impl<'a> Notices for ErrorLines<'a> {
    fn disk_failed(&mut self) {
        let _ = self.rt.stderr().write_all(DISK_FAILED);
    }
}
