//! What is reported beside the replies, to who looks after the machine.

use crate::service::Service;

/// Who is to know what happens while connections are served.
pub trait Notices {
    /// The store's disk has failed, so it refuses each call from now on.
    fn disk_failed(&mut self);
}

/// Reports once that the store has stopped, and returns whether that was reported, now or before.
pub(crate) fn report_stop<E: Service, K: Notices>(
    notices: &mut K,
    service: &E,
    was_reported: bool,
) -> bool {
    if was_reported || !service.is_stopped() {
        return was_reported;
    }
    notices.disk_failed();
    true
}
