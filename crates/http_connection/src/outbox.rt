//! The bytes that are to go out of a connection.

ghost use Rattle.std.specs.Prelude.{◌≡◌, ◌≤◌, [], drop, length, vec_capacity, vec_len, IfOk};

use std::alloc::{AllocError, Global};

/// How much room an outbox has from the start, in bytes: enough for the reply to a request that changes the books, so that none of these
/// is lost for want of memory after the change.
const ROOM_AT_FIRST: usize = 1_024;

/// How much room an empty outbox keeps for its next replies, in bytes.
const MOST_KEPT: usize = 16_384;

/// An empty outbox. An error comes if memory was refused.
pub(crate) fn new_outbox(alloc: Global) -> Result<Vec<u8>, AllocError>
    ensures empty { IfOk result (λ outbox. outbox.items ≡ []) }
    ensures room { IfOk result (λ outbox. vec_capacity outbox ≡ ROOM_AT_FIRST) }
{
    Vec::with_capacity(alloc, ROOM_AT_FIRST)
}

/// Drops the first bytes of an outbox. One that is empty then gives its room back if that is much, as after a report, and has its first
/// room anew, unless memory is refused.
pub(crate) fn drop_front(outbox: &mut Vec<u8>, n: usize)
    requires { n ≤ length outbox.old.items }
    ensures rest { outbox.new.items ≡ drop n outbox.old.items }
    ensures room { vec_len outbox.new ≡ 0 → vec_capacity outbox.new ≤ MOST_KEPT }
{
    outbox.copy_within(n.., 0);
    let left = outbox.len() - n;
    outbox.truncate(left);
    give_back_room(outbox);
}

/// Gives the room of an empty outbox back if that is much.
fn give_back_room(outbox: &mut Vec<u8>)
    ensures same { outbox.new.items ≡ outbox.old.items }
    ensures room { vec_len outbox.new ≡ 0 → vec_capacity outbox.new ≤ MOST_KEPT }
{
    if outbox.is_empty() && outbox.capacity() > MOST_KEPT {
        match new_outbox(*outbox.allocator()) {
            Ok(fresh) => *outbox = fresh,
            Err(_) => outbox.shrink_to_fit(),
        }
    }
}
