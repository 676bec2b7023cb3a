//! The body of a post: an account, a branch, a teller, and the amount.

ghost use Rattle.std.specs.Prelude.{◌≡◌, ◌<◌, IfSome};
ghost use Rattle.serde_json.specs.View.{view};
ghost use Rattle.bodies.specs.Post.{post_of};
ghost use Rattle.counter_ops.specs.Post.{IsPost};

use crate::members::{delta, is_object_of, key};
use counter_ops::Post;
use serde_json::Value;

/// The amount that the value states, to be added to an account at a teller. The object has `extra`
/// members beside those of a post.
pub fn post_stated(body: &Value, extra: usize) -> Option<Post>
    requires { extra < 2 }
    ensures value { result ≡ post_of extra (view body.now) }
    ensures range { IfSome result IsPost }
{
    if !is_object_of(body, 4 + extra) {
        return None;
    }
    Some(Post {
        account: key(body, "account")?,
        branch: key(body, "branch")?,
        delta: delta(body, "delta")?,
        teller: key(body, "teller")?,
    })
}
