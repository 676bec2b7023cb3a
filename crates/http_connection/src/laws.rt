//! What holds of each connection, whoever moves its bytes. The function does nothing; its contract is the law.

ghost use Rattle.std.specs.Prelude.{◌≡◌, List, false, true};
ghost use Rattle.http_connection.specs.History.{Event, IsClosed, IsHistory, IsServed, came_of, went_of};
ghost use Rattle.http_connection.specs.Parts.{ConnectionParts, opened};

use http_messages::Engine;

/// As long as a connection is not closing, what came are whole messages, one after another, and what is held; these were
/// answered, one after another; and what went out, with what is still to go out, is their replies. One that is closing was so up
/// to its last step, which closed it: by the last reply, by a refusal, by a beginning alone of either, or by a report that broke.
pub fn always_served<E: Engine>(_engine: &E)
    ensures open { (from to : E) (c : ConnectionParts) (events : List Event) → IsHistory E.answers E.stops E.breaks opened from events c to → c.is_closing ≡ false
        → IsServed E.answers (came_of events) (went_of events) from c to }
    ensures closed { (from to : E) (c : ConnectionParts) (events : List Event) → IsHistory E.answers E.stops E.breaks opened from events c to → c.is_closing ≡ true
        → IsClosed E.answers E.stops E.breaks (came_of events) (went_of events) from c to }
{}
