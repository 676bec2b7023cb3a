//! What holds of every reading of a stream as messages. The functions do nothing; their contracts are the laws.

ghost use Rattle.std.specs.Prelude.{◌≡◌, ◌≤◌, ℕ, List, length};
ghost use Rattle.http_messages.specs.Next.{IsPartial};
ghost use Rattle.http_messages.specs.Refusal.{IsRefusal, HoldsNoMessage};
ghost use Rattle.http_messages.specs.Whole.{WholeMessage, Splits};

/// A stream has one reading, however its bytes were cut: two readings of it into equally many messages are the same
/// messages, and leave the same rest.
pub fn one_reading()
    ensures { (bytes : List ℕ) (ms ns : List WholeMessage) (rest other : List ℕ) → Splits bytes ms rest → Splits bytes ns other
        → length ms ≡ length ns → (ms ≡ ns) × (rest ≡ other) }
{}

/// A reading ends in one place: no reading has more messages than one whose rest is less than a message or begins none, so
/// two that end so are the same. Such a rest is one or the other, and one reply refuses it.
pub fn one_end()
    ensures most { (bytes : List ℕ) (ms ns : List WholeMessage) (rest other : List ℕ) → Splits bytes ms rest → Splits bytes ns other
        → HoldsNoMessage rest → length ns ≤ length ms }
    ensures same { (bytes : List ℕ) (ms ns : List WholeMessage) (rest other : List ℕ) → Splits bytes ms rest → Splits bytes ns other
        → HoldsNoMessage rest → HoldsNoMessage other → (ms ≡ ns) × (rest ≡ other) }
    ensures one_reply { (rest first second : List ℕ) → IsRefusal rest first → IsRefusal rest second → first ≡ second }
    ensures apart { (rest reply : List ℕ) → IsPartial rest → ¬ (IsRefusal rest reply) }
{}
