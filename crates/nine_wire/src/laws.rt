//! Laws of messages, each the contract of a function that does nothing. No code calls them: they
//! check the definitions.

ghost use Rattle.std.specs.Prelude.{◌≡◌, ◌<◌, ◌^◌, ◌++◌, ℕ, List};
ghost use Rattle.nine_wire.specs.Frames.{IsFrame, Spells, spelled_reply};
ghost use Rattle.nine_wire.specs.Messages.{TMessage, RMessage, FitsReply};
ghost use Rattle.nine_wire.specs.Messages.{reply_type, reply_parameters};

/// No bytes spell two requests, nor one under two tags.
pub fn one_request()
    ensures { (s t : ℕ) (m n : TMessage) (bytes : List ℕ) →
        Spells s m bytes → Spells t n bytes → (s ≡ t) × (m ≡ n) }
{}

/// A reply that can be sent is one whole message, of its type and tag.
pub fn a_reply_is_a_message()
    ensures { (tag : ℕ) (reply : RMessage) → tag < 2 ^ 16 → FitsReply reply →
        IsFrame (spelled_reply tag reply) (reply_type reply) tag (reply_parameters reply) }
{}

/// Replies that stand one behind another are read apart in one way.
pub fn one_reply()
    ensures { (s t : ℕ) (p q : RMessage) (x y : List ℕ) →
        s < 2 ^ 16 → t < 2 ^ 16 → FitsReply p → FitsReply q →
        spelled_reply s p ++ x ≡ spelled_reply t q ++ y → (s ≡ t) × (p ≡ q) × (x ≡ y) }
{}
