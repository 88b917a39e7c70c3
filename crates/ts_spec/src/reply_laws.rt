//! Laws of replies, each stated on a function with an empty body.

ghost use Rattle.std.specs.Prelude.{◌≢◌, ◌<◌, ◌^◌, List, length, All, ◌≡◌, ℕ, [], ◌++◌, map};
ghost use Rattle.ts_spec.specs.declared.wire.Kind.{Kind};
ghost use Rattle.ts_spec.specs.Refusal.{Fault};
ghost use Rattle.ts_spec.specs.Response.{Item, Response};
ghost use Rattle.ts_spec.specs.Text.{Reply, Error, IsPlain, text, protocol_message, protocol_error_text};
ghost use Rattle.ts_spec.specs.Replies.{array, fault_reply, memory_reply, item_reply, reply_to, IsItemReply};

/// Every reply of the server is plain: each error, and each other reply whose text is shorter than 2^64 bytes, as
/// every written text is. So the texts of all of them are self-delimiting.
pub fn replies_are_plain()
    ensures responses { (r : Response) → length (text (reply_to r)) < 2 ^ 64 → IsPlain (reply_to r) }
    ensures triples { (items : List Reply) → All IsItemReply items → length (text (array items)) < 2 ^ 64
        → IsPlain (array items) }
    ensures faults { (fault : Fault) → IsPlain (fault_reply fault) }
    ensures memory { IsPlain memory_reply }
    ensures protocol { (kind : Kind) → IsPlain (Error (protocol_message kind)) }
{}

/// No other reply, and no other item of TS.MADD, has the text of the out-of-memory error.
pub fn the_memory_error_is_unique()
    ensures responses { (r : Response) → text (reply_to r) ≢ text memory_reply }
    ensures triples { (item : Item) → text (item_reply item) ≢ text memory_reply }
    ensures faults { (fault : Fault) → text (fault_reply fault) ≢ text memory_reply }
    ensures protocol { (kind : Kind) → protocol_error_text kind ≢ text memory_reply }
{}

/// The text of a reply is self-delimiting. If the texts of two replies are prefixes of the same bytes, they are
/// equal, so no text is a proper prefix of another. The text of an array determines the texts of its items.
pub fn reply_texts_are_self_delimiting()
    ensures ends { (a b : Reply) (x y : List ℕ) → IsPlain a → IsPlain b
        → text a ++ x ≡ text b ++ y → (text a ≡ text b) × (x ≡ y) }
    ensures front { (a b : Reply) (rest : List ℕ) → IsPlain a → IsPlain b
        → text b ≡ text a ++ rest → rest ≡ [] }
    ensures items { (xs ys : List Reply) → IsPlain (array xs) → IsPlain (array ys)
        → text (array xs) ≡ text (array ys) → map text xs ≡ map text ys }
{}
