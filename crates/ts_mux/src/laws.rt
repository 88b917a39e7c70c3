// Laws of captures, and of the order of interleaved connections.
ghost use Rattle.std.specs.Prelude.{◌≡◌, ℕ, Bool, true, ◌==◌, List, ◌∷◌, All};
ghost use Rattle.ts_spec.specs.Wire.{Request, stream_at};
ghost use Rattle.ts_mux.specs.declared.frame.Frame.{Frame};
ghost use Rattle.ts_mux.specs.Capture.{Ended, capture, frames_of, ending_of, all_framed};
ghost use Rattle.ts_mux.specs.Framing.{IsFrame};
ghost use Rattle.ts_mux.specs.Order.{Item, events_of, up_to_close, items_of, items_at, without, frames_without, stream};
ghost use Rattle.ts_mux.specs.Order.{order_by, order_without_quits, closing};

use ts_spec::WireLimits;

/// Law: written frames, each after its header, parse back to the same frames.
pub fn written_frames_read_back()
    ensures frames { (frames : List Frame) → All IsFrame frames → frames_of (capture (all_framed frames)) ≡ frames }
    ensures ending { (frames : List Frame) → All IsFrame frames → ending_of (capture (all_framed frames)) ≡ Ended }
{}

/// Law: the items of a connection are those of its own stream: its requests up to and including the first that closes
/// it, or up to a protocol error that comes before.
pub fn each_connection_has_its_own_requests(limits: WireLimits)
    ensures { (closes : Request → Bool) (link : ℕ) (frames : List Frame) → items_at link (order_by closes limits frames)
        ≡ items_of link (up_to_close closes (events_of (stream_at limits 0 (stream link frames)))) }
{}

/// Law: the items of the other connections do not depend on this connection's frames.
pub fn connections_stand_apart(limits: WireLimits)
    ensures { (closes : Request → Bool) (link : ℕ) (frames : List Frame)
        → order_by closes limits (frames_without link frames) ≡ without link (order_by closes limits frames) }
{}

/// Law: a frame of one connection yields nothing of any other.
pub fn bytes_bring_nothing_of_others(limits: WireLimits)
    ensures { (closes : Request → Bool) (link : ℕ) (frame : Frame) (frames : List Frame) → (frame.link == link) ≡ true
        → without link (order_by closes limits (frame ∷ frames)) ≡ without link (order_by closes limits frames) }
{}

/// Law: the order follows from the one in which no request closes its connection, if each connection's items after its
/// first closing request or error are dropped. Closing one connection first does not affect the others.
pub fn closings_make_the_order(limits: WireLimits)
    ensures order { (closes : Request → Bool) (frames : List Frame)
        → closing closes (order_without_quits limits frames) ≡ order_by closes limits frames }
    ensures close { (closes : Request → Bool) (link : ℕ) (items : List Item)
        → closing closes (without link items) ≡ without link (closing closes items) }
{}
