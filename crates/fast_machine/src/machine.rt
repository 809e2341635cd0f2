//! Reading a stream that comes in chunks, whatever is done with what is read.

mod calls;

ghost use Rattle.std.specs.Prelude.{◌≡◌, ◌≤◌, ◌^◌, [], None, IfSome, length};
ghost use Rattle.std.specs.Coded.{→_prop};
ghost use Rattle.std.proofs.Props.{props};
ghost use Rattle.fast_walk.specs.OneProof.{KeepScalars-prop};
ghost use Rattle.fast_walk.specs.Awaited.{IsAwaitedAt};
ghost use Rattle.fast_walk.specs.Told.{KeepScalars};
ghost use Rattle.fast_walk.specs.Traversals.{CanGoOn, ServesAll};
ghost use Rattle.fast_machine.specs.Ends.{IsLong};
ghost use Rattle.fast_machine.specs.OneProof.{IsReadyAt-prop, IsAwaitedAt-prop, IsLong-prop, ServesAll-prop};

use fast_dictionary::Entries;
use fast_stream::{Fault, Framing};
use fast_walk::{HaltedBy, Receiver, Traversal};
use std::alloc::Global;

/// Reads a stream that comes in chunks, stops anywhere, and hands what it reads to a receiver.
///
/// It keeps the segments that are open, and the bytes of the one piece that is not whole. Nothing but that piece is
/// read again, and where it may be long, not before what it lacks has come.
#[derive(Drop)]
pub struct Machine<'a, R: Receiver, E: Entries> {
    alloc: Global,
    traversal: Traversal<'a>,
    framing: Framing,
    /// What has the messages that ended; whoever takes them from it leaves what is open.
    pub receiver: R,
    entries: E,
    // at most ten bytes of a subtraction length, ten of the length of a new part, and all but one
    // of that part's 65,535
    held: Vec<u8>,
    // the number of the instruction of the piece that is not whole; 0 where nothing of one has come
    waiting: u32,
    // that piece has at least so many bytes, where that is known; else 0
    end: usize,
    // only if none behind those held has its stop bit set
    until_stop: bool,
    // how many bytes are left of the open block, those that are held among them; none between two blocks
    left: u128,
    fault: Option<Fault>,
    // whose growth was refused, where the fault is want of memory
    halted_by: HaltedBy,
    fed: u64,
    messages: u64,
    ghost served: { ServesAll (E.serves entries) traversal.set.now } by { ServesAll-prop (E.serves entries) traversal.set.now },
    ghost bounded: { length held.items ≤ 65554 },
    ghost short: { fed ≤ 2 ^ 60 },
    ghost cleared: { IfSome fault (λ f. held.items ≡ []) } by { Prim.hlevel props },
    ghost ready: { fault ≡ None → CanGoOn (E.serves entries) traversal } by { →_prop (IsReadyAt-prop traversal.stage (E.serves entries) traversal) },
    ghost lacks: { IsLong end traversal (E.contents entries) held.items until_stop waiting } by { IsLong-prop end traversal (E.contents entries) held.items until_stop waiting },
    ghost within: { end ≤ 65554 },
    ghost kept: { fault ≡ None → KeepScalars (E.contents entries) } by { →_prop (KeepScalars-prop (E.contents entries)) },
    ghost awaited: { fault ≡ None → IsAwaitedAt (R.awaits receiver) (R.begun receiver) traversal.stage traversal.walk } by { →_prop (IsAwaitedAt-prop (R.awaits receiver) (R.begun receiver) traversal.stage traversal.walk) },
}
