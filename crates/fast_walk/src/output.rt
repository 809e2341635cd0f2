//! Receivers that make bytes of what they receive.

ghost use Rattle.std.specs.Prelude.{◌≡◌, ◌<◌, ◌⊎◌, ◌++◌, ◌∷◌, [], true, false, ℕ, Bool, List, IsTrue, IfOk, OnOk};
ghost use Rattle.fast_template.specs.Resolved.{Resolved};
ghost use Rattle.fast_dictionary.specs.Dictionary.{Dictionary};
ghost use Rattle.fast_stream.specs.Nodes.{Content};
ghost use Rattle.fast_walk.specs.Received.{Received, behind, handed_on};

use crate::receiver::Receiver;
use std::alloc::{AllocError, Global};

/// From so many bytes on that are ready in an output, what waits is handed on before the next message is read.
pub const MANY: usize = 65_536;

/// A receiver that makes bytes of messages, which wait in it until they are handed on.
///
/// The bytes of the messages that are finished wait; what there is of the message that is open is no part of them.
/// They are handed on front by front: a front of what waits is ready, and what is behind it may be made only when the
/// front has been handed on, so that many bytes need not lie in memory at once.
pub trait Output: Receiver {
    // The bytes that wait.
    ghost waiting: { Self → List ℕ };

    // Those of them, from the front, that are ready to be handed on.
    ghost ready: { Self → List ℕ };

    // How many times, at most, more of them are made ready.
    ghost left: { Self → ℕ };

    // These bytes are what it makes of these messages of a set.
    ghost makes: { List Resolved → List Content → List ℕ → Type 0 };

    /// The bytes that are ready, which are a front of those that wait.
    fn finished(&self) -> &[u8]
        ensures bytes { result.now ≡ ready self.now }
        ensures front { (rest : List ℕ) × (waiting self.now ≡ ready self.now ++ rest) };

    /// Forgets the bytes that are ready, which now are handed on, and makes the next of those that wait ready; answers
    /// whether any may still wait. It keeps the memory of those that it forgets.
    ///
    /// # Errors
    ///
    /// Memory was refused to what is made ready, and what waits is no longer whole.
    fn hand_on(&mut self, alloc: Global) -> Result<bool, AllocError>
        ensures stands { OnOk result ((set : List Resolved) (handed : List ℕ) (ms : List Content)
            (d : Dictionary)
            → Self.stands self.old set (handed_on handed ∷ ms) d
            → Self.stands self.new set (handed_on (handed ++ ready self.old) ∷ ms) d) }
        ensures has { OnOk result ((o : Received) (handed : List ℕ) (ms : List Content) (d : Dictionary)
            → o.before ≡ handed_on handed ∷ ms → Self.has self.old o d
            → Self.has self.new (behind o (handed_on (handed ++ ready self.old) ∷ ms)) d) }
        ensures keeps { OnOk result ((set : List Resolved) (handed : List ℕ) (ms : List Content)
            (d : Dictionary)
            → Self.keeps self.old set (handed_on handed ∷ ms) d
            → Self.keeps self.new set (handed_on (handed ++ ready self.old) ∷ ms) d) }
        ensures awaits { (around : List (List Bool)) (b : List Bool) → IsTrue (Self.awaits self.old around b)
            → IsTrue (Self.awaits self.new around b) }
        ensures begun { (b : List Bool) → IsTrue (Self.begun self.old b) → IsTrue (Self.begun self.new b) }
        ensures rest { OnOk result (waiting self.old ≡ ready self.old ++ waiting self.new) }
        ensures more { IfOk result (λ more. more ≡ true → left self.new < left self.old) }
        ensures none { IfOk result (λ more. more ≡ false → waiting self.new ≡ []) };

    // The bytes handed on and those that wait are what it makes of the messages, whatever is open.
    ghost made: { (w : Self) (set : List Resolved) (handed : List ℕ) (ms : List Content)
        (d : Dictionary)
        → Self.keeps w set (handed_on handed ∷ ms) d ⊎ Self.stands w set (handed_on handed ∷ ms) d
        → makes set ms (handed ++ waiting w) };
}
