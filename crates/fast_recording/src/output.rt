//! Outputs that make bytes of packets.

ghost use Rattle.std.specs.Prelude.{◌≡◌, ◌⊎◌, [], ◌∷◌, Bool, List, true, false};
ghost use Rattle.std.specs.FinMap as finite;
ghost use Rattle.fast_template.specs.Resolved.{Resolved};
ghost use Rattle.fast_dictionary.specs.Dictionary.{Dictionary};
ghost use Rattle.fast_stream.specs.Nodes.{Content};
ghost use Rattle.fast_walk.specs.Received.{handed_on};

use fast_lines::Signs;
use fast_show::LineWriter;
use fast_walk::Output;
use fast_writer::Writer;

/// An output that packets pass through, one after the other: whether what it makes of one stands behind its size.
pub trait PacketOutput: Output {
    // Whether packets have sizes.
    ghost sized: { Bool };

    /// Whether what is made of a packet stands behind its size, and none of it is there where the packet is refused.
    fn is_sized(&self) -> bool
        ensures { result ≡ sized };

    // Once all is handed on, a new stream can begin, from undefined entries.
    ghost renews: { (w : Self) (set : List Resolved) (ms : List Content) (d : Dictionary)
        → Self.waiting w ≡ [] → Self.keeps w set ms d ⊎ Self.stands w set ms d
        → Self.stands w set (handed_on [] ∷ []) finite.empty };

    // What has a size is ready as a whole.
    ghost whole: { (w : Self) → sized ≡ true → Self.ready w ≡ Self.waiting w };
}

/// Canonical bytes.
impl PacketOutput for Writer {
    ghost use Rattle.std.proofs.Common.{refl};

    ghost sized = { true };

    ghost renews = { λ w set ms d empty has. (empty, refl) };

    ghost whole = { λ w sized. refl };

    fn is_sized(&self) -> bool {
        true
    }
}

/// Lines, which stand one behind the other.
impl<S: Signs> PacketOutput for LineWriter<'_, S> {
    ghost use Rattle.std.proofs.Common.{ap, inl, inr, sym};
    ghost use Rattle.std.proofs.lemmas.Bool.{false≢true};
    ghost use Rattle.std.specs.Prelude.{Option, Some, ℕ};

    ghost sized = { false };

    ghost renews = { λ w set ms d empty.
        let told = ap (λ (xs : List ℕ). Some xs) (sym empty) in
        elim [ inl h ↦ (told, h.1) | inr h ↦ (told, h.1) ] };

    ghost whole = { λ w sized. absurd (false≢true sized) };

    fn is_sized(&self) -> bool {
        false
    }
}
