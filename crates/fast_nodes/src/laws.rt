//! Laws of canonical bytes, each the contract of a function that does nothing.

ghost use Rattle.std.specs.Prelude.{◌≡◌, ℕ, List, None, Some};
ghost use Rattle.fast_wire.specs.declared.level.Level.TheVariants.{Usual};
ghost use Rattle.fast_template.specs.TemplateSets.{IsSound, TemplateList, templates_in};
ghost use Rattle.fast_dictionary.specs.Dictionary.{Dictionary};
ghost use Rattle.fast_stream.specs.Nodes.{Content};
ghost use Rattle.fast_stream.specs.Streams.{MessageForm};
ghost use Rattle.fast_walk.specs.Told.{HoldScalars};
ghost use Rattle.fast_writer.specs.Canonical.{CanonMessage};
ghost use Rattle.fast_nodes.specs.FirstRefusal.{first_refusal};
ghost use Rattle.fast_nodes.specs.Ranges.{IsInRange};

use crate::fault::EncodeFault;

/// A message that is refused has no form at all, canonical or not, from the same entries.
pub fn refused_messages_have_no_form()
    ensures { (set : TemplateList) (d : Dictionary) (m : Content) (f : EncodeFault)
        (bytes : List ℕ) (after : Dictionary) → IsSound set → HoldScalars d
        → first_refusal (templates_in set) d m ≡ Some f
        → MessageForm Usual (templates_in set) d bytes m after → ⊥ }
{}

/// A message that is not refused has canonical bytes. (That its numbers are in the range of their types and its texts
/// UTF-8 is a premise.)
#[tactic(auto, using(crate::proofs::HaveForms::not_refused_has_bytes))]
pub fn messages_not_refused_have_bytes()
    ensures { (set : TemplateList) (d : Dictionary) (m : Content) → IsSound set
        → HoldScalars d → IsInRange m → first_refusal (templates_in set) d m ≡ None
        → (bytes : List ℕ) × (after : Dictionary)
        × CanonMessage (templates_in set) d bytes m after }
{}
