//! The law that joins lines and canonical bytes, as the contract of a function that does nothing.

ghost use Rattle.std.specs.Prelude.{◌≡◌, ◌⊎◌, None, Some};
ghost use Rattle.fast_template.specs.TemplateSets.{IsSound, TemplateList, templates_in};
ghost use Rattle.fast_dictionary.specs.Dictionary.{Dictionary};
ghost use Rattle.fast_stream.specs.Nodes.{Content};
ghost use Rattle.fast_nodes.specs.declared.fault.EncodeCause.TheVariants as cause;
ghost use Rattle.fast_nodes.specs.declared.fault.EncodeFault.{EncodeFault};
ghost use Rattle.fast_nodes.specs.FirstRefusal.{first_refusal, refused};
ghost use Rattle.fast_lines.specs.declared.form.Form.{Form};
ghost use Rattle.fast_lines.specs.Lines.{line_in};

/// A message has no line exactly where an encoder refuses it with `D9` or `Mismatch`, from whatever entries: for a
/// template that the set does not have, or for its shape, types or characters.
pub fn no_line_where_the_shape_is_refused()
    ensures refused { (form : Form) (set : TemplateList) (d : Dictionary) (m : Content) → IsSound set
        → line_in form set m ≡ None
        → (f : EncodeFault) × (first_refusal (templates_in set) d m ≡ Some f)
        × ((f ≡ refused cause.D9) ⊎ (f ≡ refused cause.Mismatch)) }
    ensures no_line { (form : Form) (set : TemplateList) (d : Dictionary) (m : Content)
        (f : EncodeFault) → IsSound set → first_refusal (templates_in set) d m ≡ Some f
        → (f ≡ refused cause.D9) ⊎ (f ≡ refused cause.Mismatch) → line_in form set m ≡ None }
{}
