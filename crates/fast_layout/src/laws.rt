//! Laws of the list of fields, each the contract of a function that does nothing.

ghost use Rattle.std.specs.Prelude.{◌≡◌, ◌+◌, List, length};
ghost use Rattle.fast_template.specs.Resolved.{Instructions, Resolved, size_of};
ghost use Rattle.fast_template.specs.TemplateSets.{IsNumbered, size_of_all};
ghost use Rattle.fast_layout.specs.Fields.{CountsOn, fields_of, rows_of};

/// A field's length is that of the fields that are its own, and a set has a field for each template and each instruction.
pub fn a_length_counts_fields()
    ensures own { (members : Instructions) → length (rows_of members) ≡ size_of members }
    ensures all { (ts : List Resolved) → length (fields_of ts) ≡ length ts + size_of_all ts }
{}

/// The fields of a template are those of its instructions by their numbers: the first behind it is instruction 1.
pub fn fields_stand_by_number()
    ensures { (members : Instructions) → IsNumbered members → CountsOn 1 (rows_of members) }
{}
