//! Laws of the forms of fields, each the contract of a function that does nothing.

ghost use Rattle.std.specs.Prelude.{◌≡◌, ◌≢◌, ℕ, ◌≤◌, ◌++◌, Bool, false, List, length, Option, Some, None, Ok};
ghost use Rattle.std.specs.List.{AllByRecursion};
ghost use Rattle.fast_wire.specs.declared.level.Level.{Level};
ghost use Rattle.fast_wire.specs.declared.level.Level.TheVariants.{Usual};
ghost use Rattle.fast_wire.specs.Reader.{GoesOn, IsBytes, IsReader};
ghost use Rattle.fast_template.specs.TemplateSets.{IsSound, TemplateList, templates_in};
ghost use Rattle.fast_template.specs.declared.resolved.FieldPart.{FieldPart};
ghost use Rattle.fast_value.specs.declared.scalar.Scalar.{Scalar};
ghost use Rattle.fast_dictionary.specs.declared.entry.Entry.{Entry};
ghost use Rattle.fast_field.specs.Parts.{EachPartIn, HasDefault, IsBitOf, IsFieldPart};
ghost use Rattle.fast_field.specs.Bases.{next};
ghost use Rattle.fast_field.specs.Fields.{Form};
ghost use Rattle.fast_field.specs.Within.{HasRangeOr, HoldsScalar, IsFieldValue};
ghost use Rattle.fast_field.specs.Best.{CutsNothing, IsBest};
ghost use Rattle.fast_field.specs.Refusals.{refusal_of};
ghost use Rattle.fast_field.specs.FieldReading.{field_at, IsFieldFault};
ghost use Rattle.fast_field.specs.FieldFaults.{FieldStops};

use crate::fault::{FieldFault, FieldRefusal};

/// Every field is read, whatever its operator.
#[tactic(auto, using(crate::proofs::FieldForms::field_forms))]
pub fn fields_are_read()
    ensures { (level : Level) (i : FieldPart) (e : Entry) (bit : Bool) → IsBitOf i bit → HasDefault i
        → IsReader FieldFault.NeedMore (field_at level i e bit) (Form level i e bit) }
{}

/// A form at a level is one at the usual level. What is read at a level is read at the usual one, and so is a fault that
/// is not the level's own.
pub fn levels_agree()
    ensures forms { (level : Level) (i : FieldPart) (e : Entry) (bit : Bool) (b : List ℕ) (v : Option Scalar)
        → Form level i e bit b v → Form Usual i e bit b v }
    ensures read { (level : Level) (i : FieldPart) (e : Entry) (bit : Bool) (bytes : List ℕ) (x : Option Scalar × List ℕ)
        → field_at level i e bit bytes ≡ Ok x → field_at Usual i e bit bytes ≡ Ok x }
    ensures refused { (level : Level) (i : FieldPart) (e : Entry) (bit : Bool) (bytes : List ℕ) (f : FieldFault)
        → IsFieldFault level i e bit bytes f → f ≢ FieldFault.R6 → f ≢ FieldFault.R9 → IsFieldFault Usual i e bit bytes f }
{}

/// What is read of a field is read whatever follows.
#[tactic(auto, using(crate::proofs::FieldsBehave::field_goes))]
pub fn fields_go_on()
    ensures { (level : Level) (i : FieldPart) (e : Entry) (bit : Bool) → GoesOn (field_at level i e bit) }
{}

/// At most one form begins a list, and it has one value.
pub fn one_form_begins_a_list()
    ensures { (level : Level) (i : FieldPart) (e : Entry) (bit : Bool) → IsBitOf i bit → HasDefault i
        → (b c rest others : List ℕ) (v w : Option Scalar) → Form level i e bit b v → Form level i e bit c w
        → b ++ rest ≡ c ++ others → (v ≡ w) × (rest ≡ others) }
{}

/// Where a field has a first fault, no form begins the list.
pub fn no_form_begins_at_a_fault()
    ensures { (level : Level) (i : FieldPart) (e : Entry) (bit : Bool) → IsBitOf i bit → HasDefault i
        → (bytes b rest : List ℕ) (v : Option Scalar) (f : FieldFault)
        → IsFieldFault level i e bit bytes f → bytes ≡ b ++ rest → Form level i e bit b v → ⊥ }
{}

/// Where no form begins a list of bytes, the field has a first fault.
#[tactic(auto, using(crate::proofs::FieldForms::no_form_is_fault))]
pub fn a_fault_where_no_form_begins()
    ensures { (level : Level) (i : FieldPart) (e : Entry) (bit : Bool) → IsBitOf i bit → HasDefault i
        → (bytes : List ℕ) → IsBytes bytes → ((b rest : List ℕ) (v : Option Scalar)
        → bytes ≡ b ++ rest → Form level i e bit b v → ⊥)
        → (f : FieldFault) × IsFieldFault level i e bit bytes f }
{}

/// The first fault of a field is that of the first of its checks that fails, in the order of `FieldStops`: what stands
/// before the check has passed, and no other check comes before it.
pub fn faults_are_of_the_first_check()
    ensures stops { (level : Level) (i : FieldPart) (e : Entry) (bit : Bool) → IsBitOf i bit → HasDefault i
        → (bytes : List ℕ) (f : FieldFault) → IsBytes bytes
        → IsFieldFault level i e bit bytes f → FieldStops level i e bit bytes f }
    ensures only { (level : Level) (i : FieldPart) (e : Entry) (bit : Bool) → IsBitOf i bit → HasDefault i
        → (bytes : List ℕ) (f : FieldFault) → IsBytes bytes
        → FieldStops level i e bit bytes f → IsFieldFault level i e bit bytes f }
{}

/// Want of memory is no fault of the bytes.
#[tactic(auto, using(crate::proofs::FieldsBehave::field_no_memory))]
pub fn no_fault_is_want_of_memory()
    ensures { (level : Level) (i : FieldPart) (e : Entry) (bit : Bool) (bytes : List ℕ)
        → IsFieldFault level i e bit bytes FieldFault.Memory → ⊥ }
{}

/// A field that waits for more bytes has few of them: at most ten of a subtraction length, ten of the
/// length of a new part, and all but one of that part's 65,535.
#[tactic(auto, using(crate::proofs::FieldsBehave::field_waits))]
pub fn what_waits_is_short()
    ensures { (level : Level) (i : FieldPart) (e : Entry) (bit : Bool) (bytes : List ℕ)
        → IsFieldFault level i e bit bytes FieldFault.NeedMore → length bytes ≤ 65554 }
{}

/// Each part of a sound set of templates is a field part; so a mandatory default has an initial value.
#[tactic(auto, using(crate::proofs::PartsOfSets::parts_of_sets, crate::proofs::PartsOfSets::has_default))]
pub fn parts_of_sets_are_field_parts()
    ensures parts { (set : TemplateList) → IsSound set
        → AllByRecursion (λ t. EachPartIn IsFieldPart t.members) (templates_in set) }
    ensures defaults { (i : FieldPart) → IsFieldPart i → HasDefault i }
{}

/// The value of a form is one that the field can have: of its type and within it, and within the limits of its part.
/// So is the entry that it leaves; so entries stay within their types along a stream.
pub fn values_are_within()
    ensures values { (level : Level) (i : FieldPart) (e : Entry) (bit : Bool) (b : List ℕ) (v : Option Scalar)
        → IsFieldPart i → HoldsScalar e → Form level i e bit b v → IsFieldValue i v }
    ensures entries { (i : FieldPart) (e : Entry) (v : Option Scalar) → HoldsScalar e
        → IsFieldValue i v → HoldsScalar (next i e v) }
{}

/// A value is refused exactly where it has no form: what `refusal_of` refuses has none, and what it does not refuse
/// has a best one. (That the value is what its type says, its number in range and its text UTF-8, is a premise.)
#[tactic(auto, using(crate::proofs::BestValues::best_stands))]
pub fn refusals_are_exact()
    ensures refused { (level : Level) (i : FieldPart) (e : Entry) (v : Option Scalar) (r : FieldRefusal)
        → IsFieldPart i → HoldsScalar e
        → refusal_of i e v ≡ Some r → (bit : Bool) (b : List ℕ) → Form level i e bit b v → ⊥ }
    ensures allowed { (i : FieldPart) (e : Entry) (v : Option Scalar) → IsFieldPart i
        → HoldsScalar e → HasRangeOr v
        → refusal_of i e v ≡ None → (bit : Bool) × (b : List ℕ) × IsBest i e bit b v }
{}

/// A value that has a form has a best one, and one only.
pub fn values_have_one_best_form()
    ensures some { (i : FieldPart) (e : Entry) (bit : Bool) (b : List ℕ) (v : Option Scalar)
        → IsFieldPart i → HoldsScalar e → Form Usual i e bit b v
        → (best : Bool) × (c : List ℕ) × IsBest i e best c v }
    ensures one { (i : FieldPart) (e : Entry) (bit other : Bool) (b c : List ℕ)
        (v : Option Scalar) → IsBest i e bit b v → IsBest i e other c v
        → (bit ≡ other) × (b ≡ c) }
{}

/// No form of a value has fewer bytes than its best one, and none has bit 0 where that has bit 1. One that is as long
/// is the same bytes, save of a tail and of a delta of a string or vector.
pub fn no_form_is_shorter()
    ensures least { (i : FieldPart) (e : Entry) (bit other : Bool) (b c : List ℕ)
        (v : Option Scalar) → IsBest i e bit b v → Form Usual i e other c v
        → (other ≡ false → bit ≡ false) × (length b ≤ length c) }
    ensures same { (i : FieldPart) (e : Entry) (bit other : Bool) (b c : List ℕ)
        (v : Option Scalar) → CutsNothing i.operator i.kind
        → IsBest i e bit b v → Form Usual i e other c v → length b ≡ length c → b ≡ c }
{}

/// The best form of a value is a form at each level: no entity in it is longer than it needs to be.
#[tactic(auto, using(crate::proofs::StrictForms::best_at_level))]
pub fn best_forms_are_strict()
    ensures { (level : Level) (i : FieldPart) (e : Entry) (bit : Bool) (b : List ℕ) (v : Option Scalar)
        → IsBest i e bit b v → Form level i e bit b v }
{}
