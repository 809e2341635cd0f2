//! What receives the fields of a message.

ghost use Rattle.std.specs.Prelude.{◌≡◌, ◌≢◌, ◌≤◌, ◌<◌, ◌++◌, ◌∷◌, [], ℕ, ℤ, Bool, true, false, List, Option, Some, None, IsSome, IfSome, IfOk, IfErr, OnOk, OnErr, IsTrue, length, drop};
ghost use Rattle.std.specs.FinMap as finite;
ghost use Rattle.fast_value.specs.declared.scalar.Scalar.{Scalar as ScalarOf};
ghost use Rattle.fast_value.specs.declared.scalar.Scalar.TheVariants.{U32, I64, Decimal};
ghost use Rattle.fast_template.specs.declared.resolved.FieldPart.{FieldPart as PartOf};
ghost use Rattle.fast_value.specs.declared.kind.Presence.{Presence as PresenceOf};
ghost use Rattle.fast_value.specs.declared.kind.Presence.TheVariants.{Mandatory};
ghost use Rattle.fast_value.specs.declared.kind.Part.TheVariants.{Whole, Exponent, Mantissa, Length};
ghost use Rattle.fast_value.specs.declared.kind.Kind.TheVariants.{Int32, Int64, UInt32};
ghost use Rattle.fast_template.specs.Resolved.{Instructions, Resolved, list_of, whole_field, field_in_parts, group_of, sequence_of, no_instructions, then_instruction, has_map, is_optional, part_needs_bit};
ghost use Rattle.fast_dictionary.specs.Dictionary.{Dictionary};
ghost use Rattle.fast_stream.specs.Nodes.{single, Content};
ghost use Rattle.fast_stream.specs.Streams.{identifier as identifier_part};
ghost use Rattle.fast_walk.specs.OpenSegments.{Sequel, Waiting, at_instruction, at_mantissa, at_element, in_group, in_sequence};
ghost use Rattle.fast_walk.specs.Received.{Received, Carries, CarriesOpen, Completes, Faults, Took, IsExponent, after_exponent, after_length, after_sequence, ended_in, entered, in_element, in_next, length_of, opened, passed};
ghost use Rattle.fast_walk.specs.Walks.{AreServed, IsNextServed};
ghost use Rattle.fast_walk.specs.Told.{IsTold, KeepScalars};
ghost use Rattle.fast_stream.specs.Bits.{after_bit, bit_for};
ghost use Rattle.fast_wire.specs.PresenceMap.{IsWholeMap};
ghost use Rattle.fast_walk.specs.Awaited.{AwaitsBit, AwaitsBehind, AwaitsInside, AwaitsOutside, IsMapped, IsOwnMap, StillAwaits};
ghost use Rattle.fast_walk.specs.Passing.{Passes, next_behind};

use crate::bits::{first_for, take_for};
use fast_dictionary::Entries;
use fast_field::FieldFault;
use fast_template::{FieldPart, Flat, Name, Presence, part_needs_bit};
use fast_wire::{Bits, Level};
use std::alloc::{AllocError, Global};

/// Where a receiver stands behind the fields that it took from the front of a body.
#[derive(Clone, Copy)]
pub struct Fields<'a> {
    /// The mantissa that is next, where the last exponent is there.
    pub mantissa: Option<&'a FieldPart>,
    /// The instructions that are left, behind it.
    pub rest: &'a [Flat],
    /// How many nodes may still come.
    pub spare: u32,
    /// The place in the bytes.
    pub place: usize,
}

// The field that is first of these instructions, and those behind it.
#[inline(always)]
fn first_field(rest: &[Flat]) -> Option<(&Name, Presence, &FieldPart, &[Flat])>
    ensures { IfSome result (λ f. (number : ℕ) × (list_of rest.now
        ≡ then_instruction (whole_field f.0.now number f.1 f.2.now) (list_of f.3.now))) }
{
    match rest.split_first() {
        Some(
            (
                Flat::Field {
                    name,
                    presence,
                    whole,
                    ..
                },
                others,
            ),
        ) => Some((name, *presence, whole, others)),
        _ => None,
    }
}

/// Receives the fields of messages, and takes each from the bytes itself.
///
/// It is told what it stands on: each part is one of a set of templates, in its place, and each entry is within its type.
/// A call fails for want of memory only where it asked for some.
///
/// A call that fails for want of memory leaves no message that is open; `back` then forgets it.
pub trait Receiver: Drop {
    // Of the message that is open this has been received, and this is the dictionary behind it.
    ghost has: { Self → Received → Dictionary → Type 0 };

    // Between messages of this set: these have been received, and this is the dictionary behind them.
    ghost stands: { Self → List Resolved → List Content → Dictionary → Type 0 };

    // Whatever is open: these have been received before it, and this is the dictionary behind them.
    ghost keeps: { Self → List Resolved → List Content → Dictionary → Type 0 };

    // Of what is open these bits are left of the maps that were read: of those around the innermost, the message's own first,
    // and of the innermost.
    ghost awaits: { Self → List (List Bool) → List Bool → Bool };

    // Nothing is open but a message of which only the map was received, which has these bits.
    ghost begun: { Self → List Bool → Bool };

    /// The map of a message that begins.
    fn open(&mut self, map: &[u8]) -> Result<(), AllocError>
        requires map { (bits : List Bool) × IsWholeMap map.now bits }
        ensures stands { OnOk result (Carries (stands self.old) (stands self.new)) }
        ensures begun { OnOk result ((bits : List Bool) → IsWholeMap map.now bits → IsTrue (begun self.new bits)) }
        ensures keeps { Carries (stands self.old) (keeps self.new) };

    /// Takes a message's identifier from the bytes, and puts its entry; answers it and the place behind it.
    fn begin<E: Entries>(
        &mut self,
        alloc: Global,
        entries: &mut E,
        identifier: &FieldPart,
        bit: bool,
        level: Level,
        bytes: &[u8],
        at: usize,
    ) -> Result<(u32, usize), FieldFault>
        requires place { at ≤ length bytes.now }
        requires bit { part_needs_bit identifier.now ≡ false → bit ≡ true }
        requires served { IsTrue (E.serves entries.now identifier.now.key) }
        requires told { identifier.now ≡ identifier_part }
        requires kept { KeepScalars (E.contents entries.now) }
        requires begun { (b : List Bool) × (bit ≡ bit_for (part_needs_bit identifier.now) b) × IsTrue (begun self.now b) }
        ensures place { IfOk result (λ x. (at ≤ x.1) × (x.1 ≤ length bytes.now)) }
        ensures goes { IfOk result (λ x. Took level identifier.now bit (E.contents entries.old)
            (E.contents entries.new)
            (Some (U32 x.0)) (drop at bytes.now) (drop x.1 bytes.now)
            × ((set : List Resolved) (ms : List Content) (members : Instructions)
            → stands self.old set ms (E.contents entries.old)
            → has self.new (opened set ms x.0 members (E.contents entries.old)) (E.contents
            entries.new))) }
        ensures stops { IfErr result (λ f. f ≢ FieldFault.Memory
            → Faults level identifier.now bit (E.contents entries.old) (E.contents entries.new) (drop at bytes.now) f
            (Carries (stands self.old) (stands self.new))) }
        ensures awaits { OnOk result ((b : List Bool) → bit ≡ bit_for (part_needs_bit identifier.now) b → IsTrue (begun self.old b)
            → IsTrue (awaits self.new [] (after_bit (part_needs_bit identifier.now) b))) }
        ensures begun_on { IfErr result (λ f. f ≢ FieldFault.Memory → (b : List Bool) → IsTrue (begun self.old b) → IsTrue (begun self.new b)) }
        ensures keeps { Carries (stands self.old) (keeps self.new) }
        ensures same_keys { E.serves entries.new ≡ E.serves entries.old };

    /// The end of a message.
    fn finish(&mut self, alloc: Global) -> Result<(), AllocError>
        requires awaits { (b : List Bool) × IsTrue (awaits self.now [] b) }
        ensures stands { OnOk result (Completes (has self.old) (stands self.new)) }
        ensures keeps { OnErr result (Carries (keeps self.old) (keeps self.new)) };

    /// Forgets what was received of the message that is open.
    fn back(&mut self, alloc: Global)
        ensures open { Carries (keeps self.old) (stands self.new) }
        ensures between { Carries (stands self.old) (stands self.new) };

    /// Whether so much waits, between two messages, that it is to be taken before the next one is read.
    #[inline(always)]
    fn is_full(&self) -> bool {
        false
    }

    /// Makes entries undefined. A receiver may keep the memory of their strings for those to come.
    fn reset_entries<E: Entries>(&mut self, entries: &mut E)
        ensures same { self.new ≡ self.old }
        ensures cleared { E.contents entries.new ≡ finite.empty }
        ensures same_keys { E.serves entries.new ≡ E.serves entries.old }
    {
        entries.reset();
    }

    /// Takes a field of this name from the bytes, and puts its entry; answers the place behind it.
    fn field<E: Entries>(
        &mut self,
        alloc: Global,
        name: &Name,
        presence: Presence,
        entries: &mut E,
        part: &FieldPart,
        bit: bool,
        level: Level,
        bytes: &[u8],
        at: usize,
    ) -> Result<usize, FieldFault>
        requires place { at ≤ length bytes.now }
        requires bit { part_needs_bit part.now ≡ false → bit ≡ true }
        requires served { IsTrue (E.serves entries.now part.now.key) }
        requires told { IsTold Whole part.now.kind part.now }
        requires presence { part.now.presence ≡ presence }
        requires kept { KeepScalars (E.contents entries.now) }
        requires awaits { AwaitsBit bit part.now (awaits self.now) }
        ensures place { IfOk result (λ n. (at ≤ n) × (n ≤ length bytes.now)) }
        ensures goes { IfOk result (λ n. (v : Option ScalarOf)
            × Took level part.now bit (E.contents entries.old) (E.contents entries.new) v
            (drop at bytes.now) (drop n bytes.now)
            × ((number : ℕ) (is : Instructions) (o : Received)
            → o.next ≡ at_instruction
            → o.body.rest ≡ then_instruction (whole_field name.now number presence part.now) is
            → has self.old o (E.contents entries.old)
            → has self.new (passed o is (single v)) (E.contents entries.new))) }
        ensures stops { IfErr result (λ f. f ≢ FieldFault.Memory
            → Faults level part.now bit (E.contents entries.old) (E.contents entries.new) (drop at bytes.now) f
            (CarriesOpen (has self.old) (has self.new))) }
        ensures awaits { OnOk result (AwaitsBehind bit part.now (awaits self.old) (awaits self.new)) }
        ensures awaits_on { IfErr result (λ f. f ≢ FieldFault.Memory → StillAwaits (awaits self.old) (awaits self.new)) }
        ensures keeps { Carries (keeps self.old) (keeps self.new) }
        ensures same_keys { E.serves entries.new ≡ E.serves entries.old };

    /// Takes fields from the front of the open body, with their bits and nodes: as many as it likes, and by itself each up to
    /// what is no field, to one that has no reading, or until no node may come. What it leaves comes by the other calls, a
    /// fault too. A call of its own, so that each receiver has one such loop.
    #[inline(never)]
    fn fields<'a, E: Entries>(
        &mut self,
        alloc: Global,
        entries: &mut E,
        rest: &'a [Flat],
        bits: &mut Bits,
        spare: u32,
        level: Level,
        bytes: &[u8],
        at: usize,
    ) -> Result<Fields<'a>, AllocError>
        requires place { at ≤ length bytes.now }
        requires served { AreServed (E.serves entries.now) (list_of rest.now) }
        requires kept { KeepScalars (E.contents entries.now) }
        requires awaits { (around : List (List Bool)) × IsTrue (awaits self.now around bits.now) }
        ensures place { IfOk result (λ f. (at ≤ f.place) × (f.place ≤ length bytes.now)) }
        ensures few { IfOk result (λ f. f.spare ≤ spare) }
        ensures fewer { IfOk result (λ f. IsSome f.mantissa → f.spare < spare) }
        ensures served { IfOk result (λ f. AreServed (E.serves entries.old) (list_of f.rest.now)
            × IsNextServed (E.serves entries.old) (next_behind f.mantissa)) }
        ensures goes { IfOk result (λ f. (o : Received) → o.next ≡ at_instruction
            → o.body.rest ≡ list_of rest.now → has self.old o (E.contents entries.old)
            → Passes level (λ p. has self.new p (E.contents entries.new)) o (next_behind f.mantissa)
            (list_of f.rest.now) (E.contents entries.old) bits.old spare (drop at bytes.now)
            (E.contents entries.new) bits.new f.spare (drop f.place bytes.now)) }
        ensures kept { OnOk result (KeepScalars (E.contents entries.new)) }
        ensures awaits { OnOk result ((around : List (List Bool)) → IsTrue (awaits self.old around bits.old)
            → IsTrue (awaits self.new around bits.new)) }
        ensures keeps { Carries (keeps self.old) (keeps self.new) }
        ensures same_keys { E.serves entries.new ≡ E.serves entries.old }
    {
        let mut fields = Fields {
            mantissa: None,
            rest,
            spare,
            place: at,
        };
        'fields: loop {
            if fields.spare == 0 {
                return Ok(fields);
            }
            match first_field(fields.rest) {
                None => return Ok(fields),
                Some((name, presence, whole, others)) => {
                    let needs = part_needs_bit(whole);
                    let bit = first_for(bits, needs);
                    let place = fields.place;
                    match self.field(
                        alloc, name, presence, entries, whole, bit, level, bytes, place,
                    ) {
                        Err(fault) => match fault {
                            FieldFault::Memory => return Err(AllocError),
                            // nothing has changed, since it has no reading
                            _ => return Ok(fields),
                        },
                        Ok(next) => {
                            take_for(bits, needs);
                            fields.rest = others;
                            fields.spare -= 1;
                            fields.place = next;
                        }
                    }
                }
            }
        }
    }

    /// Takes the exponent of a decimal in parts; answers whether it is there, and the place behind it.
    fn exponent<E: Entries>(
        &mut self,
        name: &Name,
        presence: Presence,
        entries: &mut E,
        part: &FieldPart,
        bit: bool,
        level: Level,
        bytes: &[u8],
        at: usize,
    ) -> Result<(bool, usize), FieldFault>
        requires place { at ≤ length bytes.now }
        requires bit { part_needs_bit part.now ≡ false → bit ≡ true }
        requires served { IsTrue (E.serves entries.now part.now.key) }
        requires told { IsTold Exponent Int32 part.now }
        requires presence { part.now.presence ≡ presence }
        requires kept { KeepScalars (E.contents entries.now) }
        requires awaits { AwaitsBit bit part.now (awaits self.now) }
        ensures place { IfOk result (λ x. (at ≤ x.1) × (x.1 ≤ length bytes.now)) }
        ensures goes { IfOk result (λ x. (v : Option ScalarOf)
            × Took level part.now bit (E.contents entries.old) (E.contents entries.new) v
            (drop at bytes.now) (drop x.1 bytes.now)
            × IsExponent x.0 v
            × ((number : ℕ) (mantissa : PartOf) (is : Instructions) (o : Received)
            → o.next ≡ at_instruction
            → o.body.rest ≡ then_instruction (field_in_parts name.now number presence part.now
            mantissa) is
            → has self.old o (E.contents entries.old)
            → has self.new (after_exponent o is mantissa v) (E.contents entries.new))) }
        ensures stops { IfErr result (λ f. f ≢ FieldFault.Memory
            → Faults level part.now bit (E.contents entries.old) (E.contents entries.new) (drop at bytes.now) f
            (CarriesOpen (has self.old) (has self.new))) }
        ensures awaits { OnOk result (AwaitsBehind bit part.now (awaits self.old) (awaits self.new)) }
        ensures awaits_on { IfErr result (λ f. f ≢ FieldFault.Memory → StillAwaits (awaits self.old) (awaits self.new)) }
        ensures keeps { Carries (keeps self.old) (keeps self.new) }
        ensures same_keys { E.serves entries.new ≡ E.serves entries.old };

    /// Takes the mantissa of a decimal whose exponent is there; answers the place behind it.
    fn mantissa<E: Entries>(
        &mut self,
        entries: &mut E,
        part: &FieldPart,
        bit: bool,
        level: Level,
        bytes: &[u8],
        at: usize,
    ) -> Result<usize, FieldFault>
        requires place { at ≤ length bytes.now }
        requires bit { part_needs_bit part.now ≡ false → bit ≡ true }
        requires served { IsTrue (E.serves entries.now part.now.key) }
        requires told { IsTold Mantissa Int64 part.now }
        requires mandatory { part.now.presence ≡ Mandatory }
        requires kept { KeepScalars (E.contents entries.now) }
        requires awaits { AwaitsBit bit part.now (awaits self.now) }
        ensures place { IfOk result (λ n. (at ≤ n) × (n ≤ length bytes.now)) }
        ensures goes { IfOk result (λ n. (m : ℤ)
            × Took level part.now bit (E.contents entries.old) (E.contents entries.new) (Some (I64 m))
            (drop at bytes.now) (drop n bytes.now)
            × ((e : ℤ) (o : Received) → o.next ≡ at_mantissa e part.now
            → has self.old o (E.contents entries.old)
            → has self.new (passed o o.body.rest (single (Some (Decimal e m)))) (E.contents entries.new))) }
        ensures stops { IfErr result (λ f. f ≢ FieldFault.Memory
            → Faults level part.now bit (E.contents entries.old) (E.contents entries.new) (drop at bytes.now) f
            (CarriesOpen (has self.old) (has self.new))) }
        ensures awaits { OnOk result (AwaitsBehind bit part.now (awaits self.old) (awaits self.new)) }
        ensures awaits_on { IfErr result (λ f. f ≢ FieldFault.Memory → StillAwaits (awaits self.old) (awaits self.new)) }
        ensures keeps { Carries (keeps self.old) (keeps self.new) }
        ensures same_keys { E.serves entries.new ≡ E.serves entries.old };

    /// Takes the length of a sequence; answers it, none where the sequence is absent, and the place behind it.
    fn begin_sequence<E: Entries>(
        &mut self,
        alloc: Global,
        name: &Name,
        presence: Presence,
        entries: &mut E,
        part: &FieldPart,
        bit: bool,
        level: Level,
        bytes: &[u8],
        at: usize,
    ) -> Result<(Option<u32>, usize), FieldFault>
        requires place { at ≤ length bytes.now }
        requires bit { part_needs_bit part.now ≡ false → bit ≡ true }
        requires served { IsTrue (E.serves entries.now part.now.key) }
        requires told { IsTold Length UInt32 part.now }
        requires presence { part.now.presence ≡ presence }
        requires kept { KeepScalars (E.contents entries.now) }
        requires awaits { AwaitsBit bit part.now (awaits self.now) }
        ensures place { IfOk result (λ x. (at ≤ x.1) × (x.1 ≤ length bytes.now)) }
        ensures goes { IfOk result (λ x.
            Took level part.now bit (E.contents entries.old) (E.contents entries.new) (length_of x.0)
            (drop at bytes.now) (drop x.1 bytes.now)
            × ((number : ℕ) (members is : Instructions) (o : Received)
            → o.next ≡ at_instruction
            → o.body.rest ≡ then_instruction (sequence_of name.now number presence part.now members)
            is
            → has self.old o (E.contents entries.old)
            → has self.new (after_length o number members is x.0) (E.contents entries.new))) }
        ensures stops { IfErr result (λ f. f ≢ FieldFault.Memory
            → Faults level part.now bit (E.contents entries.old) (E.contents entries.new) (drop at bytes.now) f
            (CarriesOpen (has self.old) (has self.new))) }
        ensures awaits { OnOk result (AwaitsBehind bit part.now (awaits self.old) (awaits self.new)) }
        ensures awaits_on { IfErr result (λ f. f ≢ FieldFault.Memory → StillAwaits (awaits self.old) (awaits self.new)) }
        ensures keeps { Carries (keeps self.old) (keeps self.new) }
        ensures same_keys { E.serves entries.new ≡ E.serves entries.old };

    /// A group of this name and number that is left out.
    fn left_out(&mut self, name: &Name, number: u32) -> Result<(), AllocError>
        requires awaits { (around : List (List Bool)) × (b : List Bool) × (bit_for true b ≡ false) × IsTrue (awaits self.now around b) }
        ensures has { OnOk result ((presence : PresenceOf) (members is : Instructions)
            (o : Received) (d : Dictionary) → o.next ≡ at_instruction
            → o.body.rest ≡ then_instruction (group_of name.now number presence members) is
            → is_optional presence ≡ true → has self.old o d
            → has self.new (passed o is (single None)) d) }
        ensures awaits { OnOk result ((around : List (List Bool)) (optional : Bool) (b : List Bool)
            → bit_for optional b ≡ false → IsTrue (awaits self.old around b)
            → IsTrue (awaits self.new around (after_bit optional b))) }
        ensures keeps { Carries (keeps self.old) (keeps self.new) };

    /// The beginning of a group of this name and number, whether it is optional, its map, which is empty where it has none of
    /// its own, and how many instructions it has.
    fn enter(
        &mut self,
        alloc: Global,
        name: &Name,
        number: u32,
        optional: bool,
        map: &[u8],
        size: usize,
    ) -> Result<(), AllocError>
        requires map { (own : Bool) × IsMapped own map.now }
        requires awaits { (around : List (List Bool)) × (b : List Bool) × (bit_for optional b ≡ true) × IsTrue (awaits self.now around b) }
        ensures has { OnOk result ((presence : PresenceOf) (members is : Instructions)
            (bits : List Bool) (o : Received) (d : Dictionary) → o.next ≡ at_instruction
            → o.body.rest ≡ then_instruction (group_of name.now number presence members) is
            → optional ≡ is_optional presence → IsMapped (has_map members) map.now
            → has self.old o d → has self.new (entered o number bits members is) d) }
        ensures awaits { OnOk result ((around : List (List Bool)) (own : Bool) (b bits : List Bool)
            → bit_for optional b ≡ true → IsOwnMap own map.now bits → IsTrue (awaits self.old around b)
            → IsTrue (awaits self.new (around ++ after_bit optional b ∷ []) bits)) }
        ensures keeps { Carries (keeps self.old) (keeps self.new) };

    /// The end of a group.
    fn leave(&mut self, alloc: Global) -> Result<(), AllocError>
        requires awaits { AwaitsInside (awaits self.now) }
        ensures has { OnOk result ((o : Received) (d : Dictionary) (ws : List Waiting) (w : Waiting)
            → o.next ≡ at_instruction → o.body.rest ≡ no_instructions → o.around ≡ ws ++ w ∷ []
            → w.inside ≡ in_group → has self.old o d
            → has self.new (ended_in o ws w.body in_group) d) }
        ensures awaits { OnOk result (AwaitsOutside (awaits self.old) (awaits self.new)) }
        ensures keeps { Carries (keeps self.old) (keeps self.new) };

    /// The beginning of an element of the sequence of this number, its map, which is empty where it has none of its own, and how
    /// many instructions it has.
    fn enter_element(
        &mut self,
        alloc: Global,
        number: u32,
        map: &[u8],
        size: usize,
    ) -> Result<(), AllocError>
        requires map { (own : Bool) × IsMapped own map.now }
        requires awaits { (around : List (List Bool)) × (b : List Bool) × IsTrue (awaits self.now around b) }
        ensures has { OnOk result ((s : Sequel) (bits : List Bool) (o : Received) (d : Dictionary)
            → o.next ≡ at_element s → number ≡ s.number → IsMapped s.own_map map.now → 0 < s.left
            → has self.old o d → has self.new (in_element o bits s) d) }
        ensures awaits { OnOk result ((around : List (List Bool)) (own : Bool) (b bits : List Bool)
            → IsOwnMap own map.now bits → IsTrue (awaits self.old around b)
            → IsTrue (awaits self.new (around ++ b ∷ []) bits)) }
        ensures keeps { Carries (keeps self.old) (keeps self.new) };

    /// The end of an element.
    fn leave_element(&mut self, alloc: Global) -> Result<(), AllocError>
        requires awaits { AwaitsInside (awaits self.now) }
        ensures has { OnOk result ((o : Received) (d : Dictionary) (ws : List Waiting) (w :
            Waiting) (s : Sequel)
            → o.next ≡ at_instruction → o.body.rest ≡ no_instructions → o.around ≡ ws ++ w ∷ []
            → w.inside ≡ in_sequence s → has self.old o d
            → has self.new (ended_in o ws w.body (in_sequence s)) d) }
        ensures awaits { OnOk result (AwaitsOutside (awaits self.old) (awaits self.new)) }
        ensures keeps { Carries (keeps self.old) (keeps self.new) };

    /// The end of an element and the beginning of the next one of its sequence, which has this number, that element's map, which
    /// is empty where it has none of its own, and how many instructions it has.
    fn next_element(
        &mut self,
        alloc: Global,
        number: u32,
        map: &[u8],
        size: usize,
    ) -> Result<(), AllocError>
        requires map { (own : Bool) × IsMapped own map.now }
        requires awaits { AwaitsInside (awaits self.now) }
        ensures has { OnOk result ((o : Received) (d : Dictionary) (ws : List Waiting) (w :
            Waiting) (s : Sequel) (bits : List Bool)
            → o.next ≡ at_instruction → o.body.rest ≡ no_instructions → o.around ≡ ws ++ w ∷ []
            → w.inside ≡ in_sequence s → number ≡ s.number → IsMapped s.own_map map.now → 0 < s.left → has self.old o d
            → has self.new (in_next o bits ws w.body s) d) }
        ensures awaits { OnOk result ((around : List (List Bool)) (own : Bool) (b bits later : List Bool)
            → IsOwnMap own map.now later → IsTrue (awaits self.old (around ++ b ∷ []) bits)
            → IsTrue (awaits self.new (around ++ b ∷ []) later)) }
        ensures keeps { Carries (keeps self.old) (keeps self.new) }
    {
        self.leave_element(alloc)?;
        self.enter_element(alloc, number, map, size)?;
        Ok(())
    }

    /// The end of a sequence, behind its last element.
    fn end_sequence(&mut self, alloc: Global) -> Result<(), AllocError>
        ensures has { OnOk result ((o : Received) (d : Dictionary) (s : Sequel)
            → o.next ≡ at_element s → s.left ≡ 0 → has self.old o d
            → has self.new (after_sequence o s) d) }
        ensures awaits { OnOk result (StillAwaits (awaits self.old) (awaits self.new)) }
        ensures keeps { Carries (keeps self.old) (keeps self.new) };
}
