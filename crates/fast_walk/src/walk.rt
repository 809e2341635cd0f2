//! A walk through the open segments of a message, without its items.

ghost use Rattle.std.specs.Prelude.{◌≡◌, ◌≢◌, ◌≤◌, ◌<◌, ◌++◌, ◌∷◌, ◌-◌, ◌+◌, [], ℕ, Bool, true, false, List, Option, Ok, IsSome, ◌⊎◌, IfOk, IfErr, IfSome, MatchResult, OnErr, OnOk, length, drop, map, slice_range, vec_capacity, vec_len};
ghost use Rattle.fast_value.specs.declared.key.Key as key_type;
ghost use Rattle.fast_template.specs.Resolved.{instruction_of, list_of, no_instructions, is_optional as is_optional_of};
ghost use Rattle.fast_dictionary.specs.Dictionary.{Dictionary};
ghost use Rattle.fast_stream.specs.Bits.{after_bit};
ghost use Rattle.fast_wire.specs.Level.{IsLeftClear, some_set};
ghost use Rattle.fast_stream.specs.Faults.{cause_of_field};
ghost use Rattle.fast_stream.specs.Reading.{node_at, own_map_at, stopped};
ghost use Rattle.fast_walk.specs.OpenSegments.{Waiting, at_instruction, cursor, fewer, in_sequence};
ghost use Rattle.fast_walk.specs.Received.{Received, Carries, closed_in};
ghost use Rattle.fast_walk.specs.Passing.{next_behind};
ghost use Rattle.fast_walk.specs.Walks.{next_of, weight_of};
ghost use Rattle.fast_walk.specs.Awaited.{IsAwaited, IsOwnMap, AwaitsInside, AwaitsOutside};
ghost use Rattle.fast_walk.specs.Pieces.{CanWalk, IsTaken, Reaches, Runs};

use crate::bits::{first_for, is_one_group, read_own_map, take_for};
use crate::halt::{Halt, HaltedBy, field_cause};
use crate::leveled::{Leveled, Strictly, Usually};
use crate::receiver::Receiver;
use fast_dictionary::Entries;
use fast_field::FieldFault;
use fast_stream::Cause;
use fast_template::{FieldPart, Flat, Name, Presence, has_map, part_needs_bit};
use fast_wire::{Bits, Level};
use std::alloc::{AllocError, Global};
use std::mem;

/// So few bytes are taken field by field.
const FEW: usize = 4;

/// The elements of a sequence that are still to come.
#[derive(Clone, Copy)]
pub struct Sequel<'a> {
    pub number: u32,
    /// Whether each has a map of its own.
    pub own_map: bool,
    pub members: &'a [Flat],
    pub left: u32,
}

/// What a segment is to the body around it: a group, with its number, or an element with others to come.
#[derive(Clone, Copy)]
pub enum Inside<'a> {
    Group(u32),
    Element(Sequel<'a>),
}

/// The piece that is next: of an instruction, a mantissa whose exponent is read, or an element.
#[derive(Clone, Copy)]
pub enum Next<'a> {
    Instruction,
    Mantissa(&'a FieldPart),
    Element(Sequel<'a>),
}

/// A body that waits for the segment inside it.
#[derive(Drop)]
pub struct Frame<'a> {
    bits: Bits,
    rest: &'a [Flat],
    inside: Inside<'a>,
}

/// The innermost open segment, and those around it, the message's own first.
#[derive(Drop)]
pub struct Walk<'a> {
    pub(crate) bits: Bits,
    // how many nodes may still come
    pub(crate) spare: u32,
    pub(crate) next: Next<'a>,
    pub(crate) rest: &'a [Flat],
    around: Vec<Frame<'a>>,
}

/// A fault of a part.
#[inline(always)]
pub(crate) fn part_halt(part: &FieldPart, fault: FieldFault) -> Halt
    ensures cause { result.cause ≡ cause_of_field fault }
    ensures number { result.number ≡ part.now.number }
{
    Halt {
        cause: field_cause(fault),
        number: part.number,
        by: HaltedBy::Receiver,
    }
}

// Whether what has this presence may be left out.
#[inline(always)]
fn is_optional(presence: Presence) -> bool
    ensures { result ≡ is_optional_of presence }
{
    presence == Presence::Optional
}

// Whether a field is first; where none is, a call that takes fields is for nothing.
#[inline(always)]
fn begins_with_field(rest: &[Flat]) -> bool {
    match rest.first() {
        Some(Flat::Field { .. } | Flat::Parts { .. }) => true,
        Some(Flat::Group { .. } | Flat::Sequence { .. }) | None => false,
    }
}

// The piece that is next behind fields, in front of which an instruction was: it is written only where it is another one.
#[inline(always)]
fn go_behind<'a>(next: &mut Next<'a>, mantissa: Option<&'a FieldPart>)
    requires { next.now ≡ Next.Instruction }
    ensures next { next_of next.new ≡ next_behind mantissa.entry }
    ensures weight { weight_of next.new ≤ 2 }
    ensures none { IsSome mantissa.entry ⊎ (weight_of next.new ≡ 1) }
{
    match mantissa {
        None => {}
        Some(mantissa) => *next = Next::Mantissa(mantissa),
    }
}

impl<'a> Walk<'a> {
    ghost use Rattle.fast_walk.specs.declared.walk.Frame.{Frame as FrameOf};
    ghost use Rattle.fast_walk.specs.Walks.{Begins, IsBehind, IsInside, IsInsideServed, IsLast, IsNextServed, IsOpened, IsWhole, bare_inside, bare_next, frame_of, inside_of, next_of, number_of, rank_of, sequel_of, weight_of};

    /// At the beginning of a list of instructions.
    pub(crate) fn new(alloc: Global, members: &'a [Flat], bits: Bits, spare: u32) -> Walk<'a>
        ensures bits { result.bits ≡ bits }
        ensures spare { result.spare ≡ spare }
        ensures next { result.next ≡ Next.Instruction }
        ensures rest { result.rest.now ≡ members.now }
        ensures around { result.around.items ≡ [] }
    {
        Walk {
            bits,
            spare,
            next: Next::Instruction,
            rest: members,
            around: Vec::new(alloc),
        }
    }

    /// Begins a message's body, where its identifier has taken a bit where it needs one.
    #[inline(always)]
    pub(crate) fn open_message(&mut self, needs: bool, members: &'a [Flat])
        ensures bits { self.new.bits ≡ after_bit needs self.old.bits }
        ensures spare { self.new.spare ≡ self.old.spare }
        ensures next { self.new.next ≡ Next.Instruction }
        ensures rest { self.new.rest.now ≡ members.now }
        ensures around { self.new.around.items ≡ [] }
    {
        take_for(&mut self.bits, needs);
        self.next = Next::Instruction;
        self.rest = members;
        // (mostly it is empty, and to clear it would be a call)
        if !self.around.is_empty() {
            self.around.clear();
        }
    }

    // Whether one node more may come.
    #[inline(always)]
    fn count(&self, number: u32) -> Result<(), Halt>
        ensures { MatchResult result (λ u. 0 < self.now.spare) (λ h. (d : Dictionary) (bits : List Bool) (bytes : List ℕ)
            → node_at number (cursor d bits self.now.spare bytes) ≡ stopped h.number bytes h.cause) }
    {
        if self.spare == 0 {
            return Err(Halt::new(Cause::Limit, number));
        }
        Ok(())
    }

    // Goes on behind the first part of an instruction: a node is counted, and its bit taken.
    #[inline(always)]
    fn pass(&mut self, needs: bool, others: &'a [Flat], next: Next<'a>)
        requires spare { 0 < self.now.spare }
        ensures { IsBehind self.old self.new needs next.entry (list_of others.now) }
    {
        take_for(&mut self.bits, needs);
        self.spare -= 1;
        self.rest = others;
        self.next = next;
    }

    // The same where an instruction is next as before: behind a field, and behind what is left out or has no element.
    #[inline(always)]
    fn pass_field(&mut self, needs: bool, others: &'a [Flat])
        requires spare { 0 < self.now.spare }
        requires next { self.now.next ≡ Next.Instruction }
        ensures { IsBehind self.old self.new needs Next.Instruction (list_of others.now) }
    {
        take_for(&mut self.bits, needs);
        self.spare -= 1;
        self.rest = others;
    }

    // Opens a segment inside the one that is open; its node is counted.
    #[inline(always)]
    fn open(
        &mut self,
        members: &'a [Flat],
        others: &'a [Flat],
        bits: Bits,
        inside: Inside<'a>,
    ) -> Result<(), Halt>
        requires spare { 0 < self.now.spare }
        requires next { self.now.next ≡ Next.Instruction }
        ensures opened { MatchResult result (λ u. IsOpened self.old.around.items self.old.bits self.old.spare (number_of inside.entry) (list_of members.now)
            (list_of others.now) (inside_of inside.entry) bits self.new) (λ h. h.cause ≡ Cause.Memory) }
        ensures room { OnErr result (vec_capacity self.old.around ≤ vec_len self.old.around) }
    {
        let outer = mem::replace(&mut self.bits, bits);
        let frame = Frame {
            bits: outer,
            rest: others,
            inside,
        };
        // (mostly there is room, and a push would be a call)
        match self.around.reserve(1) {
            Err(_) => Err(Halt::new(Cause::Memory, 0)),
            Ok(()) => {
                self.around.push_reserved(frame);
                self.spare -= 1;
                self.rest = members;
                Ok(())
            }
        }
    }

    // Takes the next instruction, or the first part of it: the rest is a piece of its own.
    #[inline(always)]
    fn instruction<L: Leveled, R: Receiver, E: Entries>(
        &mut self,
        level: L,
        alloc: Global,
        receiver: &mut R,
        entries: &mut E,
        flat: &'a Flat,
        others: &'a [Flat],
        bytes: &[u8],
        at: usize,
    ) -> Result<usize, Halt>
        requires place { at ≤ length bytes.now }
        requires first { Begins self.now (instruction_of flat.now) (list_of others.now) }
        requires walk { CanWalk (E.serves entries.now) (E.contents entries.now) (R.awaits receiver.now) self.now }
        ensures piece { IsTaken L.at R.Receiver E.Entries self.old receiver.old entries.old self.new receiver.new entries.new bytes.now at result }
        ensures keeps { Carries (R.keeps receiver.old) (R.keeps receiver.new) }
        ensures same_keys { E.serves entries.new ≡ E.serves entries.old }
    {
        let level = level.level();
        match flat {
            Flat::Field {
                name,
                number,
                presence,
                whole,
            } => {
                self.count(*number)?;
                let needs = part_needs_bit(whole);
                let bit = first_for(&self.bits, needs);
                match receiver.field(
                    alloc, name, *presence, entries, whole, bit, level, bytes, at,
                ) {
                    Err(fault) => Err(part_halt(whole, fault)),
                    Ok(next) => {
                        self.pass_field(needs, others);
                        Ok(next)
                    }
                }
            }
            Flat::Parts {
                name,
                number,
                presence,
                exponent,
                mantissa,
            } => {
                self.count(*number)?;
                let needs = part_needs_bit(exponent);
                let bit = first_for(&self.bits, needs);
                match receiver.exponent(name, *presence, entries, exponent, bit, level, bytes, at) {
                    Err(fault) => Err(part_halt(exponent, fault)),
                    Ok((present, next)) => {
                        if present {
                            self.pass(needs, others, Next::Mantissa(mantissa));
                            Ok(next)
                        } else {
                            self.pass(needs, others, Next::Instruction);
                            Ok(next)
                        }
                    }
                }
            }
            Flat::Group {
                name,
                number,
                presence,
                members,
            } => {
                self.count(*number)?;
                let optional = is_optional(*presence);
                let present = first_for(&self.bits, optional);
                if present {
                    let own_map = has_map(members);
                    let (bits, next) = read_own_map(alloc, *number, own_map, level, bytes, at)?;
                    let map = &bytes[at..next];
                    receiver.enter(alloc, name, *number, optional, map, members.len())?;
                    take_for(&mut self.bits, optional);
                    self.open(members, others, bits, Inside::Group(*number))?;
                    Ok(next)
                } else {
                    receiver.left_out(name, *number)?;
                    self.pass_field(optional, others);
                    Ok(at)
                }
            }
            Flat::Sequence {
                name,
                number,
                presence,
                length,
                members,
            } => {
                self.count(*number)?;
                let needs = part_needs_bit(length);
                let bit = first_for(&self.bits, needs);
                match receiver.begin_sequence(
                    alloc, name, *presence, entries, length, bit, level, bytes, at,
                ) {
                    Err(fault) => Err(part_halt(length, fault)),
                    Ok((count, next)) => match count {
                        None => {
                            self.pass_field(needs, others);
                            Ok(next)
                        }
                        Some(left) => {
                            if left == 0 {
                                receiver.end_sequence(alloc)?;
                                self.pass_field(needs, others);
                                return Ok(next);
                            }
                            let own_map = has_map(members);
                            let elements = Sequel {
                                number: *number,
                                own_map,
                                members,
                                left,
                            };
                            self.pass(needs, others, Next::Element(elements));
                            Ok(next)
                        }
                    },
                }
            }
        }
    }

    // The number of the segment that is open; 0 is the message.
    fn number(&self) -> u32
        ensures inside { (ws : List Waiting) (w : Waiting)
            → map frame_of self.now.around.items ≡ ws ++ w ∷ [] → result ≡ w.number }
        ensures message { self.now.around.items ≡ [] → result ≡ 0 }
    {
        match self.around.last() {
            None => 0,
            Some(frame) => match frame.inside {
                Inside::Group(number) => number,
                Inside::Element(sequel) => sequel.number,
            },
        }
    }

    /// Judges the end of the segment that is open: at the strict level no bit of its map may be left that is 1.
    #[inline(always)]
    pub(crate) fn judge_end(&self, level: Level) -> Result<(), Halt>
        ensures clear { OnOk result (IsLeftClear level self.now.bits) }
        ensures refused { IfErr result (λ h. (level ≡ Level.Strict) × (h.cause ≡ Cause.R8)
            × (some_set self.now.bits ≡ true)) }
        ensures inside { IfErr result (λ h. (ws : List Waiting) (w : Waiting)
            → map frame_of self.now.around.items ≡ ws ++ w ∷ [] → h.number ≡ w.number) }
        ensures message { IfErr result (λ h. self.now.around.items ≡ [] → h.number ≡ 0) }
    {
        match level {
            Level::Usual => Ok(()),
            Level::Strict => {
                if self.bits.left_set() {
                    return Err(Halt::new(Cause::R8, self.number()));
                }
                Ok(())
            }
        }
    }

    // The sequence whose element is open, where another one is to come.
    #[inline(always)]
    fn next_sequel(&self) -> Option<Sequel<'a>>
        ensures { IfSome result (λ s. (0 < s.left) × IsLast self.now s) }
    {
        match self.around.last() {
            None => None,
            Some(frame) => match frame.inside {
                Inside::Element(sequel) if sequel.left > 0 => Some(sequel),
                Inside::Element(_) | Inside::Group(_) => None,
            },
        }
    }

    // Goes on in the next element of a sequence, in place of the one that is open.
    #[inline(always)]
    fn go_on(&mut self, sequel: Sequel<'a>, fresh: Bits)
        requires spare { 0 < self.now.spare }
        requires next { self.now.next ≡ Next.Instruction }
        requires left { 0 < sequel.left }
        requires last { IsLast self.now sequel }
        ensures { (fore : List FrameOf) (f : FrameOf) → self.old.around.items ≡ fore ++ f ∷ []
            → IsOpened fore f.bits self.old.spare sequel.entry.number (list_of sequel.entry.members.now)
            (list_of f.rest.now) (in_sequence (fewer (sequel_of sequel.entry))) fresh self.new }
    {
        self.bits = fresh;
        self.spare -= 1;
        self.rest = sequel.members;
        match self.around.last_mut() {
            None => {}
            Some(frame) => match &mut frame.inside {
                Inside::Element(elements) => elements.left -= 1,
                Inside::Group(_) => unreachable!(),
            },
        }
    }

    // Enters the next element of a sequence in place of the one that is open, whose instructions are all taken.
    #[inline(always)]
    fn next_element<L: Leveled, R: Receiver, E: Entries>(
        &mut self,
        level: L,
        alloc: Global,
        receiver: &mut R,
        _entries: &E,
        sequel: Sequel<'a>,
        bytes: &[u8],
        at: usize,
    ) -> Result<usize, Halt>
        requires place { at ≤ length bytes.now }
        requires next { self.now.next ≡ Next.Instruction }
        requires rest { self.now.rest.now ≡ [] }
        requires left { 0 < sequel.left }
        requires last { IsLast self.now sequel }
        requires clear { IsLeftClear L.at self.now.bits }
        requires walk { CanWalk (E.serves _entries.now) (E.contents _entries.now) (R.awaits receiver.now) self.now }
        ensures piece { IsTaken L.at R.Receiver E.Entries self.old receiver.old _entries.now self.new receiver.new _entries.now bytes.now at result }
        ensures keeps { Carries (R.keeps receiver.old) (R.keeps receiver.new) }
    {
        let level = level.level();
        let number = sequel.number;
        self.count(number)?;
        let (bits, next) = read_own_map(alloc, number, sequel.own_map, level, bytes, at)?;
        let map = &bytes[at..next];
        receiver.next_element(alloc, number, map, sequel.members.len())?;
        self.go_on(sequel, bits);
        Ok(next)
    }

    // The same of one whose map is not of one group. (A call of its own, so that the other way is short.)
    #[inline(never)]
    fn any_element<L: Leveled, R: Receiver, E: Entries>(
        &mut self,
        level: L,
        alloc: Global,
        receiver: &mut R,
        _entries: &E,
        sequel: Sequel<'a>,
        bytes: &[u8],
        at: usize,
    ) -> Result<usize, Halt>
        requires place { at ≤ length bytes.now }
        requires next { self.now.next ≡ Next.Instruction }
        requires rest { self.now.rest.now ≡ [] }
        requires left { 0 < sequel.left }
        requires last { IsLast self.now sequel }
        requires clear { IsLeftClear L.at self.now.bits }
        requires walk { CanWalk (E.serves _entries.now) (E.contents _entries.now) (R.awaits receiver.now) self.now }
        ensures piece { IsTaken L.at R.Receiver E.Entries self.old receiver.old _entries.now self.new receiver.new _entries.now bytes.now at result }
        ensures keeps { Carries (R.keeps receiver.old) (R.keeps receiver.new) }
    {
        self.next_element(level, alloc, receiver, _entries, sequel, bytes, at)
    }

    // Takes up what the segment that ends was to the body around it: behind a last element the sequence ends.
    #[inline(always)]
    fn take_up<R: Receiver>(
        &mut self,
        alloc: Global,
        receiver: &mut R,
        inside: Inside<'a>,
    ) -> Result<(), AllocError>
        requires next { self.now.next ≡ Next.Instruction }
        requires awaits { AwaitsInside (R.awaits receiver.now) }
        ensures has { OnOk result ((o : Received) (d : Dictionary) (ws : List Waiting) (w : Waiting)
            → o.next ≡ at_instruction → o.body.rest ≡ no_instructions → o.around ≡ ws ++ w ∷ []
            → bare_inside w.inside ≡ inside_of inside.entry → R.has receiver.old o d
            → R.has receiver.new (closed_in o ws w.body w.inside) d
            × (bare_next (closed_in o ws w.body w.inside).next ≡ next_of self.new.next)) }
        ensures bits { self.new.bits ≡ self.old.bits }
        ensures spare { self.new.spare ≡ self.old.spare }
        ensures rest { self.new.rest ≡ self.old.rest }
        ensures around { self.new.around ≡ self.old.around }
        ensures served { OnOk result ((serves : key_type.Key → Bool)
            → IsInsideServed serves (inside_of inside.entry)
            → IsNextServed serves (next_of self.new.next)) }
        ensures awaits { OnOk result (AwaitsOutside (R.awaits receiver.old) (R.awaits receiver.new)) }
        ensures keeps { Carries (R.keeps receiver.old) (R.keeps receiver.new) }
        ensures weight { weight_of self.new.next ≤ 2 }
    {
        match inside {
            Inside::Group(_) => {
                receiver.leave(alloc)?;
                Ok(())
            }
            Inside::Element(sequel) => {
                receiver.leave_element(alloc)?;
                if sequel.left == 0 {
                    receiver.end_sequence(alloc)?;
                } else {
                    self.next = Next::Element(sequel);
                }
                Ok(())
            }
        }
    }

    // Whether the message's own body has ended.
    fn is_whole(&self) -> bool
        ensures yes { result ≡ true → IsWhole self.now }
        ensures no { result ≡ false → IsInside self.now }
    {
        match self.next {
            Next::Instruction => self.around.is_empty() && self.rest.is_empty(),
            _ => false,
        }
    }

    // Takes the next piece, or ends a segment: behind an element the next one of its sequence is entered with that, and
    // behind the last the sequence ends.
    fn step<L: Leveled, R: Receiver, E: Entries>(
        &mut self,
        level: L,
        alloc: Global,
        receiver: &mut R,
        entries: &mut E,
        bytes: &[u8],
        at: usize,
    ) -> Result<usize, Halt>
        requires inside { IsInside self.now }
        requires place { at ≤ length bytes.now }
        requires walk { CanWalk (E.serves entries.now) (E.contents entries.now) (R.awaits receiver.now) self.now }
        ensures piece { IsTaken L.at R.Receiver E.Entries self.old receiver.old entries.old self.new receiver.new entries.new bytes.now at result }
        ensures keeps { Carries (R.keeps receiver.old) (R.keeps receiver.new) }
        ensures same_keys { E.serves entries.new ≡ E.serves entries.old }
    {
        match self.next {
            Next::Mantissa(mantissa) => {
                let needs = part_needs_bit(mantissa);
                let bit = first_for(&self.bits, needs);
                match receiver.mantissa(entries, mantissa, bit, level.level(), bytes, at) {
                    Err(fault) => Err(part_halt(mantissa, fault)),
                    Ok(next) => {
                        take_for(&mut self.bits, needs);
                        self.next = Next::Instruction;
                        Ok(next)
                    }
                }
            }
            Next::Element(sequel) => {
                if sequel.left == 0 {
                    receiver.end_sequence(alloc)?;
                    self.next = Next::Instruction;
                    return Ok(at);
                }
                let level = level.level();
                let number = sequel.number;
                let own_map = sequel.own_map;
                self.count(number)?;
                let (bits, next) = read_own_map(alloc, number, own_map, level, bytes, at)?;
                let map = &bytes[at..next];
                receiver.enter_element(alloc, number, map, sequel.members.len())?;
                let others = Sequel {
                    number,
                    own_map,
                    members: sequel.members,
                    left: sequel.left - 1,
                };
                self.next = Next::Instruction;
                self.open(sequel.members, self.rest, bits, Inside::Element(others))?;
                Ok(next)
            }
            Next::Instruction => match self.rest.split_first() {
                Some((flat, others)) => self.instruction(
                    level, alloc, receiver, entries, flat, others, bytes, at,
                ),
                None => {
                    self.judge_end(level.level())?;
                    match self.next_sequel() {
                        Some(sequel) => {
                            if is_one_group(bytes, at) && sequel.own_map {
                                self.next_element(
                                    level, alloc, receiver, entries, sequel, bytes, at,
                                )
                            } else {
                                self.any_element(level, alloc, receiver, entries, sequel, bytes, at)
                            }
                        }
                        None => match self.around.pop() {
                            None => unreachable!(),
                            Some(Frame { bits, rest, inside }) => {
                                self.bits = bits;
                                self.rest = rest;
                                self.take_up(alloc, receiver, inside)?;
                                Ok(at)
                            }
                        },
                    }
                }
            },
        }
    }

    // Takes the fields that are next, as many as the receiver likes; none of few bytes, as come where bytes come one at a time: a
    // field would be tried where they end, which `step` does not do.
    #[inline(always)]
    fn fields<L: Leveled, R: Receiver, E: Entries>(
        &mut self,
        level: L,
        alloc: Global,
        receiver: &mut R,
        entries: &mut E,
        bytes: &[u8],
        at: usize,
    ) -> Result<usize, AllocError>
        requires place { at ≤ length bytes.now }
        requires walk { CanWalk (E.serves entries.now) (E.contents entries.now) (R.awaits receiver.now) self.now }
        ensures fields { IfOk result (λ n. Reaches L.at R.has R.awaits (E.serves entries.old) self.old receiver.old (E.contents entries.old)
            self.new receiver.new (E.contents entries.new) bytes.now at n × (rank_of self.new ≤ rank_of self.old)) }
        ensures keeps { Carries (R.keeps receiver.old) (R.keeps receiver.new) }
        ensures same_keys { E.serves entries.new ≡ E.serves entries.old }
    {
        match self.next {
            Next::Instruction if bytes.len() > FEW && begins_with_field(self.rest) => {
                let fields = receiver.fields(
                    alloc,
                    entries,
                    self.rest,
                    &mut self.bits,
                    self.spare,
                    level.level(),
                    bytes,
                    at,
                )?;
                self.rest = fields.rest;
                self.spare = fields.spare;
                go_behind(&mut self.next, fields.mantissa);
                Ok(fields.place)
            }
            Next::Instruction | Next::Mantissa(_) | Next::Element(_) => Ok(at),
        }
    }

    // Takes what is left of the message at a level that is known where the program is made.
    fn run_leveled<L: Leveled, R: Receiver, E: Entries>(
        &mut self,
        level: L,
        alloc: Global,
        receiver: &mut R,
        entries: &mut E,
        bytes: &[u8],
        at: usize,
    ) -> Result<usize, (usize, Halt)>
        requires place { at ≤ length bytes.now }
        requires walk { CanWalk (E.serves entries.now) (E.contents entries.now) (R.awaits receiver.now) self.now }
        ensures runs { Runs L.at R.Receiver E.Entries self.old receiver.old entries.old self.new receiver.new entries.new bytes.now at result }
        ensures keeps { Carries (R.keeps receiver.old) (R.keeps receiver.new) }
        ensures same_keys { E.serves entries.new ≡ E.serves entries.old }
    {
        let mut place = at;
        'pieces: loop {
            // the fields that are next, and behind them a piece
            match self.fields(level, alloc, receiver, entries, bytes, place) {
                Err(error) => return Err((place, Halt::from(error))),
                Ok(next) => place = next,
            }
            if self.is_whole() {
                return Ok(place);
            }
            // (where no byte is left, a field that wants one is not tried)
            if place == bytes.len()
                && let Some(number) = self.wants_byte()
            {
                return Err((place, Halt::new(Cause::Truncated, number)));
            }
            match self.step(level, alloc, receiver, entries, bytes, place) {
                Err(halt) => return Err((place, halt)),
                Ok(next) => place = next,
            }
        }
    }

    /// Takes what is left of the message, up to its end. The level is asked for once, here.
    #[inline(always)]
    pub(crate) fn run<R: Receiver, E: Entries>(
        &mut self,
        level: Level,
        alloc: Global,
        receiver: &mut R,
        entries: &mut E,
        bytes: &[u8],
        at: usize,
    ) -> Result<usize, (usize, Halt)>
        requires place { at ≤ length bytes.now }
        requires walk { CanWalk (E.serves entries.now) (E.contents entries.now) (R.awaits receiver.now) self.now }
        ensures runs { Runs level R.Receiver E.Entries self.old receiver.old entries.old self.new receiver.new entries.new bytes.now at result }
        ensures keeps { Carries (R.keeps receiver.old) (R.keeps receiver.new) }
        ensures same_keys { E.serves entries.new ≡ E.serves entries.old }
    {
        // (nothing is left of a message without fields)
        if self.is_whole() {
            return Ok(at);
        }
        match level {
            Level::Usual => self.run_leveled(Usually, alloc, receiver, entries, bytes, at),
            Level::Strict => self.run_leveled(Strictly, alloc, receiver, entries, bytes, at),
        }
    }
}
