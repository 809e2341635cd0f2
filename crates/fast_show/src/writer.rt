//! Writes lines of messages as their fields are read.

ghost use Rattle.std.specs.Prelude.{◌≡◌, ◌++◌, None, true, false, OnOk, OnErr};
ghost use Rattle.fast_template.specs.TemplateSets.{templates_in};
ghost use Rattle.fast_lines.specs.Signs.{is_led};
ghost use Rattle.fast_show.specs.Told.{head_in, line_now, written_of};
ghost use Rattle.fast_show.specs.Waiting.{waiting_of};

use crate::line::Line;
use crate::told::tell;
use fast_dictionary::Entries;
use fast_field::FieldFault;
use fast_gaps::Rest;
use fast_lines::Signs;
use fast_take::{Aside, Room};
use fast_template::{FieldPart, Name, Presence, TemplateSet};
use fast_walk::{
    MANY, Output, Receiver, take_exponent, take_identifier, take_length, take_mantissa,
};
use fast_wire::Level;
use std::alloc::{AllocError, Global};
use std::mem;

/// Writes a line for each message of a set that it receives, in the form of its signs, each field as it is read and with
/// no message made.
///
/// The lines of the messages that are finished wait in it until they are handed on; what is written of the message
/// that is open is no part of them. A line that is long has gaps, which are filled front by front as it is handed on.
#[derive(Drop)]
pub struct LineWriter<'a, S: Signs> {
    signs: S,
    set: &'a TemplateSet,
    // of the message that is open
    line: Line,
    // of the field that was taken last
    aside: Aside,
    room: Room,
    // of the decimal whose mantissa is next
    exponent: i32,
    // of the messages that are finished and not handed on
    out: Vec<u8>,
    // what is left of the last of them, behind the bytes that are ready
    rest: Option<Rest>,
}

impl<'a, S: Signs> LineWriter<'a, S> {
    ghost use Rattle.std.specs.Prelude.{[], ◌∷◌, ◌++◌, List, ℕ};
    ghost use Rattle.std.specs.FinMap as finite;
    ghost use Rattle.fast_template.specs.Resolved.{Resolved};
    ghost use Rattle.fast_dictionary.specs.Dictionary.{Dictionary};
    ghost use Rattle.fast_stream.specs.Nodes.{Content};
    ghost use Rattle.fast_walk.specs.Received.{Received, behind, handed_on};

    /// For messages of a set: with none, and nothing handed on. Takes no memory.
    #[inline(always)]
    pub fn new(alloc: Global, signs: S, set: &'a TemplateSet) -> LineWriter<'a, S>
        ensures stands { ⟦<LineWriter<'a, S> as Receiver>⟧.stands result (templates_in set.now)
            (handed_on [] ∷ []) finite.empty }
        ensures empty { waiting_of S.form result.out.items result.rest ≡ [] }
    {
        LineWriter {
            signs,
            set,
            line: Line::new(alloc),
            aside: Aside::new(alloc),
            room: Room::new(alloc),
            exponent: 0,
            out: Vec::new(alloc),
            rest: None,
        }
    }

    // Begins the line of a message of the template of an identifier; of one that the set has not, there is no name.
    #[tactic(auto, using(crate::proofs::SameLines::name_is))]
    #[inline(always)]
    fn open_line(&mut self, id: u32) -> Result<(), AllocError>
        ensures line { OnOk result (line_now S.form self.new.line
            ≡ record { text = head_in S.form (templates_in self.old.set.now) id; led = is_led S.form }) }
        ensures out { self.new.out ≡ self.old.out }
        ensures rest { self.new.rest ≡ self.old.rest }
        ensures set { self.new.set ≡ self.old.set }
    {
        match self.set.name(id) {
            Some(name) => self.line.begin(self.signs, id, name),
            None => self.line.begin(self.signs, id, ""),
        }
    }

    // Makes ready what is left of the line before.
    #[inline(always)]
    fn tell_rest(&mut self, alloc: Global) -> Result<(), AllocError>
        ensures same { waiting_of S.form self.new.out.items self.new.rest
            ≡ waiting_of S.form self.old.out.items self.old.rest }
        ensures none { OnOk result (self.new.rest ≡ None) }
        ensures line { self.new.line ≡ self.old.line }
        ensures exponent { self.new.exponent ≡ self.old.exponent }
        ensures set { self.new.set ≡ self.old.set }
    {
        match &mut self.rest {
            None => Ok(()),
            Some(rest) => {
                rest.tell_all(self.signs, alloc, &mut self.out)?;
                self.rest = None;
                Ok(())
            }
        }
    }

    // Makes a line ready that has ended, with gaps up to the first and what fills that; the rest is left.
    #[inline(always)]
    fn append_line(&mut self, alloc: Global) -> Result<(), AllocError>
        requires { self.now.rest ≡ None }
        ensures appended { OnOk result (waiting_of S.form self.new.out.items self.new.rest
            ≡ self.old.out.items ++ written_of S.form self.old.line) }
        ensures refused { OnErr result (waiting_of S.form self.new.out.items self.new.rest ≡ self.old.out.items) }
        ensures set { self.new.set ≡ self.old.set }
    {
        if !self.line.has_gaps() {
            return self.out.extend_from_slice(self.line.as_slice());
        }
        let line = mem::replace(&mut self.line, Line::new(alloc));
        let mut rest = line.into_rest();
        rest.tell_gap(self.signs, alloc, &mut self.out)?;
        self.rest = Some(rest);
        Ok(())
    }
}

impl<S: Signs> Receiver for LineWriter<'_, S> {
    ghost use Rattle.fast_show.specs.Told.{HasLines, HasTold};

    ghost has = { λ w o d. HasTold S.form (waiting_of S.form w.out.items w.rest) w.set.now w.exponent (line_now S.form w.line) o };

    ghost stands = { λ w set ms d. HasLines S.form (waiting_of S.form w.out.items w.rest) w.set.now set ms };

    ghost keeps = { λ w set ms d. HasLines S.form (waiting_of S.form w.out.items w.rest) w.set.now set ms };

    ghost awaits = { λ w around left. true };

    ghost begun = { λ w bits. true };

    #[inline(always)]
    fn open(&mut self, _map: &[u8]) -> Result<(), AllocError> {
        Ok(())
    }

    #[inline(always)]
    fn begin<E: Entries>(
        &mut self,
        _alloc: Global,
        entries: &mut E,
        identifier: &FieldPart,
        bit: bool,
        level: Level,
        bytes: &[u8],
        at: usize,
    ) -> Result<(u32, usize), FieldFault> {
        let aside = &mut self.aside;
        let (id, next) = take_identifier(entries, identifier, bit, level, bytes, at, aside)?;
        self.open_line(id)?;
        Ok((id, next))
    }

    #[inline(always)]
    fn finish(&mut self, alloc: Global) -> Result<(), AllocError> {
        self.tell_rest(alloc)?;
        self.line.end(self.signs)?;
        self.append_line(alloc)?;
        Ok(())
    }

    #[inline(always)]
    fn back(&mut self, _alloc: Global) {}

    #[inline(always)]
    fn is_full(&self) -> bool {
        self.out.len() >= MANY
    }

    #[inline(always)]
    fn reset_entries<E: Entries>(&mut self, entries: &mut E) {
        entries.reset_into(&mut self.aside.spare);
    }

    #[inline(always)]
    fn field<E: Entries>(
        &mut self,
        alloc: Global,
        name: &Name,
        presence: Presence,
        entries: &mut E,
        part: &FieldPart,
        bit: bool,
        level: Level,
        bytes: &[u8],
        at: usize,
    ) -> Result<usize, FieldFault> {
        let line = &mut self.line;
        let aside = &mut self.aside;
        let room = &mut self.room;
        tell(
            self.signs, alloc, name, presence, entries, part, bit, level, bytes, at, line, aside,
            room,
        )
    }

    #[inline(always)]
    fn exponent<E: Entries>(
        &mut self,
        name: &Name,
        presence: Presence,
        entries: &mut E,
        part: &FieldPart,
        bit: bool,
        level: Level,
        bytes: &[u8],
        at: usize,
    ) -> Result<(bool, usize), FieldFault> {
        let aside = &mut self.aside;
        match take_exponent(entries, part, bit, level, bytes, at, aside)? {
            (None, next) => {
                self.line.tell_absent(self.signs, name)?;
                Ok((false, next))
            }
            (Some(exponent), next) => {
                self.line.label(self.signs, name)?;
                self.exponent = exponent;
                Ok((true, next))
            }
        }
    }

    #[inline(always)]
    fn mantissa<E: Entries>(
        &mut self,
        entries: &mut E,
        part: &FieldPart,
        bit: bool,
        level: Level,
        bytes: &[u8],
        at: usize,
    ) -> Result<usize, FieldFault> {
        let aside = &mut self.aside;
        let (mantissa, next) = take_mantissa(entries, part, bit, level, bytes, at, aside)?;
        self.line.push_decimal(mantissa, self.exponent)?;
        Ok(next)
    }

    #[inline(always)]
    fn begin_sequence<E: Entries>(
        &mut self,
        _alloc: Global,
        name: &Name,
        presence: Presence,
        entries: &mut E,
        part: &FieldPart,
        bit: bool,
        level: Level,
        bytes: &[u8],
        at: usize,
    ) -> Result<(Option<u32>, usize), FieldFault> {
        let aside = &mut self.aside;
        match take_length(entries, part, bit, level, bytes, at, aside)? {
            (None, next) => {
                self.line.tell_absent(self.signs, name)?;
                Ok((None, next))
            }
            (Some(length), next) => {
                self.line.open_under(self.signs, name, b'[')?;
                Ok((Some(length), next))
            }
        }
    }

    #[inline(always)]
    fn left_out(&mut self, name: &Name, _number: u32) -> Result<(), AllocError> {
        self.line.tell_absent(self.signs, name)?;
        Ok(())
    }

    #[inline(always)]
    fn enter(
        &mut self,
        _alloc: Global,
        name: &Name,
        _number: u32,
        _optional: bool,
        _map: &[u8],
        _size: usize,
    ) -> Result<(), AllocError> {
        self.line.open_under(self.signs, name, b'{')?;
        Ok(())
    }

    #[inline(always)]
    fn leave(&mut self, _alloc: Global) -> Result<(), AllocError> {
        self.line.close(b'}')?;
        Ok(())
    }

    #[inline(always)]
    fn enter_element(
        &mut self,
        _alloc: Global,
        _number: u32,
        _map: &[u8],
        _size: usize,
    ) -> Result<(), AllocError> {
        self.line.open_brace(self.signs)?;
        Ok(())
    }

    #[inline(always)]
    fn leave_element(&mut self, _alloc: Global) -> Result<(), AllocError> {
        self.line.close(b'}')?;
        Ok(())
    }

    #[inline(always)]
    fn end_sequence(&mut self, _alloc: Global) -> Result<(), AllocError> {
        self.line.close(b']')?;
        Ok(())
    }
}

impl<S: Signs> Output for LineWriter<'_, S> {
    ghost use Rattle.std.specs.Prelude.{Some};
    ghost use Rattle.std.proofs.Common.{inl, inr};
    ghost use Rattle.fast_show.specs.Told.{lines_of_set};
    ghost use Rattle.fast_show.specs.Waiting.{left_in};

    ghost waiting = { λ w. waiting_of S.form w.out.items w.rest };

    ghost ready = { λ w. w.out.items };

    ghost left = { λ w. left_in w.rest };

    ghost makes = { λ set ms out. lines_of_set S.form set ms ≡ Some out };

    #[tactic(auto, using(crate::proofs::Waitings::ready_in_front))]
    #[inline(always)]
    fn finished(&self) -> &[u8] {
        &self.out
    }

    #[inline(always)]
    fn hand_on(&mut self, alloc: Global) -> Result<bool, AllocError> {
        self.out.clear();
        match &mut self.rest {
            None => Ok(false),
            Some(rest) => {
                if !rest.tell_on(self.signs, alloc, &mut self.out)? {
                    self.rest = None;
                }
                Ok(true)
            }
        }
    }

    ghost made = { λ w set handed ms d. elim [ inl h ↦ h.0 | inr h ↦ h.0 ] };
}
