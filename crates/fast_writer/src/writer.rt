//! Writes the canonical bytes of messages as they are read.

use crate::count::{relay_count, relay_identifier};
use crate::fields::take_fields;
use crate::relay::relay_part;
use crate::run::Run;
use fast_dictionary::Entries;
use fast_field::{FieldFault, reads_as_usual};
use fast_take::{Aside, read_short_length};
use fast_template::{FieldPart, Flat, Name, Presence};
use fast_walk::{Fields, MANY, Output, Receiver, Strictly, Usually};
use fast_wire::{Bits, Level};
use std::alloc::{AllocError, Global};

/// Writes the canonical bytes of the messages that it receives, each field as it is read and on the same entries.
///
/// The bytes of the messages that are finished wait in it until they are handed on; those of the message that is open
/// are no part of them.
#[derive(Drop)]
pub struct Writer {
    // of the messages that are finished and not handed on, and of the one that is open behind them
    run: Run,
    // what is told of a field that was taken
    aside: Aside,
}

impl Writer {
    ghost use Rattle.std.specs.Prelude.{◌≡◌, [], ◌∷◌, List};
    ghost use Rattle.std.specs.FinMap as finite;
    ghost use Rattle.fast_template.specs.Resolved.{Resolved};
    ghost use Rattle.fast_walk.specs.Received.{handed_on};

    /// With no message, and nothing handed on. Takes no memory.
    #[inline(always)]
    pub fn new(alloc: Global) -> Writer
        ensures stands { (set : List Resolved)
            → ⟦<Writer as Receiver>⟧.stands result set (handed_on [] ∷ []) finite.empty }
        ensures empty { result.run.draft.around.ended ≡ [] }
    {
        Writer {
            run: Run::new(alloc),
            aside: Aside::new(alloc),
        }
    }
}

impl Receiver for Writer {
    ghost use Rattle.fast_writer.specs.Drafts.{HasFinished, HasWritten, run_awaits, run_begun};

    ghost has = { λ w o d. HasWritten w o d };

    ghost stands = { λ w set ms d. HasFinished w set ms d };

    ghost keeps = { λ w set ms d. HasFinished w set ms d };

    ghost awaits = { λ w around left. run_awaits w.run around left };

    ghost begun = { λ w bits. run_begun w.run bits };

    #[inline(always)]
    fn open(&mut self, map: &[u8]) -> Result<(), AllocError> {
        self.run.passed = 0;
        self.run.draft.begin(map)?;
        Ok(())
    }

    #[inline(always)]
    fn begin<E: Entries>(
        &mut self,
        _alloc: Global,
        entries: &mut E,
        identifier: &FieldPart,
        bit: bool,
        level: Level,
        bytes: &[u8],
        at: usize,
    ) -> Result<(u32, usize), FieldFault> {
        self.run.draft.is_sound();
        let (id, next) = relay_identifier(
            entries,
            identifier,
            bit,
            level,
            bytes,
            at,
            &mut self.run,
            &mut self.aside,
        )?;
        match id {
            Some(id) => Ok((id, next)),
            None => unreachable!(),
        }
    }

    #[inline(always)]
    fn finish(&mut self, _alloc: Global) -> Result<(), AllocError> {
        self.run.draft.finish();
        Ok(())
    }

    #[inline(always)]
    fn back(&mut self, _alloc: Global) {}

    #[inline(always)]
    fn is_full(&self) -> bool {
        self.run.draft.ended().len() >= MANY
    }

    #[inline(always)]
    fn reset_entries<E: Entries>(&mut self, entries: &mut E) {
        entries.reset_into(&mut self.aside.spare);
    }

    #[inline(always)]
    #[tactic(auto, using(fast_walk::proofs::Telling::told_part))]
    fn field<E: Entries>(
        &mut self,
        _alloc: Global,
        _name: &Name,
        _presence: Presence,
        entries: &mut E,
        part: &FieldPart,
        bit: bool,
        level: Level,
        bytes: &[u8],
        at: usize,
    ) -> Result<usize, FieldFault> {
        let (run, aside) = (&mut self.run, &mut self.aside);
        let (_there, next) = relay_part(entries, part, bit, level, bytes, at, run, aside)?;
        Ok(next)
    }

    #[inline(always)]
    fn fields<'a, E: Entries>(
        &mut self,
        _alloc: Global,
        entries: &mut E,
        rest: &'a [Flat],
        bits: &mut Bits,
        spare: u32,
        level: Level,
        bytes: &[u8],
        at: usize,
    ) -> Result<Fields<'a>, AllocError> {
        let (run, aside) = (&mut self.run, &mut self.aside);
        match level {
            Level::Usual => take_fields(entries, rest, bits, spare, Usually, bytes, at, run, aside),
            Level::Strict => take_fields(
                entries, rest, bits, spare, Strictly, bytes, at, run, aside,
            ),
        }
    }

    #[inline(always)]
    fn exponent<E: Entries>(
        &mut self,
        _name: &Name,
        _presence: Presence,
        entries: &mut E,
        part: &FieldPart,
        bit: bool,
        level: Level,
        bytes: &[u8],
        at: usize,
    ) -> Result<(bool, usize), FieldFault> {
        let (run, aside) = (&mut self.run, &mut self.aside);
        relay_part(entries, part, bit, level, bytes, at, run, aside)
    }

    #[inline(always)]
    fn mantissa<E: Entries>(
        &mut self,
        entries: &mut E,
        part: &FieldPart,
        bit: bool,
        level: Level,
        bytes: &[u8],
        at: usize,
    ) -> Result<usize, FieldFault> {
        let (run, aside) = (&mut self.run, &mut self.aside);
        let (_there, next) = relay_part(entries, part, bit, level, bytes, at, run, aside)?;
        Ok(next)
    }

    #[inline(always)]
    fn begin_sequence<E: Entries>(
        &mut self,
        _alloc: Global,
        _name: &Name,
        _presence: Presence,
        entries: &mut E,
        part: &FieldPart,
        bit: bool,
        level: Level,
        bytes: &[u8],
        at: usize,
    ) -> Result<(Option<u32>, usize), FieldFault> {
        let run = &mut self.run;
        // most stand in one byte and are kept nowhere, so that no entry is asked for
        if reads_as_usual(level, part, bytes, at)
            && let Some(count) = read_short_length(part, bytes, at)
        {
            match run.draft.push(bytes[at]) {
                Err(_) => return Err(FieldFault::Memory),
                Ok(()) => return Ok((count, at + 1)),
            }
        }
        relay_count(entries, part, bit, level, bytes, at, run, &mut self.aside)
    }

    #[inline(always)]
    fn left_out(&mut self, _name: &Name, _number: u32) -> Result<(), AllocError> {
        self.run.draft.pass(1);
        Ok(())
    }

    #[inline(always)]
    fn enter(
        &mut self,
        _alloc: Global,
        _name: &Name,
        _number: u32,
        optional: bool,
        map: &[u8],
        _size: usize,
    ) -> Result<(), AllocError> {
        self.run.mark_at_once(optional, true, true);
        self.run.draft.enter(map)?;
        Ok(())
    }

    #[inline(always)]
    fn leave(&mut self, _alloc: Global) -> Result<(), AllocError> {
        self.run.draft.leave();
        Ok(())
    }

    #[inline(always)]
    fn enter_element(
        &mut self,
        _alloc: Global,
        _number: u32,
        map: &[u8],
        _size: usize,
    ) -> Result<(), AllocError> {
        self.run.draft.enter(map)?;
        Ok(())
    }

    #[inline(always)]
    fn leave_element(&mut self, _alloc: Global) -> Result<(), AllocError> {
        self.run.draft.leave();
        Ok(())
    }

    #[inline(always)]
    fn next_element(
        &mut self,
        _alloc: Global,
        _number: u32,
        map: &[u8],
        _size: usize,
    ) -> Result<(), AllocError> {
        self.run.draft.go_on(map)?;
        Ok(())
    }

    #[inline(always)]
    #[tactic(auto, using(crate::proofs::Writers::has_elements))]
    fn end_sequence(&mut self, _alloc: Global) -> Result<(), AllocError> {
        Ok(())
    }
}

impl Output for Writer {
    ghost use Rattle.std.proofs.Common.{inl, inr};
    ghost use Rattle.fast_writer.specs.Canonical.{IsCanonical};

    ghost waiting = { λ w. w.run.draft.around.ended };

    ghost ready = { λ w. w.run.draft.around.ended };

    ghost left = { λ w. 0 };

    ghost makes = { λ set ms out. IsCanonical set ms out };

    #[inline(always)]
    fn finished(&self) -> &[u8] {
        self.run.draft.ended()
    }

    #[inline(always)]
    fn hand_on(&mut self, _alloc: Global) -> Result<bool, AllocError> {
        self.run.draft.forget_ended();
        Ok(false)
    }

    ghost made = { λ w set handed ms d. elim [ inl h ↦ (d, h) | inr h ↦ (d, h) ] };
}
