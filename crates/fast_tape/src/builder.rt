//! Builds tapes of messages.

ghost use Rattle.std.specs.Prelude.{◌≡◌, ◌≤◌, ◌↔◌, ◌++◌, [], List, IsTrue, drop, length, true, false};
ghost use Rattle.fast_tape.specs.Waiting.{Forgets, counts_of, is_full};
ghost use Rattle.std.specs.FinMap as finite;

use crate::node::{ELEMENT, GROUP, MESSAGE, SEQUENCE, TapeNode};
use crate::open::OpenTape;
use crate::tape::Tape;
use crate::told::tell;
use fast_dictionary::Entries;
use fast_field::FieldFault;
use fast_take::{Aside, Room};
use fast_template::{FieldPart, Name, Presence};
use fast_walk::{Receiver, take_exponent, take_identifier, take_length, take_mantissa};
use fast_wire::Level;
use std::alloc::{AllocError, Global};

/// How many messages, nodes and bytes.
#[derive(Clone, Copy, Debug)]
pub struct Taken {
    pub messages: u64,
    pub nodes: usize,
    pub bytes: usize,
}

/// Builds tapes of the fields that it receives: of the messages that have ended, which wait until they are taken, and of the one
/// that is open.
#[derive(Drop)]
pub struct TapeBuilder {
    whole: Tape,
    // how many messages wait
    messages: u64,
    open: OpenTape,
    // of the decimal whose mantissa is next, and the number of its instruction
    exponent: i32,
    instruction: u32,
    // of the field that was taken last
    aside: Aside,
    room: Room,
}

impl TapeBuilder {
    ghost use Rattle.fast_template.specs.Resolved.{Resolved};

    /// With no message, of which one may have so many bytes of strings. Takes no memory.
    pub fn new(alloc: Global, most_bytes: u32) -> TapeBuilder
        ensures stands { (set : List Resolved) → ⟦<TapeBuilder as Receiver>⟧.stands result set [] finite.empty }
        ensures limit { result.«open».most_bytes ≡ most_bytes }
    {
        TapeBuilder {
            whole: Tape::new(alloc),
            messages: 0,
            open: OpenTape::new(alloc, most_bytes),
            exponent: 0,
            instruction: 0,
            aside: Aside::new(alloc),
            room: Room::new(alloc),
        }
    }

    /// Whether so many messages wait that no more are to be read before they are taken: 65,536 nodes, or 1 MiB of strings.
    #[inline(always)]
    pub fn is_full(&self) -> bool
        ensures { result ≡ is_full self.now }
    {
        self.whole.nodes.len() >= 65_536 || self.whole.bytes.len() >= 1_048_576
    }

    /// Whether memory was refused because the open message has more bytes of strings than one may have.
    pub fn is_too_large(&self) -> bool
        ensures { result ≡ self.now.«open».too_large }
    {
        self.open.is_too_large()
    }

    /// How many messages, nodes and bytes wait.
    pub fn counts(&self) -> Taken
        ensures { result ≡ counts_of self.now }
    {
        Taken {
            messages: self.messages,
            nodes: self.whole.nodes.len(),
            bytes: self.whole.bytes.len(),
        }
    }

    /// Forgets the messages that wait, and keeps their memory.
    pub fn forget(&mut self)
        ensures { Forgets self.old self.new }
    {
        self.whole.clear();
        self.messages = 0;
    }

    /// Forgets what there is of the open message.
    pub fn forget_open(&mut self)
        ensures whole { self.new.whole ≡ self.old.whole }
        ensures messages { self.new.messages ≡ self.old.messages }
        ensures small { self.new.«open».too_large ≡ false }
    {
        self.open.clear();
    }

    /// Whether rooms of so many nodes and so many bytes are enough for the messages that wait.
    pub fn fits(&self, nodes: usize, bytes: usize) -> bool
        ensures { IsTrue result ↔ (((counts_of self.now).nodes ≤ nodes) × ((counts_of self.now).bytes ≤ bytes)) }
    {
        self.whole.fits(nodes, bytes)
    }

    /// Puts the nodes and the bytes of the messages that wait into the front of these rooms, which are long enough, and forgets
    /// them; answers how many they are.
    pub fn take(&mut self, nodes: &mut [TapeNode], bytes: &mut [u8]) -> Taken
        requires nodes { (counts_of self.now).nodes ≤ length nodes.now }
        requires bytes { (counts_of self.now).bytes ≤ length bytes.now }
        ensures counts { result ≡ counts_of self.old }
        ensures nodes { nodes.new ≡ self.old.whole.nodes.items ++ drop result.nodes nodes.old }
        ensures bytes { bytes.new ≡ self.old.whole.bytes.items ++ drop result.bytes bytes.old }
        ensures forgets { Forgets self.old self.new }
    {
        self.whole.copy_to(nodes, bytes);
        let taken = self.counts();
        self.forget();
        taken
    }
}

impl Receiver for TapeBuilder {
    ghost use Rattle.fast_tape.specs.Building.{HasTape, HasWaiting};

    ghost has = { λ b o d. HasTape b o };

    ghost stands = { λ b set ms d. HasWaiting b ms };

    ghost keeps = { λ b set ms d. HasWaiting b ms };

    ghost awaits = { λ w around left. true };

    ghost begun = { λ w bits. true };

    #[inline(always)]
    fn open(&mut self, _map: &[u8]) -> Result<(), AllocError> {
        Ok(())
    }

    #[inline(always)]
    fn begin<E: Entries>(
        &mut self,
        _alloc: Global,
        entries: &mut E,
        identifier: &FieldPart,
        bit: bool,
        level: Level,
        bytes: &[u8],
        at: usize,
    ) -> Result<(u32, usize), FieldFault> {
        let aside = &mut self.aside;
        let (id, next) = take_identifier(entries, identifier, bit, level, bytes, at, aside)?;
        self.open.clear();
        self.open.open(TapeNode::long(MESSAGE, id, 0, 0))?;
        Ok((id, next))
    }

    #[inline(always)]
    fn finish(&mut self, _alloc: Global) -> Result<(), AllocError> {
        let Some(messages) = self.messages.checked_add(1) else {
            return Err(AllocError);
        };
        self.open.close()?;
        self.whole.append(&self.open.tape)?;
        self.messages = messages;
        Ok(())
    }

    #[inline(always)]
    fn back(&mut self, _alloc: Global) {}

    #[inline(always)]
    fn is_full(&self) -> bool {
        TapeBuilder::is_full(self)
    }

    #[inline(always)]
    fn reset_entries<E: Entries>(&mut self, entries: &mut E) {
        entries.reset_into(&mut self.aside.spare);
    }

    #[inline(always)]
    fn field<E: Entries>(
        &mut self,
        alloc: Global,
        _name: &Name,
        _presence: Presence,
        entries: &mut E,
        part: &FieldPart,
        bit: bool,
        level: Level,
        bytes: &[u8],
        at: usize,
    ) -> Result<usize, FieldFault> {
        let tape = &mut self.open;
        let aside = &mut self.aside;
        let room = &mut self.room;
        tell(
            alloc, entries, part, bit, level, bytes, at, tape, aside, room,
        )
    }

    #[inline(always)]
    fn exponent<E: Entries>(
        &mut self,
        _name: &Name,
        _presence: Presence,
        entries: &mut E,
        part: &FieldPart,
        bit: bool,
        level: Level,
        bytes: &[u8],
        at: usize,
    ) -> Result<(bool, usize), FieldFault> {
        let aside = &mut self.aside;
        match take_exponent(entries, part, bit, level, bytes, at, aside)? {
            (None, next) => {
                self.open.push_absent(part.number)?;
                Ok((false, next))
            }
            (Some(exponent), next) => {
                self.exponent = exponent;
                self.instruction = part.number;
                Ok((true, next))
            }
        }
    }

    #[inline(always)]
    fn mantissa<E: Entries>(
        &mut self,
        entries: &mut E,
        part: &FieldPart,
        bit: bool,
        level: Level,
        bytes: &[u8],
        at: usize,
    ) -> Result<usize, FieldFault> {
        let aside = &mut self.aside;
        let (mantissa, next) = take_mantissa(entries, part, bit, level, bytes, at, aside)?;
        self.open
            .push_decimal(self.instruction, mantissa, self.exponent)?;
        Ok(next)
    }

    #[inline(always)]
    fn begin_sequence<E: Entries>(
        &mut self,
        _alloc: Global,
        _name: &Name,
        _presence: Presence,
        entries: &mut E,
        part: &FieldPart,
        bit: bool,
        level: Level,
        bytes: &[u8],
        at: usize,
    ) -> Result<(Option<u32>, usize), FieldFault> {
        let aside = &mut self.aside;
        match take_length(entries, part, bit, level, bytes, at, aside)? {
            (None, next) => {
                self.open.push_absent(part.number)?;
                Ok((None, next))
            }
            (Some(length), next) => {
                self.open
                    .open(TapeNode::long(SEQUENCE, part.number, length as u64, 0))?;
                Ok((Some(length), next))
            }
        }
    }

    #[inline(always)]
    fn left_out(&mut self, _name: &Name, number: u32) -> Result<(), AllocError> {
        self.open.push_absent(number)?;
        Ok(())
    }

    #[inline(always)]
    fn enter(
        &mut self,
        _alloc: Global,
        _name: &Name,
        number: u32,
        _optional: bool,
        _map: &[u8],
        _size: usize,
    ) -> Result<(), AllocError> {
        self.open.open(TapeNode::long(GROUP, number, 0, 0))?;
        Ok(())
    }

    #[inline(always)]
    fn leave(&mut self, _alloc: Global) -> Result<(), AllocError> {
        self.open.close()?;
        Ok(())
    }

    #[inline(always)]
    fn enter_element(
        &mut self,
        _alloc: Global,
        number: u32,
        _map: &[u8],
        _size: usize,
    ) -> Result<(), AllocError> {
        self.open.open(TapeNode::long(ELEMENT, number, 0, 0))?;
        Ok(())
    }

    #[inline(always)]
    fn leave_element(&mut self, _alloc: Global) -> Result<(), AllocError> {
        self.open.close()?;
        Ok(())
    }

    #[inline(always)]
    fn end_sequence(&mut self, _alloc: Global) -> Result<(), AllocError> {
        self.open.close()?;
        Ok(())
    }
}
