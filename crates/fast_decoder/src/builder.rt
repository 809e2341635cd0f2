//! Builds the nodes of messages.

ghost use Rattle.std.specs.Prelude.{◌≡◌, map, true};

use crate::taken::put_field;
use fast_dictionary::Entries;
use fast_field::FieldFault;
use fast_stream::{Message, Node};
use fast_take::Aside;
use fast_template::{FieldPart, Name, Presence, Scalar};
use fast_walk::{Receiver, take_exponent, take_identifier, take_length, take_mantissa};
use fast_wire::Level;
use std::alloc::{AllocError, Global};
use std::mem;

/// For how many elements of a sequence there is room at once, whatever its length says.
const SEVERAL: usize = 16;

/// What is built of a body that waits for the segment inside it: its nodes, and the elements of the sequence where
/// the segment is one.
#[derive(Drop)]
pub struct Outer {
    nodes: Vec<Node>,
    elements: Vec<Vec<Node>>,
}

/// Builds messages of the fields that it receives.
#[derive(Drop)]
pub struct Builder {
    template: u32,
    // of the innermost open body
    nodes: Vec<Node>,
    // of the decimal whose mantissa is next
    exponent: i32,
    // of the sequence whose element is next
    elements: Vec<Vec<Node>>,
    // of the bodies around
    outer: Vec<Outer>,
    whole: Vec<Message>,
    // how many nodes the message had that was finished last, for which the next one has room at once
    usual: usize,
    // of the field that was taken last
    aside: Aside,
}

impl Builder {
    ghost use Rattle.std.specs.Prelude.{[], List};
    ghost use Rattle.std.specs.FinMap as finite;
    ghost use Rattle.fast_template.specs.Resolved.{Resolved};
    ghost use Rattle.fast_stream.specs.Nodes.{Content};
    ghost use Rattle.fast_decoder.specs.Built.{with_whole};

    /// With no message. Takes no memory.
    pub fn new(alloc: Global) -> Builder
        ensures stands { (set : List Resolved)
            → ⟦<Builder as Receiver>⟧.stands result set [] finite.empty }
        ensures empty { result.whole.items ≡ [] }
    {
        Builder {
            template: 0,
            nodes: Vec::new(alloc),
            exponent: 0,
            elements: Vec::new(alloc),
            outer: Vec::new(alloc),
            whole: Vec::new(alloc),
            usual: 0,
            aside: Aside::new(alloc),
        }
    }

    /// Takes these messages, behind which the next are pushed, in exchange for none: those that are finished have been given
    /// back. Takes no memory.
    #[inline(always)]
    pub fn lend(&mut self, messages: &mut Vec<Message>)
        ensures messages { self.old.whole.items ≡ [] → messages.new.items ≡ [] }
        ensures whole { self.old.whole.items ≡ [] → self.new.whole.items ≡ messages.old.items }
        ensures builder { self.new ≡ with_whole self.old self.new.whole }
    {
        if !messages.is_empty() {
            mem::swap(&mut self.whole, messages);
        }
    }

    /// Gives the messages that are finished, in exchange for none. Takes no memory.
    #[inline(always)]
    pub fn give_back(&mut self, messages: &mut Vec<Message>)
        ensures messages { messages.old.items ≡ [] → messages.new.items ≡ self.old.whole.items }
        ensures whole { messages.old.items ≡ [] → self.new.whole.items ≡ [] }
        ensures builder { self.new ≡ with_whole self.old self.new.whole }
    {
        if !self.whole.is_empty() {
            mem::swap(&mut self.whole, messages);
        }
    }

    /// Forgets all messages. Takes no memory.
    pub fn reset(&mut self)
        ensures { self.new.whole.items ≡ [] }
    {
        self.whole.clear();
    }
}

impl Receiver for Builder {
    ghost use Rattle.fast_stream.specs.Nodes.{content_of};
    ghost use Rattle.fast_decoder.specs.Built.{IsBuilt};

    ghost has = { λ b o d. IsBuilt b o };

    ghost stands = { λ b set ms d. ms ≡ map content_of b.whole.items };

    ghost keeps = { λ b set ms d. ms ≡ map content_of b.whole.items };

    ghost awaits = { λ w around left. true };

    ghost begun = { λ w bits. true };

    #[inline(always)]
    fn open(&mut self, _map: &[u8]) -> Result<(), AllocError> {
        Ok(())
    }

    fn begin<E: Entries>(
        &mut self,
        alloc: Global,
        entries: &mut E,
        identifier: &FieldPart,
        bit: bool,
        level: Level,
        bytes: &[u8],
        at: usize,
    ) -> Result<(u32, usize), FieldFault> {
        let aside = &mut self.aside;
        let (id, next) = take_identifier(entries, identifier, bit, level, bytes, at, aside)?;
        self.template = id;
        self.nodes = Vec::with_capacity(alloc, self.usual).map_err(|_| FieldFault::Memory)?;
        self.outer.clear();
        Ok((id, next))
    }

    fn finish(&mut self, alloc: Global) -> Result<(), AllocError> {
        let fields = mem::replace(&mut self.nodes, Vec::new(alloc));
        self.usual = fields.len();
        self.whole.push(Message {
            template: self.template,
            fields,
        })?;
        Ok(())
    }

    #[inline(always)]
    fn reset_entries<E: Entries>(&mut self, entries: &mut E) {
        entries.reset_into(&mut self.aside.spare);
    }

    fn back(&mut self, alloc: Global) {
        self.nodes = Vec::new(alloc);
        self.elements = Vec::new(alloc);
        self.outer = Vec::new(alloc);
    }

    #[inline(always)]
    fn field<E: Entries>(
        &mut self,
        alloc: Global,
        _name: &Name,
        _presence: Presence,
        entries: &mut E,
        part: &FieldPart,
        bit: bool,
        level: Level,
        bytes: &[u8],
        at: usize,
    ) -> Result<usize, FieldFault> {
        let (aside, nodes) = (&mut self.aside, &mut self.nodes);
        put_field(alloc, entries, part, bit, level, bytes, at, aside, nodes)
    }

    fn exponent<E: Entries>(
        &mut self,
        _name: &Name,
        _presence: Presence,
        entries: &mut E,
        part: &FieldPart,
        bit: bool,
        level: Level,
        bytes: &[u8],
        at: usize,
    ) -> Result<(bool, usize), FieldFault> {
        let aside = &mut self.aside;
        match take_exponent(entries, part, bit, level, bytes, at, aside)? {
            (None, next) => {
                self.nodes
                    .push(Node::Absent)
                    .map_err(|_| FieldFault::Memory)?;
                Ok((false, next))
            }
            (Some(exponent), next) => {
                self.exponent = exponent;
                Ok((true, next))
            }
        }
    }

    fn mantissa<E: Entries>(
        &mut self,
        entries: &mut E,
        part: &FieldPart,
        bit: bool,
        level: Level,
        bytes: &[u8],
        at: usize,
    ) -> Result<usize, FieldFault> {
        let aside = &mut self.aside;
        let (mantissa, next) = take_mantissa(entries, part, bit, level, bytes, at, aside)?;
        let exponent = self.exponent;
        self.nodes
            .push(Node::Value(Scalar::Decimal { exponent, mantissa }))
            .map_err(|_| FieldFault::Memory)?;
        Ok(next)
    }

    fn begin_sequence<E: Entries>(
        &mut self,
        alloc: Global,
        _name: &Name,
        _presence: Presence,
        entries: &mut E,
        part: &FieldPart,
        bit: bool,
        level: Level,
        bytes: &[u8],
        at: usize,
    ) -> Result<(Option<u32>, usize), FieldFault> {
        let aside = &mut self.aside;
        match take_length(entries, part, bit, level, bytes, at, aside)? {
            (None, next) => {
                self.nodes
                    .push(Node::Absent)
                    .map_err(|_| FieldFault::Memory)?;
                Ok((None, next))
            }
            (Some(length), next) => {
                let room = (length as usize).min(SEVERAL);
                self.elements = Vec::with_capacity(alloc, room).map_err(|_| FieldFault::Memory)?;
                Ok((Some(length), next))
            }
        }
    }

    fn left_out(&mut self, _name: &Name, _number: u32) -> Result<(), AllocError> {
        self.nodes.push(Node::Absent)?;
        Ok(())
    }

    fn enter(
        &mut self,
        alloc: Global,
        _name: &Name,
        _number: u32,
        _optional: bool,
        _map: &[u8],
        size: usize,
    ) -> Result<(), AllocError> {
        let inner = Vec::with_capacity(alloc, size)?;
        let nodes = mem::replace(&mut self.nodes, inner);
        let elements = Vec::new(alloc);
        self.outer.push(Outer { nodes, elements })?;
        Ok(())
    }

    fn leave(&mut self, _alloc: Global) -> Result<(), AllocError> {
        match self.outer.pop() {
            // (no group is open)
            None => Ok(()),
            Some(Outer { nodes, .. }) => {
                let inner = mem::replace(&mut self.nodes, nodes);
                self.nodes.push(Node::Group(inner))?;
                Ok(())
            }
        }
    }

    fn enter_element(
        &mut self,
        alloc: Global,
        _number: u32,
        _map: &[u8],
        size: usize,
    ) -> Result<(), AllocError> {
        let inner = Vec::with_capacity(alloc, size)?;
        let nodes = mem::replace(&mut self.nodes, inner);
        let elements = mem::replace(&mut self.elements, Vec::new(alloc));
        self.outer.push(Outer { nodes, elements })?;
        Ok(())
    }

    fn leave_element(&mut self, _alloc: Global) -> Result<(), AllocError> {
        match self.outer.pop() {
            // (no element is open)
            None => Ok(()),
            Some(Outer { nodes, elements }) => {
                let inner = mem::replace(&mut self.nodes, nodes);
                self.elements = elements;
                self.elements.push(inner)?;
                Ok(())
            }
        }
    }

    fn next_element(
        &mut self,
        alloc: Global,
        _number: u32,
        _map: &[u8],
        size: usize,
    ) -> Result<(), AllocError> {
        match self.outer.pop() {
            // (no element is open)
            None => Ok(()),
            Some(Outer { nodes, elements }) => {
                let inner = Vec::with_capacity(alloc, size)?;
                let element = mem::replace(&mut self.nodes, inner);
                let mut elements = elements;
                elements.push(element)?;
                self.outer.push(Outer { nodes, elements })?;
                Ok(())
            }
        }
    }

    fn end_sequence(&mut self, alloc: Global) -> Result<(), AllocError> {
        let elements = mem::replace(&mut self.elements, Vec::new(alloc));
        self.nodes.push(Node::Sequence(elements))?;
        Ok(())
    }
}
