//! Messages as nodes to their canonical bytes.

ghost use Rattle.std.specs.Prelude.{◌≡◌, ◌≤◌, ◌↔◌, ◌++◌, ◌∷◌, [], ℕ, List, None, Some, IfErr, IfNone, IfOk, IfSome, IsSome, OnErr, drop, length, take};
ghost use Rattle.std.specs.FinMap as finite;
ghost use Rattle.fast_template.specs.TemplateSets.{templates_in};
ghost use Rattle.fast_stream.specs.Nodes.{Content};
ghost use Rattle.fast_walk.specs.Traversals.{ServesAll};
ghost use Rattle.fast_nodes.specs.FirstRefusal.{first_refusal};
ghost use Rattle.fast_untape.specs.Reading.{BeginWith, IsNotPut};
ghost use Rattle.fast_untape.specs.Writing.{HasWritten};

use crate::fault::PutFault;
use crate::message::message_at;
use fast_dictionary::Entries;
use fast_encoder::Encoder;
use fast_tape::TapeNode;
use fast_template::TemplateSet;
use std::alloc::Global;

/// What was put of nodes.
#[derive(Clone, Copy, Debug, PartialEq, Eq)]
pub struct Put {
    /// How many messages were written.
    pub messages: usize,
    /// How many nodes they have, from the front.
    pub nodes: usize,
    /// Why those behind them were not written; none where there are none.
    pub fault: Option<PutFault>,
}

/// Writes messages that come as nodes. Their canonical bytes wait in it until they are taken.
#[derive(Drop)]
pub struct TapeWriter<'a, E: Entries> {
    alloc: Global,
    set: &'a TemplateSet,
    encoder: Encoder<'a, E>,
    waiting: Vec<u8>,
    ghost same_set: { encoder.set.now ≡ set.now },
}

impl<'a, E: Entries> TapeWriter<'a, E> {
    /// A writer of a set, at the beginning of a stream. The entries are reset. Takes no memory.
    pub fn new(alloc: Global, set: &'a TemplateSet, entries: E) -> TapeWriter<'a, E>
        requires { ServesAll (E.serves entries) set.now }
        ensures set { result.set.now ≡ set.now }
        ensures waiting { result.waiting.items ≡ [] }
        ensures written { HasWritten (templates_in set.now) [] [] result.waiting.items (E.contents result.encoder.journal.entries) }
    {
        TapeWriter {
            alloc,
            set,
            encoder: Encoder::new(alloc, set, entries),
            waiting: Vec::new(alloc),
        }
    }

    /// How many bytes wait.
    pub fn waiting(&self) -> usize
        ensures { result ≡ length self.now.waiting.items }
    {
        self.waiting.len()
    }

    /// Writes the message that nodes begin with, whose strings lie among the bytes; answers how many of the nodes are its own.
    ///
    /// # Errors
    ///
    /// NoMessage: they do not begin with one. Refused: the first reason why the message has no form behind those written before, or
    /// `Memory`. Then nothing is written, and the entries are as they were.
    pub fn put(&mut self, nodes: &[TapeNode], bytes: &[u8]) -> Result<usize, PutFault>
        ensures put { IfOk result (λ count. (m : Content) × BeginWith bytes.now nodes.now count (m ∷ [])
            × (first_refusal (templates_in self.old.set.now) (E.contents self.old.encoder.journal.entries) m ≡ None)
            × ((messages : List Content) (taken : List ℕ)
            → HasWritten (templates_in self.old.set.now) messages taken self.old.waiting.items (E.contents self.old.encoder.journal.entries)
            → HasWritten (templates_in self.old.set.now) (messages ++ m ∷ []) taken self.new.waiting.items
            (E.contents self.new.encoder.journal.entries))) }
        ensures refused { IfErr result (IsNotPut
            (first_refusal (templates_in self.old.set.now) (E.contents self.old.encoder.journal.entries)) bytes.now nodes.now) }
        ensures unchanged { OnErr result ((self.new.waiting.items ≡ self.old.waiting.items)
            × (E.contents self.new.encoder.journal.entries ≡ E.contents self.old.encoder.journal.entries)) }
        ensures set { self.new.set ≡ self.old.set }
    {
        let (message, count) = message_at(self.alloc, self.set, nodes, bytes)?;
        match self.encoder.encode(&message, &mut self.waiting) {
            Err(fault) => Err(PutFault::Refused(fault)),
            Ok(()) => Ok(count),
        }
    }

    /// Writes the messages that nodes are, one after the other, until one is refused. Their strings lie among the bytes.
    pub fn put_all(&mut self, nodes: &[TapeNode], bytes: &[u8]) -> Put
        ensures put { (more : List Content) × BeginWith bytes.now nodes.now result.nodes more
            × (result.messages ≡ length more)
            × ((messages : List Content) (taken : List ℕ)
            → HasWritten (templates_in self.old.set.now) messages taken self.old.waiting.items (E.contents self.old.encoder.journal.entries)
            → HasWritten (templates_in self.old.set.now) (messages ++ more) taken self.new.waiting.items
            (E.contents self.new.encoder.journal.entries)) }
        ensures all { result.fault ≡ None → result.nodes ≡ length nodes.now }
        ensures refused { IfSome result.fault (IsNotPut (first_refusal (templates_in self.old.set.now)
            (E.contents self.new.encoder.journal.entries)) bytes.now (drop result.nodes nodes.now)) }
        ensures set { self.new.set ≡ self.old.set }
    {
        let mut put = Put {
            messages: 0,
            nodes: 0,
            fault: None,
        };
        'messages: while put.nodes < nodes.len() {
            match self.put(&nodes[put.nodes..], bytes) {
                Err(fault) => {
                    put.fault = Some(fault);
                    return put;
                }
                Ok(count) => {
                    put.messages += 1;
                    put.nodes += count;
                }
            }
        }
        put
    }

    /// Puts the bytes that wait into the front of a room, and forgets them; answers how many. None: the room is too short, and
    /// nothing changes.
    pub fn take(&mut self, room: &mut [u8]) -> Option<usize>
        ensures room { IsSome result ↔ (length self.old.waiting.items ≤ length room.old) }
        ensures count { IfSome result (λ count. count ≡ length self.old.waiting.items) }
        ensures bytes { IfSome result (λ count. room.new ≡ self.old.waiting.items ++ drop count room.old) }
        ensures taken { IfSome result (λ count. (messages : List Content) (taken : List ℕ)
            → HasWritten (templates_in self.old.set.now) messages taken self.old.waiting.items (E.contents self.old.encoder.journal.entries)
            → HasWritten (templates_in self.old.set.now) messages (taken ++ take count room.new) self.new.waiting.items
            (E.contents self.new.encoder.journal.entries)) }
        ensures short { IfNone result ((room.new ≡ room.old) × (self.new ≡ self.old)) }
        ensures set { self.new.set ≡ self.old.set }
    {
        let count = self.waiting.len();
        if room.len() < count {
            return None;
        }
        room[..count].copy_from_slice(&self.waiting);
        self.waiting.clear();
        Some(count)
    }

    /// Begins a new stream, with all entries undefined. What waits is forgotten. Takes no memory.
    pub fn reset(&mut self)
        ensures set { self.new.set ≡ self.old.set }
        ensures waiting { self.new.waiting.items ≡ [] }
        ensures written { HasWritten (templates_in self.new.set.now) [] [] self.new.waiting.items
            (E.contents self.new.encoder.journal.entries) }
    {
        self.encoder.reset();
        self.waiting.clear();
    }
}
