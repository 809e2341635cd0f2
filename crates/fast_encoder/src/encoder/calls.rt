//! The calls of an encoder.

ghost use Rattle.std.specs.Prelude.{◌≡◌, ◌⊎◌, ◌++◌, ℕ, List, None, Some, OnOk, OnErr, IfErr, IfSome, Err};
ghost use Rattle.std.specs.FinMap as finite;
ghost use Rattle.fast_template.specs.TemplateSets.{templates_in};
ghost use Rattle.fast_wire.specs.declared.level.Level.TheVariants.{Usual};
ghost use Rattle.fast_dictionary.specs.Dictionary.{Dictionary};
ghost use Rattle.fast_stream.specs.Nodes.{content_of};
ghost use Rattle.fast_stream.specs.Streams.{MessageForm, members_of};
ghost use Rattle.fast_walk.specs.Traversals.{ServesAll};
ghost use Rattle.fast_writer.specs.Canonical.{CanonMessage};
ghost use Rattle.fast_nodes.specs.FirstRefusal.{early_refusal, first_refusal, refused};

use crate::encoder::Encoder;
use crate::message::put_message;
use fast_dictionary::Entries;
use fast_nodes::{EncodeCause, EncodeFault, Journal, template_for};
use fast_stream::Message;
use fast_template::{FieldPart, Key, Kind, Name, Operator, Part, Presence, Scope, TemplateSet};
use fast_writer::Segment;
use std::alloc::Global;

impl<'a, E: Entries> Encoder<'a, E> {
    /// An encoder of a set, at the beginning of a stream. The entries are reset. Takes no memory.
    #[tactic(auto, using(fast_walk::proofs::Telling::empty_kept))]
    pub fn new(alloc: Global, set: &'a TemplateSet, entries: E) -> Encoder<'a, E>
        requires { ServesAll (E.serves entries) set.now }
        ensures set { result.set.now ≡ set.now }
        ensures empty { E.contents result.journal.entries ≡ finite.empty }
        ensures same_keys { E.serves result.journal.entries ≡ E.serves entries }
    {
        let mut entries = entries;
        entries.reset();
        Encoder {
            alloc,
            set,
            identifier: FieldPart {
                number: 0,
                part: Part::Whole,
                kind: Kind::UInt32,
                presence: Presence::Mandatory,
                operator: Operator::Copy,
                key: Key {
                    slot: 0,
                    scope: Scope::Global,
                    name: Name::empty(),
                    part: Part::Whole,
                },
                initial: None,
            },
            journal: Journal::new(alloc, entries),
            level: Segment::new(alloc, true),
        }
    }

    /// Appends the canonical bytes of a message, from the entries that the messages before left.
    ///
    /// # Errors
    ///
    /// The first reason why the message has no form from these entries, or Memory where a growth was refused. Then
    /// nothing is appended, and the entries are as they were.
    #[tactic(auto, using(fast_walk::proofs::Telling::are_kept, fast_nodes::proofs::Messages::early_first))]
    pub fn encode(&mut self, message: &Message, out: &mut Vec<u8>) -> Result<(), EncodeFault>
        ensures written { OnOk result ((bytes : List ℕ) × (out.new.items ≡ out.old.items ++ bytes)
            × CanonMessage (templates_in self.old.set.now) (E.contents self.old.journal.entries)
            bytes (content_of message.now) (E.contents self.new.journal.entries)) }
        ensures allowed { OnOk result (first_refusal (templates_in self.old.set.now)
            (E.contents self.old.journal.entries) (content_of message.now) ≡ None) }
        ensures refused { IfErr result (λ f. (f ≡ refused EncodeCause.Memory)
            ⊎ (first_refusal (templates_in self.old.set.now) (E.contents self.old.journal.entries)
            (content_of message.now) ≡ Some f)) }
        // a template that is not there, another shape or type and too many nodes are seen before memory is asked for
        ensures early { IfSome (early_refusal (members_of (templates_in self.old.set.now) message.now.template)
            (content_of message.now).items) (λ f. result ≡ Err f) }
        // no form of the message, canonical or not, stands where it is refused
        ensures no_form { IfErr result (λ f. (f ≡ refused EncodeCause.Memory)
            ⊎ ((bytes : List ℕ) (after : Dictionary) → MessageForm Usual (templates_in self.old.set.now)
            (E.contents self.old.journal.entries) bytes (content_of message.now) after → ⊥)) }
        ensures unchanged { OnErr result ((out.new.items ≡ out.old.items)
            × (E.contents self.new.journal.entries ≡ E.contents self.old.journal.entries)) }
        ensures set { self.new.set ≡ self.old.set }
        ensures same_keys { E.serves self.new.journal.entries
            ≡ E.serves self.old.journal.entries }
    {
        let template = template_for(self.set, message)?;
        put_message(
            &template.members,
            message,
            self.alloc,
            &self.identifier,
            &mut self.journal,
            &mut self.level,
            out,
        )
    }

    /// Begins a new stream, with all entries undefined. Takes no memory.
    #[tactic(auto, using(fast_walk::proofs::Telling::empty_kept))]
    pub fn reset(&mut self)
        ensures empty { E.contents self.new.journal.entries ≡ finite.empty }
        ensures set { self.new.set ≡ self.old.set }
        ensures same_keys { E.serves self.new.journal.entries
            ≡ E.serves self.old.journal.entries }
    {
        self.journal.reset();
    }
}
