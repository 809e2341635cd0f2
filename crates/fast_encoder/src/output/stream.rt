//! The calls of a stream of messages.

ghost use Rattle.std.specs.Prelude.{◌≡◌, ◌⊎◌, ◌++◌, ◌∷◌, [], ℕ, List, Some, Err, OnOk, IfErr, true, false};
ghost use Rattle.std.specs.FinMap as finite;
ghost use Rattle.std.specs.Io.KnownBytes.{Appends};
ghost use Rattle.fast_template.specs.TemplateSets.{templates_in};
ghost use Rattle.fast_stream.specs.Nodes.{Content, content_of};
ghost use Rattle.fast_walk.specs.Traversals.{ServesAll};
ghost use Rattle.fast_io.specs.Counts.{counted};
ghost use Rattle.fast_writer.specs.Canonical.{CanonMessage};
ghost use Rattle.fast_nodes.specs.FirstRefusal.{first_refusal, refused};
ghost use Rattle.fast_encoder.specs.Outputs.{Sends, answered, last_tried};

use crate::encoder::Encoder;
use crate::output::MessageOutputStream;
use fast_dictionary::Entries;
use fast_io::{ByteOutput, push_all};
use fast_nodes::{EncodeCause, EncodeFault};
use fast_stream::Message;
use fast_template::TemplateSet;
use std::alloc::Global;

// A write that failed.
fn no_write() -> EncodeFault
    ensures { result ≡ refused EncodeCause.Write }
{
    EncodeFault {
        cause: EncodeCause::Write,
        instruction: 0,
    }
}

impl<'a, W: ByteOutput, E: Entries> MessageOutputStream<'a, W, E> {
    /// A stream of messages of a set, at its beginning. The entries are reset. Takes no memory.
    pub fn new(
        alloc: Global,
        writer: W,
        set: &'a TemplateSet,
        entries: E,
    ) -> MessageOutputStream<'a, W, E>
        requires { ServesAll (E.serves entries) set.now }
        ensures writer { result.writer ≡ writer }
        ensures set { result.encoder.set.now ≡ set.now }
        ensures failed { result.failed ≡ false }
        ensures sends { (last : Content) → Sends result.failed (templates_in set.now)
            (E.contents result.encoder.journal.entries) [] [] last [] }
        ensures same_keys { E.serves result.encoder.journal.entries ≡ E.serves entries }
    {
        MessageOutputStream {
            writer,
            encoder: Encoder::new(alloc, set, entries),
            bytes: Vec::new(alloc),
            failed: false,
        }
    }

    /// Writes the canonical bytes of a message, from the entries that the messages before left.
    ///
    /// # Errors
    ///
    /// Write: the writer failed now, and a front of the message's bytes may be out, or it had failed before, and
    /// nothing is written. Else the first reason why the message has no form from these entries, or Memory where a
    /// growth was refused; then nothing is written, and the entries are as they were.
    pub fn write_message(&mut self, message: &Message) -> Result<(), EncodeFault>
        // a failed write is kept
        ensures kept { self.old.failed ≡ true
            → (result ≡ Err (refused EncodeCause.Write)) × (self.new ≡ self.old) }
        ensures written { self.old.failed ≡ false → OnOk result ((bytes : List ℕ)
            × CanonMessage (templates_in self.old.encoder.set.now)
            (E.contents self.old.encoder.journal.entries) bytes (content_of message.now)
            (E.contents self.new.encoder.journal.entries)
            × Appends (W.taken self.old.writer) (W.taken self.new.writer) bytes
            × (W.errors self.new.writer ≡ W.errors self.old.writer)
            × (self.new.failed ≡ false)) }
        // only where a call of the writer failed
        ensures refused { self.old.failed ≡ false → IfErr result (λ f.
            ((f ≡ refused EncodeCause.Write)
            × (W.errors self.new.writer ≡ counted (W.errors self.old.writer))
            × (self.new.failed ≡ true))
            ⊎ (((f ≡ refused EncodeCause.Memory)
            ⊎ (first_refusal (templates_in self.old.encoder.set.now)
            (E.contents self.old.encoder.journal.entries) (content_of message.now) ≡ Some f))
            × (self.new.writer ≡ self.old.writer)
            × (E.contents self.new.encoder.journal.entries
            ≡ E.contents self.old.encoder.journal.entries)
            × (self.new.failed ≡ false))) }
        // the bytes that are out are those of the messages answered Ok; behind a failed write they are a front of
        // those and of the bytes of the message that was handed in then
        ensures sends { (runs : List (List Content)) (messages : List Content) (last : Content) (sent : List ℕ)
            → Sends self.old.failed (templates_in self.old.encoder.set.now)
            (E.contents self.old.encoder.journal.entries) runs messages last sent
            → (bytes : List ℕ) × Appends (W.taken self.old.writer) (W.taken self.new.writer) bytes
            × Sends self.new.failed (templates_in self.old.encoder.set.now)
            (E.contents self.new.encoder.journal.entries) runs
            (answered result messages (content_of message.now))
            (last_tried self.old.failed last (content_of message.now)) (sent ++ bytes) }
        ensures set { self.new.encoder.set ≡ self.old.encoder.set }
        ensures same_keys { E.serves self.new.encoder.journal.entries
            ≡ E.serves self.old.encoder.journal.entries }
    {
        if self.failed {
            return Err(no_write());
        }
        self.bytes.clear();
        self.encoder.encode(message, &mut self.bytes)?;
        match push_all(&mut self.writer, &self.bytes) {
            Err(_) => {
                self.failed = true;
                Err(no_write())
            }
            Ok(()) => Ok(()),
        }
    }

    /// Begins a new stream of messages behind what is written, with all entries undefined. Where a write has failed it
    /// changes nothing. Takes no memory.
    #[tactic(auto, using(crate::proofs::Outputs::sent_reset))]
    pub fn reset(&mut self)
        ensures kept { self.old.failed ≡ true → self.new ≡ self.old }
        ensures empty { self.old.failed ≡ false
            → E.contents self.new.encoder.journal.entries ≡ finite.empty }
        ensures writer { self.new.writer ≡ self.old.writer }
        ensures failed { self.new.failed ≡ self.old.failed }
        ensures sends { self.old.failed ≡ false → (runs : List (List Content))
            (messages : List Content) (last : Content) (sent : List ℕ)
            → Sends self.old.failed (templates_in self.old.encoder.set.now)
            (E.contents self.old.encoder.journal.entries) runs messages last sent
            → Sends self.new.failed (templates_in self.old.encoder.set.now)
            (E.contents self.new.encoder.journal.entries) (runs ++ messages ∷ []) [] last sent }
        ensures set { self.new.encoder.set ≡ self.old.encoder.set }
        ensures same_keys { E.serves self.new.encoder.journal.entries
            ≡ E.serves self.old.encoder.journal.entries }
    {
        if !self.failed {
            self.encoder.reset();
        }
    }
}
