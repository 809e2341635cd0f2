//! Streams to messages.

ghost use Rattle.std.specs.Prelude.{◌≡◌, ◌≢◌, ◌≤◌, ◌+◌, ◌^◌, ◌++◌, [], ℕ, List, None, Some, Err, OnOk, IfErr, IfSome, length, map};
ghost use Rattle.std.specs.FinMap as finite;
ghost use Rattle.fast_template.specs.TemplateSets.{templates_in};
ghost use Rattle.fast_stream.specs.Nodes.{Content, content_of};
ghost use Rattle.fast_stream.specs.Modes.{Carries};
ghost use Rattle.fast_stream.specs.declared.fault.Fault.{Fault as FaultOf};
ghost use Rattle.fast_machine.specs.Following.{IsHeld, Refused};
ghost use Rattle.fast_machine.specs.Progress.{IsUnended};
ghost use Rattle.fast_walk.specs.Traversals.{ServesAll};

use crate::builder::Builder;
use fast_dictionary::Entries;
use fast_machine::Machine;
use fast_stream::{Cause, Fault, Message, Mode};
use fast_template::TemplateSet;
use std::alloc::Global;

/// Reads a stream that comes in chunks, and stops anywhere.
///
/// It keeps the segments that are open, the nodes built of them, and the bytes of the one piece that is not whole.
/// Nothing but that piece is read again.
#[derive(Drop)]
pub struct Decoder<'a, E: Entries> {
    pub(crate) machine: Machine<'a, Builder, E>,
}

impl<'a, E: Entries> Decoder<'a, E> {
    ghost use Rattle.fast_machine.specs.Following.{Answers, Follows, mode_of};

    /// A decoder of a set, at the beginning of a stream. The entries are reset. Takes no memory.
    pub fn new(alloc: Global, set: &'a TemplateSet, mode: Mode, entries: E) -> Decoder<'a, E>
        requires { ServesAll (E.serves entries) set.now }
        ensures set { result.machine.traversal.set.now ≡ set.now }
        ensures mode { mode_of result.machine ≡ mode }
        ensures fault { result.machine.fault ≡ None }
        ensures empty { E.contents result.machine.entries ≡ finite.empty }
        ensures follows { Follows result.machine [] [] [] }
    {
        Decoder {
            machine: Machine::new(alloc, set, mode, Builder::new(alloc), entries),
        }
    }

    /// How many bytes were fed since the reset, up to the end of the chunk that has the first fault.
    pub fn fed(&self) -> u64
        ensures { result ≡ self.now.machine.fed }
    {
        self.machine.fed()
    }

    /// How many of the bytes fed belong to no finished piece, at most 65,554; 0 after a fault.
    pub fn held(&self) -> usize
        ensures held { result ≡ length self.now.machine.held.items }
        ensures bounded { result ≤ 65554 }
        ensures fault { IfSome self.now.machine.fault (λ f. result ≡ 0) }
        // none where the bytes carry messages, else `fed` less the offset of Truncated
        ensures waits { self.now.machine.fault ≡ None → (fed : List ℕ) (messages : List Content)
            → Follows self.now.machine [] fed messages
            → IsHeld (mode_of self.now.machine) (templates_in self.now.machine.traversal.set.now) fed self.now.machine.fed
            result }
    {
        self.machine.held()
    }

    /// Tells a proof what the decoder follows, in words of the stream alone: while it has no fault, the bytes fed carry
    /// the messages pushed and at most a front of one more; and where it has one, they are refused behind the messages.
    /// Does nothing.
    pub fn tell_progress(&self)
        ensures unended { self.now.machine.fault ≡ None → (fed : List ℕ) (messages : List Content)
            → Follows self.now.machine [] fed messages
            → IsUnended (mode_of self.now.machine) (templates_in self.now.machine.traversal.set.now) fed messages }
        ensures refused { (fault : FaultOf) → self.now.machine.fault ≡ Some fault → (fed : List ℕ)
            (messages : List Content) → Follows self.now.machine [] fed messages
            → Refused fault (mode_of self.now.machine) (templates_in self.now.machine.traversal.set.now) fed messages }
    {
        self.machine.tell_progress();
    }

    /// Takes the next bytes of the stream, and pushes each message that they end.
    ///
    /// # Errors
    ///
    /// The first fault of the bytes fed since the reset, behind the messages pushed, or the refusal of memory behind
    /// these. It is kept until the reset.
    pub fn feed(&mut self, chunk: &[u8], out: &mut Vec<Message>) -> Result<(), Fault>
        requires room { self.now.machine.fed + length chunk.now ≤ 2 ^ 60 }
        ensures kept { IfSome self.old.machine.fault (λ f. (result ≡ Err f)
            × (self.new ≡ self.old) × (out.new ≡ out.old)) }
        ensures follows { self.old.machine.fault ≡ None → (fed : List ℕ)
            (messages : List Content) → Follows self.old.machine [] fed messages
            → (pushed : List Content) × (map content_of out.new.items
            ≡ map content_of out.old.items ++ pushed)
            × Follows self.new.machine [] (fed ++ chunk.now) (messages ++ pushed) }
        ensures answer { Answers result self.new.machine.fault }
        ensures cause { self.old.machine.fault ≡ None → IfErr result (λ f. f.cause
            ≢ Cause.Truncated) }
        ensures set { self.new.machine.traversal.set ≡ self.old.machine.traversal.set }
        ensures mode { mode_of self.new.machine ≡ mode_of self.old.machine }
        ensures same_keys { E.serves self.new.machine.entries ≡ E.serves self.old.machine.entries }
        ensures fed { self.old.machine.fault ≡ None
            → self.new.machine.fed ≡ self.old.machine.fed + length chunk.now }
    {
        if let Some(fault) = self.machine.fault() {
            return Err(fault);
        }
        if self.machine.lacks_more(chunk) {
            return self.machine.hold_on(chunk);
        }
        if let Some(lack) = self.machine.first_lacking(chunk) {
            return self.machine.feed_lacking(lack, chunk);
        }
        // the builder pushes behind the messages that are there
        let machine = &mut self.machine;
        machine.receiver.lend(out);
        let fed = machine.feed_on(chunk);
        machine.receiver.give_back(out);
        fed
    }

    /// The end of the stream.
    ///
    /// # Errors
    ///
    /// The kept fault, or Truncated where the stream ends inside a message, which is kept from then on.
    pub fn finish(&mut self) -> Result<(), Fault>
        ensures kept { IfSome self.old.machine.fault (λ f. (result ≡ Err f)
            × (self.new ≡ self.old)) }
        ensures ok { OnOk result ((self.new ≡ self.old) × ((fed : List ℕ) (messages : List Content)
            → Follows self.old.machine [] fed messages
            → Carries (mode_of self.old.machine) (templates_in self.old.machine.traversal.set.now) fed messages)) }
        ensures truncated { self.old.machine.fault ≡ None
            → IfErr result (λ f. (f.cause ≡ Cause.Truncated)
            × ((fed : List ℕ) (messages : List Content)
            → Follows self.old.machine [] fed messages
            → Follows self.new.machine [] fed messages)) }
        ensures answer { Answers result self.new.machine.fault }
        ensures set { self.new.machine.traversal.set ≡ self.old.machine.traversal.set }
        ensures mode { mode_of self.new.machine ≡ mode_of self.old.machine }
        ensures fed { self.new.machine.fed ≡ self.old.machine.fed }
    {
        self.machine.finish()
    }

    /// Begins a new stream, with all entries undefined. Fails for no want of memory.
    pub fn reset(&mut self)
        ensures set { self.new.machine.traversal.set ≡ self.old.machine.traversal.set }
        ensures mode { mode_of self.new.machine ≡ mode_of self.old.machine }
        ensures same_keys { E.serves self.new.machine.entries ≡ E.serves self.old.machine.entries }
        ensures fault { self.new.machine.fault ≡ None }
        ensures empty { E.contents self.new.machine.entries ≡ finite.empty }
        ensures follows { Follows self.new.machine [] [] [] }
    {
        let machine = &mut self.machine;
        machine.receiver.reset();
        machine.reset();
    }
}
