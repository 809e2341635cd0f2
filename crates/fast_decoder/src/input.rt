//! Messages from a reader.

ghost use Rattle.std.specs.Prelude.{◌≡◌, ◌≢◌, ◌≤◌, ◌<◌, ◌+◌, ◌*◌, ◌++◌, ◌^◌, [], ℕ, true, false, List, Option, None, Some, Ok, Err, OnOk, IfErr, length};
ghost use Rattle.std.specs.FinMap as finite;
ghost use Rattle.std.specs.Io.KnownBytes.{IsAtEnd};
ghost use Rattle.fast_template.specs.TemplateSets.{templates_in};
ghost use Rattle.fast_stream.specs.Nodes.{Content};
ghost use Rattle.fast_walk.specs.Traversals.{ServesAll};
ghost use Rattle.fast_machine.specs.Following.{mode_of};
ghost use Rattle.fast_decoder.specs.Inputs.{Follows, Repeats, Stands, Tells, answered_in, waiting_in};
ghost use Rattle.fast_machine.specs.Inputs.{Causes, HasReached, IsFaultOf, OnFault, Reads, told_by};

use crate::decoder::Decoder;
use fast_dictionary::Entries;
use fast_io::{ByteInput, Failed};
use fast_machine::Reached;
use fast_stream::{Cause, Fault, Message, Mode};
use fast_template::TemplateSet;
use std::alloc::Global;

/// The most bytes that one read takes.
const CHUNK: usize = 4096;

/// Reads messages from a reader, with a bounded number of reads.
#[derive(Drop)]
pub struct MessageInputStream<'a, R: ByteInput, E: Entries> {
    reader: R,
    decoder: Decoder<'a, E>,
    // decoded and not yet answered, the next one last
    waiting: Vec<Message>,
    turns: u64,
    // since the reset
    reads: u64,
    reached: Reached,
    ghost limited: { turns ≤ 2 ^ 40 },
    ghost bounded: { reads ≤ turns },
    ghost fits: { decoder.machine.fed ≤ 4096 * reads },
}

impl<'a, R: ByteInput, E: Entries> MessageInputStream<'a, R, E> {
    ghost use Rattle.fast_decoder.specs.Calls.{IsSameStream, ReadsOn, StandsAt, TellsAt};

    /// A stream over a reader, of which at most `turns` reads are made until the reset. The entries are reset. Takes
    /// no memory.
    pub fn new(
        alloc: Global,
        reader: R,
        set: &'a TemplateSet,
        mode: Mode,
        entries: E,
        turns: u64,
    ) -> MessageInputStream<'a, R, E>
        requires turns { turns ≤ 2 ^ 40 }
        requires served { ServesAll (E.serves entries) set.now }
        ensures reader { result.reader ≡ reader }
        ensures turns { result.turns ≡ turns }
        ensures set { result.decoder.machine.traversal.set.now ≡ set.now }
        ensures mode { mode_of result.decoder.machine ≡ mode }
        ensures reached { result.reached ≡ Reached.Open }
        ensures reads { result.reads ≡ 0 }
        ensures waiting { result.waiting.items ≡ [] }
        ensures empty { E.contents result.decoder.machine.entries ≡ finite.empty }
        ensures stands { Stands result.reached result.decoder result.waiting.items result.turns
            result.reads (R.left result.reader) [] [] }
    {
        MessageInputStream {
            reader,
            decoder: Decoder::new(alloc, set, mode, entries),
            waiting: Vec::new(alloc),
            turns,
            reads: 0,
            reached: Reached::Open,
        }
    }

    // Whether another read is to be made: no message waits, and one may still come.
    fn wants_more(&self) -> bool
        ensures yes { result ≡ true → (self.now.reached ≡ Reached.Open) × (self.now.waiting.items
            ≡ []) × (self.now.reads < self.now.turns) }
        ensures no { result ≡ false → self.now.waiting.items ≡ [] → self.now.reached ≡ Reached.Open
            → self.now.reads ≡ self.now.turns }
    {
        match self.reached {
            Reached::Open => self.waiting.is_empty() && self.reads < self.turns,
            Reached::End | Reached::Fault(_) => false,
        }
    }

    // Makes one read, and feeds what it gave: the messages that it ends wait, the first one last. Ends the stream where its
    // reader has.
    fn read_on(&mut self)
        requires reached { self.now.reached ≡ Reached.Open }
        requires none { self.now.waiting.items ≡ [] }
        requires few { self.now.reads < self.now.turns }
        ensures same { IsSameStream self.old self.new }
        ensures reads { ReadsOn self.old self.new 1 }
    {
        let mut chunk = [0u8; CHUNK];
        self.reads += 1;
        match self.reader.pull(&mut chunk) {
            Ok(0) => match self.decoder.finish() {
                Ok(()) => self.reached = Reached::End,
                Err(fault) => self.reached = Reached::Fault(fault),
            },
            Ok(count) => {
                let fed = self.decoder.feed(&chunk[..count], &mut self.waiting);
                self.waiting.reverse();
                match fed {
                    Ok(()) => {}
                    Err(first) => self.reached = Reached::Fault(first),
                }
            }
            Err(Failed) => self.reached = Reached::Fault(self.decoder.machine.cut(Cause::Read)),
        }
    }

    // What is answered where no message waits, and no other read is to be made.
    fn outcome(&mut self) -> Result<Option<Message>, Fault>
        requires none { self.now.waiting.items ≡ [] }
        requires used_up { self.now.reached ≡ Reached.Open → self.now.reads ≡ self.now.turns }
        ensures tells { (bytes : List ℕ) (answered : List Content) → StandsAt self.old bytes answered
            → StandsAt self.new bytes answered × TellsAt result self.new bytes answered }
        ensures open { self.old.reached ≡ Reached.Open → IsFaultOf Cause.Turns self.new.reached }
        ensures closed { self.old.reached ≢ Reached.Open → self.new ≡ self.old }
        ensures message { answered_in result ≡ [] }
        ensures again { Repeats self.old.reached result }
        ensures waiting { self.new.waiting.items ≡ [] }
        ensures end { OnOk result (self.new.reached ≡ Reached.End) }
        ensures fault { IfErr result (λ f. self.new.reached ≡ Reached.Fault f) }
        ensures reader { self.new.reader ≡ self.old.reader }
        ensures reads { self.new.reads ≡ self.old.reads }
        ensures same { IsSameStream self.old self.new }
    {
        match self.reached {
            Reached::End => Ok(None),
            Reached::Fault(fault) => Err(fault),
            Reached::Open => {
                let fault = self.decoder.machine.cut(Cause::Turns);
                self.reached = Reached::Fault(fault);
                Err(fault)
            }
        }
    }

    /// The next message, or none at the end, again and again.
    ///
    /// It reads only where no message waits, at most 4,096 bytes at a time.
    ///
    /// # Errors
    ///
    /// The first fault of the bytes read since the reset, once the messages before it are answered, and from then on
    /// the same. Read: the reader answered an error. Turns: all reads are made, and no message waits. The place of
    /// both is that of the piece that was reached, or the bytes' end between two messages.
    pub fn read_message(&mut self) -> Result<Option<Message>, Fault>
        ensures turns { self.new.turns ≡ self.old.turns }
        ensures set { self.new.decoder.machine.traversal.set ≡ self.old.decoder.machine.traversal.set }
        ensures mode { mode_of self.new.decoder.machine ≡ mode_of self.old.decoder.machine }
        ensures waits { self.old.waiting.items ≢ [] → self.new.reader ≡ self.old.reader }
        ensures read { (got : List ℕ) × (count : ℕ)
            × Reads (told_by R.ByteInput self.old.reader) (told_by R.ByteInput self.new.reader) count got
            × (self.new.reads ≡ self.old.reads + count)
            × ((bytes : List ℕ) (answered : List Content)
            → Stands self.old.reached self.old.decoder self.old.waiting.items self.old.turns
            self.old.reads (R.left self.old.reader) bytes answered
            → Stands self.new.reached self.new.decoder self.new.waiting.items self.new.turns
            self.new.reads (R.left self.new.reader) (bytes ++ got) (answered ++ answered_in result)
            × Tells result (mode_of self.new.decoder.machine) (templates_in self.new.decoder.machine.traversal.set.now) self.new.turns
            (R.left self.new.reader) (bytes ++ got) (answered ++ answered_in result)
            × Causes self.old.reached self.new.reached (self.new.reads ≡ self.new.turns)
            (told_by R.ByteInput self.old.reader) (told_by R.ByteInput self.new.reader)) }
        ensures end { result ≡ Ok None → self.new.reached ≡ Reached.End }
        ensures fault { IfErr result (λ f. self.new.reached ≡ Reached.Fault f) }
        // with none or a fault no message waits, and the next call answers the same
        ensures none_waits { answered_in result ≡ [] → self.new.waiting.items ≡ [] }
        ensures again { self.old.waiting.items ≡ [] → Repeats self.old.reached result }
        ensures closed { self.old.reached ≢ Reached.Open → self.old.waiting.items ≡ []
            → (self.new.reached ≡ self.old.reached) × (self.new.waiting.items ≡ [])
            × (self.new.decoder ≡ self.old.decoder) × (self.new.reader ≡ self.old.reader) }
    {
        'reads: while self.wants_more() {
            self.read_on();
        }
        match self.waiting.pop() {
            Some(message) => Ok(Some(message)),
            None => self.outcome(),
        }
    }

    /// Begins a new stream with what the reader has left, with all entries undefined: drops what waits, and counts
    /// the reads from 0. Fails for no want of memory.
    pub fn reset(&mut self)
        ensures reader { self.new.reader ≡ self.old.reader }
        ensures turns { self.new.turns ≡ self.old.turns }
        ensures set { self.new.decoder.machine.traversal.set ≡ self.old.decoder.machine.traversal.set }
        ensures mode { mode_of self.new.decoder.machine ≡ mode_of self.old.decoder.machine }
        ensures reached { self.new.reached ≡ Reached.Open }
        ensures reads { self.new.reads ≡ 0 }
        ensures waiting { self.new.waiting.items ≡ [] }
        ensures empty { E.contents self.new.decoder.machine.entries ≡ finite.empty }
        ensures stands { Stands self.new.reached self.new.decoder self.new.waiting.items
            self.new.turns self.new.reads (R.left self.new.reader) [] [] }
    {
        self.decoder.reset();
        self.waiting.clear();
        self.reads = 0;
        self.reached = Reached::Open;
    }
}
