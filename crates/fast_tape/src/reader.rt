//! Streams to messages as nodes.

ghost use Rattle.std.specs.Prelude.{◌≡◌, ◌≢◌, ◌≤◌, ◌<◌, ◌↔◌, ◌+◌, ◌^◌, ◌++◌, [], ℕ, List, Option, None, Some, Err, IfOk, IfErr, IfSome, IfNone, IsSome, OnOk, IsTrue, length, take, drop, true, false};
ghost use Rattle.std.specs.FinMap as finite;
ghost use Rattle.fast_template.specs.TemplateSets.{templates_in};
ghost use Rattle.fast_stream.specs.Nodes.{Content};
ghost use Rattle.fast_stream.specs.Modes.{Carries};
ghost use Rattle.fast_stream.specs.declared.fault.Fault.{Fault as FaultOf};
ghost use Rattle.fast_machine.specs.Following.{mode_of};
ghost use Rattle.fast_machine.specs.Calls.{FollowsTaken, IsSameStream};
ghost use Rattle.fast_walk.specs.Traversals.{ServesAll};
ghost use Rattle.fast_tape.specs.Faults.{told_as as fault_told};
ghost use Rattle.fast_tape.specs.Tapes.{IsTape};
ghost use Rattle.fast_tape.specs.Waiting.{counts_of, is_full};

use crate::builder::{Taken, TapeBuilder};
use crate::fault::{TapeFault, told_as};
use crate::node::TapeNode;
use fast_dictionary::Entries;
use fast_machine::Machine;
use fast_stream::{Fault, Mode};
use fast_template::TemplateSet;
use std::alloc::Global;

/// The most bytes that are fed between two resets.
const STREAM_LIMIT: u64 = 1 << 40;

// Reads messages from the front of a chunk until many wait; answers how many bytes were taken.
#[inline(always)]
fn feed_some<E: Entries>(
    machine: &mut Machine<'_, TapeBuilder, E>,
    chunk: &[u8],
) -> Result<usize, Fault>
    requires room { machine.now.fed + length chunk.now ≤ 2 ^ 60 }
    requires fault { machine.now.fault ≡ None }
    ensures follows { FollowsTaken machine.old chunk.now result machine.new }
    ensures open { IfOk result (λ n. machine.new.fault ≡ None) }
    ensures refused { IfErr result (λ f. machine.new.fault ≡ Some f) }
    ensures within { IfOk result (λ n. n ≤ length chunk.now) }
    ensures stops { IfOk result (λ n. n < length chunk.now → is_full machine.new.receiver ≡ true) }
    ensures moves { IfOk result (λ n. is_full machine.old.receiver ≡ false → 0 < length chunk.now → 0 < n) }
    ensures same { IsSameStream machine.old machine.new }
    ensures fed { IfOk result (λ n. machine.new.fed ≡ machine.old.fed + n) }
{
    let mut at = 0;
    'messages: while at < chunk.len() {
        if machine.receiver.is_full() {
            return Ok(at);
        }
        at += machine.feed_messages(&chunk[at..])?;
    }
    Ok(at)
}

/// Reads a stream that comes in chunks, and stops anywhere; the messages that end wait in it as nodes until they are taken.
#[derive(Drop)]
pub struct TapeReader<'a, E: Entries> {
    machine: Machine<'a, TapeBuilder, E>,
}

impl<'a, E: Entries> TapeReader<'a, E> {
    ghost use Rattle.fast_tape.specs.Reading.{HoldsWaiting, Reads, ReadsOn, fault_kept, stream_limit, taken_of};

    /// A reader of a set, at the beginning of a stream. A message whose strings have more than so many bytes is not read. The
    /// entries are reset. Takes no memory.
    pub fn new(
        alloc: Global,
        set: &'a TemplateSet,
        mode: Mode,
        most_bytes: u32,
        entries: E,
    ) -> TapeReader<'a, E>
        requires { ServesAll (E.serves entries) set.now }
        ensures set { result.machine.traversal.set.now ≡ set.now }
        ensures mode { mode_of result.machine ≡ mode }
        ensures limit { result.machine.receiver.«open».most_bytes ≡ most_bytes }
        ensures fault { result.machine.fault ≡ None }
        ensures reads { Reads result [] [] [] }
    {
        TapeReader {
            machine: Machine::new(
                alloc,
                set,
                mode,
                TapeBuilder::new(alloc, most_bytes),
                entries,
            ),
        }
    }

    /// The fault that is kept, if there is one.
    pub fn fault(&self) -> Option<TapeFault>
        ensures { result ≡ fault_kept self.now }
    {
        match self.machine.fault() {
            None => None,
            Some(fault) => Some(told_as(fault, self.machine.receiver.is_too_large())),
        }
    }

    /// How many bytes were fed since the reset, up to the end of the chunk that has the first fault.
    pub fn fed(&self) -> u64
        ensures { result ≡ self.now.machine.fed }
    {
        self.machine.fed()
    }

    /// How many messages, nodes and bytes wait.
    pub fn waiting(&self) -> Taken
        ensures { result ≡ counts_of self.now.machine.receiver }
    {
        self.machine.receiver.counts()
    }

    /// Takes bytes from the front of the next of the stream, however they are cut, and answers how many: fewer than there are only
    /// where 65,536 nodes or 1 MiB of strings wait. The messages that they end wait behind the others.
    ///
    /// # Errors
    ///
    /// The first fault of the bytes fed since the reset, or the refusal of memory, behind the messages before it, which wait.
    /// It is kept until the reset. StreamTooLong: the bytes would be more than 2^40, and nothing has changed.
    pub fn feed(&mut self, chunk: &[u8]) -> Result<usize, TapeFault>
        ensures kept { IsSome self.old.machine.fault → self.new ≡ self.old }
        ensures reads { self.old.machine.fault ≡ None → ReadsOn self.old (taken_of result chunk.now) self.new }
        ensures open { IfOk result (λ n. self.new.machine.fault ≡ None) }
        ensures refused { IfErr result (λ f. f ≢ TapeFault.StreamTooLong → fault_kept self.new ≡ Some f) }
        ensures too_long { IfErr result (λ f. f ≡ TapeFault.StreamTooLong → (self.new ≡ self.old)
            × (stream_limit < self.old.machine.fed + length chunk.now)) }
        ensures long { self.old.machine.fault ≡ None → stream_limit < self.old.machine.fed + length chunk.now
            → result ≡ Err TapeFault.StreamTooLong }
        ensures within { IfOk result (λ n. n ≤ length chunk.now) }
        ensures stops { IfOk result (λ n. n < length chunk.now → is_full self.new.machine.receiver ≡ true) }
        ensures moves { IfOk result (λ n. is_full self.old.machine.receiver ≡ false → 0 < length chunk.now → 0 < n) }
        ensures same { IsSameStream self.old.machine self.new.machine }
        ensures fed { IfOk result (λ n. self.new.machine.fed ≡ self.old.machine.fed + n) }
    {
        if let Some(fault) = self.fault() {
            return Err(fault);
        }
        if chunk.len() as u64 > STREAM_LIMIT
            || self.machine.fed() > STREAM_LIMIT - chunk.len() as u64
        {
            return Err(TapeFault::StreamTooLong);
        }
        match feed_some(&mut self.machine, chunk) {
            Ok(taken) => Ok(taken),
            Err(fault) => Err(told_as(fault, self.machine.receiver.is_too_large())),
        }
    }

    /// Puts the messages that wait into the front of these rooms, in order, and forgets them; answers how many they are. None: the
    /// rooms are too short, and nothing changes.
    pub fn take(&mut self, nodes: &mut [TapeNode], bytes: &mut [u8]) -> Option<Taken>
        ensures taken { IfSome result (λ taken. (fed : List ℕ) (messages waiting : List Content)
            → Reads self.old fed messages waiting
            → (taken.messages ≡ length waiting) × IsTape (take taken.bytes bytes.new) waiting (take taken.nodes nodes.new)
            × Reads self.new fed messages []) }
        ensures behind { IfSome result (λ taken. (drop taken.nodes nodes.new ≡ drop taken.nodes nodes.old)
            × (drop taken.bytes bytes.new ≡ drop taken.bytes bytes.old)) }
        ensures counts { IfSome result (λ taken. taken ≡ counts_of self.old.machine.receiver) }
        ensures short { IfNone result ((nodes.new ≡ nodes.old) × (bytes.new ≡ bytes.old) × (self.new ≡ self.old)) }
        ensures room { IsSome result ↔ (((counts_of self.old.machine.receiver).nodes ≤ length nodes.old)
            × ((counts_of self.old.machine.receiver).bytes ≤ length bytes.old)) }
        ensures same { IsSameStream self.old.machine self.new.machine }
    {
        if !self.machine.receiver.fits(nodes.len(), bytes.len()) {
            return None;
        }
        let machine = &mut self.machine;
        Some(machine.receiver.take(nodes, bytes))
    }

    /// The end of the stream.
    ///
    /// # Errors
    ///
    /// The kept fault, or Truncated where the stream ends inside a message or a block, which is kept from then on.
    pub fn finish(&mut self) -> Result<(), TapeFault>
        ensures ok { OnOk result ((self.new ≡ self.old) × ((fed : List ℕ) (messages waiting : List Content)
            → Reads self.old fed messages waiting
            → Carries (mode_of self.old.machine) (templates_in self.old.machine.traversal.set.now) fed messages)) }
        ensures refused { IfErr result (λ f. (fault_kept self.new ≡ Some f) × (f ≢ TapeFault.StreamTooLong)) }
        ensures reads { (fed : List ℕ) (messages waiting : List Content)
            → Reads self.old fed messages waiting → Reads self.new fed messages waiting }
        ensures same { IsSameStream self.old.machine self.new.machine }
    {
        match self.machine.finish() {
            Ok(()) => Ok(()),
            Err(fault) => Err(told_as(fault, self.machine.receiver.is_too_large())),
        }
    }

    /// Begins a new stream, as that of the next packet, with all entries undefined; what waits stays. Fails for no want of
    /// memory.
    pub fn begin_packet(&mut self)
        ensures fault { self.new.machine.fault ≡ None }
        ensures fed { self.new.machine.fed ≡ 0 }
        ensures undefined { E.contents self.new.machine.entries ≡ finite.empty }
        ensures reads { (waiting : List Content) → HoldsWaiting self.old waiting → Reads self.new [] [] waiting }
        ensures same { IsSameStream self.old.machine self.new.machine }
    {
        let machine = &mut self.machine;
        machine.receiver.forget_open();
        machine.reset();
    }

    /// Reads a packet, which is a stream of its own: all entries are undefined at its beginning. Its messages wait behind those
    /// that wait. Answers how many of its bytes were taken: where they are fewer than it has, as `feed` has it, the rest is then
    /// fed and the packet ended by `finish`.
    ///
    /// # Errors
    ///
    /// As `feed` and `finish` have them.
    pub fn packet(&mut self, bytes: &[u8]) -> Result<usize, TapeFault>
        ensures reads { (waiting : List Content) → HoldsWaiting self.old waiting
            → (ended : List Content) × Reads self.new (taken_of result bytes.now) ended (waiting ++ ended) }
        ensures whole { IfOk result (λ n. n ≡ length bytes.now → (messages waiting : List Content)
            → Reads self.new bytes.now messages waiting
            → Carries (mode_of self.new.machine) (templates_in self.new.machine.traversal.set.now) bytes.now messages) }
        ensures refused { IfErr result (λ f. f ≢ TapeFault.StreamTooLong → fault_kept self.new ≡ Some f) }
        ensures too_long { (result ≡ Err TapeFault.StreamTooLong) ↔ (stream_limit < length bytes.now) }
        ensures within { IfOk result (λ n. n ≤ length bytes.now) }
        ensures stops { IfOk result (λ n. n < length bytes.now → is_full self.new.machine.receiver ≡ true) }
        ensures same { IsSameStream self.old.machine self.new.machine }
    {
        self.begin_packet();
        let taken = self.feed(bytes)?;
        if taken == bytes.len() {
            self.finish()?;
        }
        Ok(taken)
    }

    /// Begins a new stream, with all entries undefined; what waits is forgotten. Fails for no want of memory.
    pub fn reset(&mut self)
        ensures fault { self.new.machine.fault ≡ None }
        ensures fed { self.new.machine.fed ≡ 0 }
        ensures undefined { E.contents self.new.machine.entries ≡ finite.empty }
        ensures reads { Reads self.new [] [] [] }
        ensures same { IsSameStream self.old.machine self.new.machine }
    {
        let machine = &mut self.machine;
        machine.receiver.forget();
        machine.receiver.forget_open();
        machine.reset();
    }
}
