//! The calls of a machine.

ghost use Rattle.std.specs.Prelude.{◌≡◌, ◌≢◌, ◌≤◌, ◌<◌, ◌+◌, ◌*◌, ◌-◌, ◌^◌, ◌++◌, ◌⊎◌, [], ℕ, true, false, List, None, Some, Err, OnOk, OnErr, IfOk, IfErr, IfSome, IfNone, length, take, drop, map, vec_capacity, vec_len};
ghost use Rattle.std.specs.FinMap as finite;
ghost use Rattle.fast_template.specs.TemplateSets.{IsSound, templates_in};
ghost use Rattle.fast_stream.specs.Nodes.{Content};
ghost use Rattle.fast_stream.specs.Blocks.{size_at};
ghost use Rattle.fast_stream.specs.Modes.{Carries};
ghost use Rattle.fast_walk.specs.declared.traversal.Stage.TheVariants as stage;
ghost use Rattle.fast_walk.specs.Lacks.{AreUnstopped, Lacks};
ghost use Rattle.fast_walk.specs.Traversals.{CanGoOn, ServesAll, begun_of};
ghost use Rattle.fast_machine.specs.Calls.{AnswersNone, FollowsAll, FollowsOn, FollowsTaken, FollowsWaiting, HoldsNothing, IsBehind, IsFault, IsFaultOf, IsSameStream, KeepsFault, ReadsNext, StandsAt, StaysAt, StillFollows};
ghost use Rattle.fast_machine.specs.Following.{Counts, IsHeld, Refused};
ghost use Rattle.fast_machine.specs.Progress.{IsUnended};
ghost use Rattle.fast_stream.specs.declared.fault.Fault.{Fault as FaultOf};
ghost use Rattle.fast_machine.specs.Runs.{Retains};

use crate::blocks::{open_block, within};
use crate::machine::Machine;
use crate::messages::{read_if_any, read_messages};
use fast_dictionary::Entries;
use fast_stream::{Cause, Fault, Framing, Mode, Place};
use fast_template::TemplateSet;
use fast_walk::{Halt, HaltedBy, Lack, Receiver, Traversal, has_stop};
use std::alloc::{AllocError, Global};
use std::mem;

/// The most bytes that are held.
const HELD_LIMIT: usize = 65_554;

// A fault of a piece of which so many of the bytes fed are left, in the message behind so many.
fn fault_at(
    cause: Cause,
    messages: u64,
    fed: u64,
    left: usize,
    template: u32,
    instruction: u32,
) -> Fault
    ensures { IsFault result cause messages (fed - left) template instruction }
{
    let place = Place {
        message: messages.saturating_add(1),
        offset: fed.saturating_sub(left as u64),
        template,
        instruction,
    };
    Fault { cause, place }
}

// The fault that a halt is. Want of memory has no place but the message.
fn fault_of(halt: Halt, messages: u64, fed: u64, left: usize, template: u32) -> Fault
    ensures cause { result.cause ≡ halt.cause }
    ensures refused { IsFaultOf halt messages fed left template result }
{
    match halt.cause {
        Cause::Memory => fault_at(Cause::Memory, messages, 0, 0, 0, 0),
        cause => fault_at(cause, messages, fed, left, template, halt.number),
    }
}

// Puts these bytes behind others, however many they are.
#[inline(never)]
fn append_many(bytes: &mut Vec<u8>, chunk: &[u8]) -> Result<(), AllocError>
    ensures items { OnOk result (bytes.new.items ≡ bytes.old.items ++ chunk.now) }
    ensures same { OnErr result (bytes.new.items ≡ bytes.old.items) }
    ensures room { OnErr result (vec_capacity bytes.old < vec_len bytes.old + length chunk.now) }
{
    bytes.extend_from_slice(chunk)
}

// Puts these bytes behind others. (Where few come at a time, they are often one.)
#[inline(always)]
fn append(bytes: &mut Vec<u8>, chunk: &[u8]) -> Result<(), AllocError>
    ensures items { OnOk result (bytes.new.items ≡ bytes.old.items ++ chunk.now) }
    ensures same { OnErr result (bytes.new.items ≡ bytes.old.items) }
    ensures room { OnErr result (vec_capacity bytes.old < vec_len bytes.old + length chunk.now) }
{
    match chunk {
        [byte] => {
            bytes.push(*byte)?;
            Ok(())
        }
        _ => append_many(bytes, chunk),
    }
}

// Where no bytes are held, keeps the memory of these, which were, for those of the next piece; not where they are more
// than are ever held.
#[inline(always)]
fn hold_in(held: &mut Vec<u8>, bytes: Vec<u8>)
    ensures { held.new.items ≡ held.old.items }
{
    let mut bytes = bytes;
    if held.is_empty() && bytes.len() <= HELD_LIMIT {
        bytes.clear();
        *held = bytes;
    }
}

impl<'a, R: Receiver, E: Entries> Machine<'a, R, E> {
    ghost use Rattle.fast_machine.specs.Following.{Answers, Follows, IsCutAt, mode_of};
    ghost use Rattle.fast_machine.specs.Progress.{HasRefused};

    /// A machine over a set, at the beginning of a stream. The entries are reset. Takes no memory.
    #[tactic(auto, using(crate::proofs::Calls::kept_first))]
    pub fn new(
        alloc: Global,
        set: &'a TemplateSet,
        mode: Mode,
        receiver: R,
        entries: E,
    ) -> Machine<'a, R, E>
        requires { ServesAll (E.serves entries) set.now }
        ensures set { result.traversal.set.now ≡ set.now }
        ensures mode { mode_of result ≡ mode }
        ensures fault { result.fault ≡ None }
        ensures receiver { result.receiver ≡ receiver }
        ensures fed { result.fed ≡ 0 }
        ensures sound { IsSound set.now }
        ensures undefined { E.contents result.entries ≡ finite.empty }
        ensures follows { (before : List Content)
            → R.stands receiver (templates_in set.now) before finite.empty
            → Follows result before [] [] }
    {
        let mut entries = entries;
        entries.reset();
        let traversal = Traversal::new(alloc, set, mode.level);
        traversal.set_is_sound();
        Machine {
            alloc,
            traversal,
            framing: mode.framing,
            receiver,
            entries,
            held: Vec::new(alloc),
            waiting: 0,
            end: 0,
            until_stop: false,
            left: 0,
            fault: None,
            halted_by: HaltedBy::Walk,
            fed: 0,
            messages: 0,
        }
    }

    /// The fault that is kept, if there is one.
    pub fn fault(&self) -> Option<Fault>
        ensures { result ≡ self.now.fault }
    {
        self.fault
    }

    /// Whether the fault that is kept is want of memory for what the receiver or the entries asked for, and not the
    /// machine itself.
    pub fn receiver_refused(&self) -> bool
        ensures yes { result ≡ true → HasRefused self.now }
        ensures no { result ≡ false → HasRefused self.now → ⊥ }
    {
        match self.fault {
            None => false,
            Some(fault) => fault.cause == Cause::Memory && self.halted_by == HaltedBy::Receiver,
        }
    }

    /// How many messages ended since the reset, before a fault.
    pub fn messages(&self) -> u64
        ensures { result ≡ self.now.messages }
    {
        self.messages
    }

    /// How many bytes were fed since the reset, up to the end of the chunk that has the first fault.
    pub fn fed(&self) -> u64
        ensures { result ≡ self.now.fed }
    {
        self.fed
    }

    /// How many of the bytes fed belong to no finished piece, at most 65,554; 0 after a fault.
    pub fn held(&self) -> usize
        ensures held { result ≡ length self.now.held.items }
        ensures bounded { result ≤ 65554 }
        ensures fault { IfSome self.now.fault (λ f. result ≡ 0) }
        ensures waits { self.now.fault ≡ None → (before : List Content) (fed : List ℕ)
            (messages : List Content) → Follows self.now before fed messages
            → IsHeld (mode_of self.now) (templates_in self.now.traversal.set.now) fed
            self.now.fed result }
    {
        self.traversal.set_is_sound();
        self.held.len()
    }

    /// Tells a proof what the machine follows, in words of the stream alone: while it has no fault, the bytes fed carry
    /// the messages told of them and at most a front of one more; and where it has one, they are refused behind the
    /// messages. Does nothing.
    pub fn tell_progress(&self)
        ensures unended { self.now.fault ≡ None → (before : List Content) (fed : List ℕ)
            (messages : List Content) → Follows self.now before fed messages
            → IsUnended (mode_of self.now) (templates_in self.now.traversal.set.now) fed messages }
        ensures refused { (fault : FaultOf) → self.now.fault ≡ Some fault → (before : List Content)
            (fed : List ℕ) (messages : List Content) → Follows self.now before fed messages
            → Refused fault (mode_of self.now) (templates_in self.now.traversal.set.now) fed messages }
    {
        self.traversal.set_is_sound();
    }

    // Keeps a fault of a piece of which so many bytes are left.
    fn keep(&mut self, cause: Cause, number: u32, left: usize) -> Fault
        ensures fault { IsFault result cause self.old.messages (self.old.fed - left) self.old.traversal.template number }
        ensures keeps { KeepsFault self.old result self.new }
    {
        let template = self.traversal.template();
        let fault = fault_at(cause, self.messages, self.fed, left, template, number);
        self.fault = Some(fault);
        self.halted_by = HaltedBy::Walk;
        self.end = 0;
        self.held.clear();
        self.receiver.back(self.alloc);
        fault
    }

    // Keeps that memory was refused.
    fn refuse(&mut self) -> Fault
        ensures fault { IsFault result Cause.Memory self.old.messages 0 0 0 }
        ensures keeps { KeepsFault self.old result self.new }
    {
        let fault = fault_at(Cause::Memory, self.messages, 0, 0, 0, 0);
        self.fault = Some(fault);
        self.halted_by = HaltedBy::Walk;
        self.end = 0;
        self.held.clear();
        self.receiver.back(self.alloc);
        fault
    }

    // Knows what the piece lacks that is not whole, behind the bytes that are held.
    #[tactic(auto, using(crate::proofs::Ends::long_of))]
    #[inline(always)]
    fn know(&mut self, lack: Lack)
        requires unknown { self.now.end ≡ 0 }
        requires lacks { Lacks self.now.traversal (E.contents self.now.entries) self.now.held.items lack }
        ensures follows { StillFollows self.old self.new }
        ensures fault { self.new.fault ≡ self.old.fault }
        ensures receiver { self.new.receiver ≡ self.old.receiver }
        ensures stays { StaysAt self.old self.new }
    {
        let held = self.held.len();
        if lack.number == self.waiting && lack.most < HELD_LIMIT - held {
            self.until_stop = lack.until_stop;
            self.end = held + lack.most + 1;
        }
    }

    // Keeps the bytes of the piece that is not whole, of the instruction whose number is kept; no message ends in them.
    #[inline(never)]
    fn hold_some(&mut self, rest: &[u8]) -> Result<Option<usize>, Fault>
        requires nothing { HoldsNothing self.now }
        requires few { length rest.now ≤ 65554 }
        ensures follows { FollowsWaiting self.old rest.now self.old.waiting self.new }
        ensures answer { AnswersNone result self.new.fault }
        ensures stays { StaysAt self.old self.new }
    {
        match append(&mut self.held, rest) {
            Err(_) => Err(self.refuse()),
            Ok(()) => {
                if let Some(lack) = self.traversal.lack(&self.entries, &self.held) {
                    self.know(lack);
                }
                Ok(None)
            }
        }
    }

    // Keeps the bytes of the piece that is not whole, of the instruction with this number.
    #[inline(always)]
    fn hold(&mut self, number: u32, rest: &[u8]) -> Result<Option<usize>, Fault>
        requires nothing { HoldsNothing self.now }
        requires few { length rest.now ≤ 65554 }
        ensures follows { FollowsWaiting self.old rest.now number self.new }
        ensures answer { AnswersNone result self.new.fault }
        ensures stays { StaysAt self.old self.new }
    {
        self.waiting = number;
        // (nothing has come of the next piece, mostly)
        if rest.is_empty() {
            return Ok(None);
        }
        self.hold_some(rest)
    }

    /// Whether the piece that is not whole, or that begins here, lacks more than these bytes, in the same block, so that they
    /// need only be held.
    #[inline(always)]
    pub fn lacks_more(&self, chunk: &[u8]) -> bool
        ensures few { result ≡ true → length (self.now.held.items ++ chunk.now) < self.now.end }
        ensures unstopped { result ≡ true → self.now.until_stop ≡ true → AreUnstopped chunk.now }
        ensures room { result ≡ true → self.now.framing ≡ Framing.Blocks
            → length (self.now.held.items ++ chunk.now) < self.now.left }
    {
        let count = self.held.len() + chunk.len();
        let fits = match self.framing {
            Framing::Plain => count < self.end,
            Framing::Blocks => count < self.end && (count as u128) < self.left,
        };
        fits && !(self.until_stop && has_stop(chunk))
    }

    /// Takes the next bytes of the stream, where the piece lacks more than these (`lacks_more`): they are held, and nothing
    /// is read.
    ///
    /// # Errors
    ///
    /// As `feed`: memory for them was refused.
    #[tactic(auto, using(crate::proofs::Ends::long_behind))]
    #[inline(always)]
    pub fn hold_on(&mut self, chunk: &[u8]) -> Result<(), Fault>
        requires fault { self.now.fault ≡ None }
        requires size { self.now.fed + length chunk.now ≤ 2 ^ 60 }
        requires few { length (self.now.held.items ++ chunk.now) < self.now.end }
        requires unstopped { self.now.until_stop ≡ true → AreUnstopped chunk.now }
        requires room { self.now.framing ≡ Framing.Blocks
            → length (self.now.held.items ++ chunk.now) < self.now.left }
        ensures follows { FollowsOn self.old chunk.now self.new }
        ensures answer { Answers result self.new.fault }
        ensures cause { IfErr result (λ f. f.cause ≡ Cause.Memory) }
        ensures traversal { self.new.traversal ≡ self.old.traversal }
        ensures entries { self.new.entries ≡ self.old.entries }
        ensures framing { self.new.framing ≡ self.old.framing }
        ensures fed { self.new.fed ≡ self.old.fed + length chunk.now }
    {
        self.fed += chunk.len() as u64;
        // (the piece's end stays where it is known to be)
        match append(&mut self.held, chunk) {
            Err(_) => Err(self.refuse()),
            Ok(()) => Ok(()),
        }
    }

    /// What a piece lacks behind these bytes, with which it begins, in the same block: the stop bit of its first entity, or
    /// what goes on behind that where it comes alone. (A number that is whole is read at once.) None where that is not known.
    #[inline(always)]
    pub fn first_lacking(&self, chunk: &[u8]) -> Option<Lack>
        requires fault { self.now.fault ≡ None }
        ensures lacks { IfSome result (Lacks self.now.traversal (E.contents self.now.entries) (self.now.held.items ++ chunk.now)) }
        ensures few { IfSome result (λ l. length (self.now.held.items ++ chunk.now) ≤ 65554) }
        ensures room { IfSome result (λ l. self.now.framing ≡ Framing.Blocks
            → length (self.now.held.items ++ chunk.now) < self.now.left) }
    {
        if !self.held.is_empty() {
            return None;
        }
        // (between messages nothing is known)
        if !self.traversal.has_begun() {
            return None;
        }
        let count = chunk.len();
        let fits = match self.framing {
            Framing::Plain => count <= HELD_LIMIT,
            Framing::Blocks => count <= HELD_LIMIT && (count as u128) < self.left,
        };
        if !fits {
            return None;
        }
        // (where these bytes do not end its first entity)
        if !has_stop(chunk) {
            return match self.traversal.opening() {
                Some(lack) if count <= lack.most => Some(Lack {
                    most: lack.most - count,
                    number: lack.number,
                    until_stop: true,
                }),
                _ => None,
            };
        }
        match chunk {
            [_] => self.traversal.lack_of_rest(&self.entries, chunk),
            _ => None,
        }
    }

    /// Takes the next bytes of the stream, behind which the piece that is not whole still lacks some, as `first_lacking`
    /// answers: they are held, and nothing is read.
    ///
    /// # Errors
    ///
    /// As `feed`: memory for them was refused.
    #[inline(always)]
    pub fn feed_lacking(&mut self, lack: Lack, chunk: &[u8]) -> Result<(), Fault>
        requires fault { self.now.fault ≡ None }
        requires size { self.now.fed + length chunk.now ≤ 2 ^ 60 }
        requires lacks { Lacks self.now.traversal (E.contents self.now.entries) (self.now.held.items ++ chunk.now) lack }
        requires few { length (self.now.held.items ++ chunk.now) ≤ 65554 }
        requires room { self.now.framing ≡ Framing.Blocks
            → length (self.now.held.items ++ chunk.now) < self.now.left }
        ensures follows { FollowsOn self.old chunk.now self.new }
        ensures answer { Answers result self.new.fault }
        ensures cause { IfErr result (λ f. f.cause ≡ Cause.Memory) }
        ensures traversal { self.new.traversal ≡ self.old.traversal }
        ensures entries { self.new.entries ≡ self.old.entries }
        ensures framing { self.new.framing ≡ self.old.framing }
        ensures fed { self.new.fed ≡ self.old.fed + length chunk.now }
    {
        self.fed += chunk.len() as u64;
        self.end = 0;
        match append(&mut self.held, chunk) {
            Err(_) => Err(self.refuse()),
            Ok(()) => {
                self.waiting = lack.number;
                self.know(lack);
                Ok(())
            }
        }
    }

    // Reads on in these bytes of plain framing, where none are held, to the end of a message at most, and answers
    // the place behind it; none where they are all read or held.
    #[inline(always)]
    fn read_plain(&mut self, bytes: &[u8]) -> Result<Option<usize>, Fault>
        requires nothing { HoldsNothing self.now }
        requires framing { self.now.framing ≡ Framing.Plain }
        requires few { length bytes.now ≤ 2 ^ 61 }
        requires some { (0 < length bytes.now) ⊎ (begun_of self.now.traversal ≡ 1) }
        ensures reads { ReadsNext Framing.Plain self.old bytes.now result self.new }
        ensures place { IfOk result (λ o. IfSome o (λ n. IsBehind self.old bytes.now n self.new)) }
        ensures same { IsSameStream self.old self.new }
        ensures fed { self.new.fed ≡ self.old.fed }
    {
        let progress = read_messages(
            self.alloc,
            &mut self.traversal,
            &mut self.receiver,
            &mut self.entries,
            bytes,
        );
        self.messages = self.messages.saturating_add(progress.messages);
        let rest = &bytes[progress.at..];
        let template = self.traversal.template();
        match progress.halt {
            None => Ok(Some(progress.at)),
            Some(halt) => match halt.cause {
                Cause::Truncated => self.hold(halt.number, rest),
                _ => {
                    let fault = fault_of(halt, self.messages, self.fed, rest.len(), template);
                    self.fault = Some(fault);
                    self.halted_by = halt.by;
                    Err(fault)
                }
            },
        }
    }

    // Reads on in the block that the bytes go on with, or begin with, to the end of one of its messages at most, and answers
    // the place behind it; none where they are all read or held.
    fn read_block(&mut self, bytes: &[u8]) -> Result<Option<usize>, Fault>
        requires nothing { HoldsNothing self.now }
        requires framing { self.now.framing ≡ Framing.Blocks }
        requires few { length bytes.now ≤ 2 ^ 61 }
        requires some { (0 < length bytes.now) ⊎ (begun_of self.now.traversal ≡ 1) }
        ensures reads { ReadsNext Framing.Blocks self.old bytes.now result self.new }
        ensures place { IfOk result (λ o. IfSome o (λ n. IsBehind self.old bytes.now n self.new)) }
        ensures same { IsSameStream self.old self.new }
        ensures fed { self.new.fed ≡ self.old.fed }
    {
        let (left, at) = match open_block(self.traversal.level(), self.left, bytes) {
            Ok(opened) => opened,
            // the size stops: it is held where it is not whole, or its fault is kept
            Err(cause) => {
                self.traversal.set_is_sound();
                return match cause {
                    Cause::Truncated => self.hold(0, bytes),
                    _ => Err(self.keep(cause, 0, bytes.len())),
                };
            }
        };
        let room = within(left, bytes.len() - at);
        let progress = read_if_any(
            self.alloc,
            &mut self.traversal,
            &mut self.receiver,
            &mut self.entries,
            &bytes[at..at + room],
        );
        self.messages = self.messages.saturating_add(progress.messages);
        self.left = left - progress.at as u128;
        let at = at + progress.at;
        let rest = &bytes[at..];
        let template = self.traversal.template();
        match progress.halt {
            None => Ok(Some(at)),
            Some(halt) => match halt.cause {
                Cause::Truncated => {
                    // more is wanted than the block has, all of which has come
                    if self.left <= rest.len() as u128 {
                        return Err(self.keep(Cause::BlockEnd, halt.number, rest.len()));
                    }
                    self.hold(halt.number, rest)
                }
                _ => {
                    let fault = fault_of(halt, self.messages, self.fed, rest.len(), template);
                    self.fault = Some(fault);
                    self.halted_by = halt.by;
                    Err(fault)
                }
            },
        }
    }

    // Reads on in these bytes, where none are held, to the end of a message at most, and answers the place behind
    // it; none where they are all read or held.
    #[inline(always)]
    fn read(&mut self, bytes: &[u8]) -> Result<Option<usize>, Fault>
        requires nothing { HoldsNothing self.now }
        requires few { length bytes.now ≤ 2 ^ 61 }
        requires some { (0 < length bytes.now) ⊎ (begun_of self.now.traversal ≡ 1) }
        ensures reads { ReadsNext self.old.framing self.old bytes.now result self.new }
        ensures place { IfOk result (λ o. IfSome o (λ n. IsBehind self.old bytes.now n self.new)) }
        ensures same { IsSameStream self.old self.new }
        ensures fed { self.new.fed ≡ self.old.fed }
    {
        match self.framing {
            Framing::Plain => self.read_plain(bytes),
            Framing::Blocks => self.read_block(bytes),
        }
    }

    // Reads on in these bytes, behind those that are held, to the end of a message at most, and answers the place
    // behind it, from the first of those held on; none where they are all read or held.
    #[inline(always)]
    fn read_behind(&mut self, chunk: &[u8]) -> Result<Option<usize>, Fault>
        requires fault { self.now.fault ≡ None }
        requires few { length chunk.now ≤ 2 ^ 60 }
        requires some { 0 < length chunk.now }
        ensures reads { ReadsNext self.old.framing self.old (self.old.held.items ++ chunk.now) result self.new }
        ensures place { IfOk result (λ o. IfSome o (λ n. IsBehind self.old (self.old.held.items ++ chunk.now) n self.new)) }
        ensures same { IsSameStream self.old self.new }
        ensures fed { self.new.fed ≡ self.old.fed }
    {
        self.end = 0;
        if self.held.is_empty() {
            return self.read(chunk);
        }
        let mut bytes = mem::replace(&mut self.held, Vec::new(self.alloc));
        match append(&mut bytes, chunk) {
            Err(_) => Err(self.refuse()),
            Ok(()) => {
                let next = self.read(&bytes)?;
                hold_in(&mut self.held, bytes);
                Ok(next)
            }
        }
    }

    // Takes the next bytes of the stream as `feed_messages` does, and does not ask what is lacking behind them.
    #[inline(always)]
    fn take_messages(&mut self, chunk: &[u8]) -> Result<usize, Fault>
        requires room { self.now.fed + length chunk.now ≤ 2 ^ 60 }
        requires fault { self.now.fault ≡ None }
        requires some { 0 < length chunk.now }
        ensures taken { IfOk result (λ n. (0 < n) × (n ≤ length chunk.now)) }
        ensures follows { self.old.fault ≡ None → FollowsTaken self.old chunk.now result self.new }
        ensures open { IfOk result (λ n. self.new.fault ≡ None) }
        ensures refused { IfErr result (λ f. self.new.fault ≡ Some f) }
        ensures cause { self.old.fault ≡ None → IfErr result (λ f. f.cause ≢ Cause.Truncated) }
        ensures same { IsSameStream self.old self.new }
        ensures fed { self.old.fault ≡ None → IfOk result (λ n. self.new.fed ≡ self.old.fed + n)
            × IfErr result (λ f. self.new.fed ≡ self.old.fed + length chunk.now) }
    {
        self.traversal.set_is_sound();
        self.fed += chunk.len() as u64;
        let held = self.held.len();
        match self.read_behind(chunk)? {
            None => Ok(chunk.len()),
            Some(next) => {
                // (a message ends behind the bytes that were held, since no piece was whole in these)
                let taken = next.saturating_sub(held).max(1).min(chunk.len());
                // (the bytes behind it are not fed yet)
                self.fed -= (chunk.len() - taken) as u64;
                self.waiting = 0;
                Ok(taken)
            }
        }
    }

    /// Takes the next bytes of the stream, up to the end of a message behind which the receiver is full, if there is one, or of a
    /// block; answers how many they are: all of them where no message ends in them.
    ///
    /// # Errors
    ///
    /// As `feed`, and all of the bytes are fed.
    pub fn feed_messages(&mut self, chunk: &[u8]) -> Result<usize, Fault>
        requires room { self.now.fed + length chunk.now ≤ 2 ^ 60 }
        requires some { 0 < length chunk.now }
        ensures kept { IfSome self.old.fault (λ f. (result ≡ Err f) × (self.new ≡ self.old)) }
        ensures taken { IfOk result (λ n. (0 < n) × (n ≤ length chunk.now)) }
        ensures follows { self.old.fault ≡ None → FollowsTaken self.old chunk.now result self.new }
        ensures open { IfOk result (λ n. self.new.fault ≡ None) }
        ensures refused { IfErr result (λ f. self.new.fault ≡ Some f) }
        ensures cause { self.old.fault ≡ None → IfErr result (λ f. f.cause ≢ Cause.Truncated) }
        ensures same { IsSameStream self.old self.new }
        ensures fed { self.old.fault ≡ None → IfOk result (λ n. self.new.fed ≡ self.old.fed + n)
            × IfErr result (λ f. self.new.fed ≡ self.old.fed + length chunk.now) }
    {
        if let Some(first) = self.fault {
            return Err(first);
        }
        if self.lacks_more(chunk) {
            self.hold_on(chunk)?;
            return Ok(chunk.len());
        }
        if let Some(lack) = self.first_lacking(chunk) {
            self.feed_lacking(lack, chunk)?;
            return Ok(chunk.len());
        }
        self.take_messages(chunk)
    }

    /// Takes the next bytes of the stream as `feed` does, of which was asked what they lack (`lacks_more`, `first_lacking`):
    /// it is not asked again.
    ///
    /// # Errors
    ///
    /// As `feed`.
    #[inline(always)]
    pub fn feed_on(&mut self, chunk: &[u8]) -> Result<(), Fault>
        requires room { self.now.fed + length chunk.now ≤ 2 ^ 60 }
        requires fault { self.now.fault ≡ None }
        ensures follows { self.old.fault ≡ None → FollowsAll self.old chunk.now self.new }
        ensures answer { Answers result self.new.fault }
        ensures cause { self.old.fault ≡ None → IfErr result (λ f. f.cause ≢ Cause.Truncated) }
        ensures same { IsSameStream self.old self.new }
        ensures fed { self.old.fault ≡ None → self.new.fed ≡ self.old.fed + length chunk.now }
    {
        let mut at = 0;
        'messages: while at < chunk.len() {
            at += self.take_messages(&chunk[at..])?;
        }
        Ok(())
    }

    /// Takes the next bytes of the stream. The receiver has each message that they end.
    ///
    /// # Errors
    ///
    /// The first fault of the bytes fed since the reset, behind the messages that ended, or the refusal of memory
    /// behind these. It is kept until the reset.
    pub fn feed(&mut self, chunk: &[u8]) -> Result<(), Fault>
        requires room { self.now.fed + length chunk.now ≤ 2 ^ 60 }
        ensures kept { IfSome self.old.fault (λ f. (result ≡ Err f) × (self.new ≡ self.old)) }
        ensures follows { self.old.fault ≡ None → FollowsAll self.old chunk.now self.new }
        ensures answer { Answers result self.new.fault }
        ensures cause { self.old.fault ≡ None → IfErr result (λ f. f.cause ≢ Cause.Truncated) }
        ensures same { IsSameStream self.old self.new }
        ensures fed { self.old.fault ≡ None → self.new.fed ≡ self.old.fed + length chunk.now }
    {
        if let Some(kept) = self.fault {
            return Err(kept);
        }
        if self.lacks_more(chunk) {
            return self.hold_on(chunk);
        }
        if let Some(lack) = self.first_lacking(chunk) {
            return self.feed_lacking(lack, chunk);
        }
        self.feed_on(chunk)
    }

    /// The end of the stream.
    ///
    /// # Errors
    ///
    /// The kept fault, or Truncated where the stream ends inside a message or a block, which is kept from then on.
    pub fn finish(&mut self) -> Result<(), Fault>
        ensures kept { IfSome self.old.fault (λ f. (result ≡ Err f) × (self.new ≡ self.old)) }
        ensures ok { OnOk result ((self.new ≡ self.old) × ((before : List Content) (fed : List ℕ)
            (messages : List Content) → Follows self.old before fed messages
            → Carries (mode_of self.old) (templates_in self.old.traversal.set.now) fed messages)) }
        ensures truncated { self.old.fault ≡ None → IfErr result (λ f. (f.cause ≡ Cause.Truncated)
            × ((before : List Content) (fed : List ℕ) (messages : List Content)
            → Follows self.old before fed messages → Follows self.new before fed messages)) }
        ensures left { Retains R.stands R.keeps self.old.receiver self.new.receiver }
        ensures answer { Answers result self.new.fault }
        ensures same { IsSameStream self.old self.new }
        ensures fed { self.new.fed ≡ self.old.fed }
    {
        if let Some(fault) = self.fault {
            return Err(fault);
        }
        self.traversal.set_is_sound();
        let waiting = self.waiting;
        let held = self.held();
        if self.traversal.has_begun() || held > 0 || self.left > 0 {
            return Err(self.keep(Cause::Truncated, waiting, held));
        }
        Ok(())
    }

    /// The fault of a stream of which no more bytes come for this cause: where the next piece would begin.
    pub fn cut(&mut self, cause: Cause) -> Fault
        ensures cause { result.cause ≡ cause }
        ensures place { self.old.fault ≡ None → (before : List Content) (fed : List ℕ)
            (messages : List Content) → Follows self.old before fed messages
            → IsCutAt (mode_of self.old) (templates_in self.old.traversal.set.now) fed
            messages result.place }
        ensures kept { IfSome self.old.fault (λ f. self.new ≡ self.old) }
        ensures follows { self.old.fault ≡ None → StillFollows self.old self.new }
        ensures left { Retains R.stands R.keeps self.old.receiver self.new.receiver }
        ensures same { IsSameStream self.old self.new }
        ensures fed { self.new.fed ≡ self.old.fed }
    {
        let place = match self.finish() {
            Err(fault) => fault.place,
            Ok(()) => Place {
                message: self.messages.saturating_add(1),
                offset: self.fed,
                template: 0,
                instruction: 0,
            },
        };
        Fault { cause, place }
    }

    /// Begins a new stream, with all entries undefined; the receiver stays. Fails for no want of memory.
    #[tactic(auto, using(crate::proofs::Calls::kept_first))]
    pub fn reset(&mut self)
        ensures same { IsSameStream self.old self.new }
        ensures fault { self.new.fault ≡ None }
        ensures fed { self.new.fed ≡ 0 }
        ensures receiver { self.new.receiver ≡ self.old.receiver }
        ensures undefined { E.contents self.new.entries ≡ finite.empty }
        ensures follows { (before : List Content)
            → R.stands self.old.receiver (templates_in self.old.traversal.set.now) before
            finite.empty → Follows self.new before [] [] }
    {
        self.receiver.reset_entries(&mut self.entries);
        self.traversal.reset();
        self.held.clear();
        self.waiting = 0;
        self.end = 0;
        self.left = 0;
        self.fault = None;
        self.fed = 0;
        self.messages = 0;
    }
}
