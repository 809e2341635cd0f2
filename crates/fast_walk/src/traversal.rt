//! The one traversal of a stream, message by message.

ghost use Rattle.std.specs.Prelude.{◌≡◌, ◌≢◌, ◌≤◌, ◌<◌, true, OnErr, IfErr, MatchResult, OnOk, Err, length, drop};
ghost use Rattle.std.proofs.Props.{props};
ghost use Rattle.std.specs.Coded.{codes};
ghost use Rattle.std.specs.List.{AllByRecursion-prop};
ghost use Rattle.fast_template.specs.contracts.resolved.Flat as flat;
ghost use Rattle.fast_template.specs.TemplateSets.{IsSound, templates_in};
ghost use Rattle.fast_dictionary.specs.Dictionary.{Dictionary};
ghost use Rattle.fast_stream.specs.Streams.{identifier as identifier_part};
ghost use Rattle.fast_stream.specs.Reading.{message_at};
ghost use Rattle.fast_wire.specs.Level.{IsLeftClear, some_set};
ghost use Rattle.fast_walk.specs.Walks.{IsWhole};
ghost use Rattle.fast_walk.specs.Received.{Carries, Completes};
ghost use Rattle.fast_walk.specs.Found.{AreFound};
ghost use Rattle.fast_walk.specs.Awaited.{IsAwaited};

use crate::bits::{first_for, read_own_map};
use crate::halt::Halt;
use crate::last::Last;
use crate::receiver::Receiver;
use crate::walk::{Walk, part_halt};
use fast_dictionary::Entries;
use fast_stream::Cause;
use fast_template::{FieldPart, Key, Kind, Name, Operator, Part, Presence, Scope, TemplateSet};
use fast_wire::{Bits, Level};
use std::alloc::Global;

/// The most nodes of a message.
const NODE_LIMIT: u32 = 65_536;

/// What is next: a message's map, its identifier, or a piece of its body.
#[derive(Clone, Copy, Debug, PartialEq, Eq)]
pub enum Stage {
    Map,
    Identifier,
    Body,
}

/// A traversal of a stream of messages of one template set.
///
/// It can stop behind each piece. It keeps which segments are open and no bytes; what is read of them its receiver
/// has.
#[derive(Drop)]
pub struct Traversal<'a> {
    pub(crate) alloc: Global,
    set: &'a TemplateSet,
    pub(crate) level: Level,
    identifier: FieldPart,
    pub(crate) stage: Stage,
    // 0 until the identifier is known
    template: u32,
    last: Last<'a>,
    pub(crate) walk: Walk<'a>,
    ghost identifier_is: { identifier ≡ identifier_part },
    ghost found: { AreFound set.now last.found } by { AllByRecursion-prop _ (λ f. Prim.hlevel (props, codes, flat.the_row.coded)) last.found },
}

impl<'a> Traversal<'a> {
    ghost use Rattle.fast_walk.specs.Messages.{CanRead, IsSameSet, IsStep, MapRead, MessageStops, ReadsMessage};
    ghost use Rattle.fast_walk.specs.Traversals.{ServesAll, begun_of, stop_of};

    /// At the beginning of a stream. Takes no memory.
    pub fn new(alloc: Global, set: &'a TemplateSet, level: Level) -> Traversal<'a>
        ensures set { result.set.now ≡ set.now }
        ensures level { result.level ≡ level }
        ensures stage { result.stage ≡ Stage.Map }
        ensures template { result.template ≡ 0 }
    {
        Traversal {
            alloc,
            set,
            level,
            identifier: FieldPart {
                number: 0,
                part: Part::Whole,
                kind: Kind::UInt32,
                presence: Presence::Mandatory,
                operator: Operator::Copy,
                key: Key {
                    slot: 0,
                    scope: Scope::Global,
                    name: Name::empty(),
                    part: Part::Whole,
                },
                initial: None,
            },
            stage: Stage::Map,
            template: 0,
            last: Last::new(set),
            walk: Walk::new(alloc, &[], Bits::none(alloc), 0),
        }
    }

    /// The identifier of the open message's template; 0 until it is known, and between messages.
    pub fn template(&self) -> u32
        ensures { result ≡ self.now.template }
    {
        self.template
    }

    /// How strictly the stream is read.
    pub fn level(&self) -> Level
        ensures { result ≡ self.now.level }
    {
        self.level
    }

    /// Whether a message has begun.
    pub fn has_begun(&self) -> bool
        ensures yes { result ≡ true → begun_of self.now ≡ 1 }
        ensures no { result ≢ true → self.now.stage ≡ Stage.Map }
    {
        match self.stage {
            Stage::Map => false,
            Stage::Identifier | Stage::Body => true,
        }
    }

    /// What is true of each set; it does nothing.
    pub fn set_is_sound(&self)
        ensures { IsSound self.now.set.now }
    {
        let _slots = self.set.slots();
    }

    /// Goes back to the beginning of a stream.
    pub fn reset(&mut self)
        ensures set { self.new.set ≡ self.old.set }
        ensures level { self.new.level ≡ self.old.level }
        ensures stage { self.new.stage ≡ Stage.Map }
        ensures template { self.new.template ≡ 0 }
    {
        self.stage = Stage::Map;
        self.template = 0;
    }

    // Reads a message's map.
    #[inline(always)]
    fn map(&mut self, bytes: &[u8], at: usize) -> Result<usize, Halt>
        requires place { at ≤ length bytes.now }
        ensures { MatchResult result (λ n. MapRead self.old bytes.now at n self.new)
            (λ h. (self.new ≡ self.old) × (h.cause ≢ Cause.Memory → (d : Dictionary)
            → message_at self.old.level (templates_in self.old.set.now) d (drop at bytes.now)
            ≡ Err (stop_of 0 h (drop at bytes.now)))) }
    {
        let (bits, next) = read_own_map(self.alloc, 0, true, self.level, bytes, at)?;
        // the rest of the walk begins with the body, in the memory of the last one
        self.walk.bits = bits;
        self.walk.spare = NODE_LIMIT;
        self.stage = Stage::Identifier;
        Ok(next)
    }

    // Reads a message's identifier, and opens the body of the template that it names.
    #[inline(always)]
    fn identifier<R: Receiver, E: Entries>(
        &mut self,
        receiver: &mut R,
        entries: &mut E,
        bytes: &[u8],
        at: usize,
    ) -> Result<usize, Halt>
        requires place { at ≤ length bytes.now }
        requires stage { self.now.stage ≡ Stage.Identifier }
        requires served { ServesAll (E.serves entries.now) self.now.set.now }
        requires can { CanRead R.Receiver E.Entries self.now receiver.now entries.now }
        ensures reads { MatchResult result
            (λ n. IsStep R.Receiver E.Entries self.old receiver.old entries.old bytes.now at n self.new receiver.new entries.new)
            (λ h. MessageStops R.Receiver E.Entries self.old receiver.old entries.old bytes.now at (at, h) self.new receiver.new entries.new) }
        ensures stage { OnOk result (self.new.stage ≡ Stage.Body) }
        ensures can { OnOk result (CanRead R.Receiver E.Entries self.new receiver.new entries.new) }
        ensures same { IsSameSet E.Entries self.old entries.old self.new entries.new }
    {
        // (it is copied, which needs one)
        let needs = true;
        let bit = first_for(&self.walk.bits, needs);
        let level = self.level();
        match receiver.begin(self.alloc, entries, &self.identifier, bit, level, bytes, at) {
            Err(fault) => Err(part_halt(&self.identifier, fault)),
            Ok((id, next)) => match self.last.find(self.set, id) {
                None => Err(Halt::new(Cause::D9, 0)),
                Some(template) => {
                    self.set_is_sound();
                    self.template = id;
                    self.walk.open_message(needs, &template.members);
                    self.stage = Stage::Body;
                    Ok(next)
                }
            },
        }
    }

    // Reads what is left of a message's body, and ends it.
    #[inline(always)]
    fn body<R: Receiver, E: Entries>(
        &mut self,
        receiver: &mut R,
        entries: &mut E,
        bytes: &[u8],
        at: usize,
    ) -> Result<usize, (usize, Halt)>
        requires place { at ≤ length bytes.now }
        requires stage { self.now.stage ≡ Stage.Body }
        requires can { CanRead R.Receiver E.Entries self.now receiver.now entries.now }
        ensures reads { ReadsMessage R.Receiver E.Entries self.old receiver.old entries.old bytes.now at result
            self.new receiver.new entries.new }
        ensures same { IsSameSet E.Entries self.old entries.old self.new entries.new }
    {
        let next = self
            .walk
            .run(self.level, self.alloc, receiver, entries, bytes, at)?;
        match self.walk.judge_end(self.level) {
            Err(halt) => Err((next, halt)),
            Ok(()) => match receiver.finish(self.alloc) {
                Err(error) => Err((next, Halt::from(error))),
                Ok(()) => {
                    self.stage = Stage::Map;
                    self.template = 0;
                    Ok(next)
                }
            },
        }
    }

    // Reads a message from its identifier on.
    #[tactic(auto, using(crate::proofs::Messages::read_behind))]
    #[inline(always)]
    fn behind_map<R: Receiver, E: Entries>(
        &mut self,
        receiver: &mut R,
        entries: &mut E,
        bytes: &[u8],
        at: usize,
    ) -> Result<usize, (usize, Halt)>
        requires place { at ≤ length bytes.now }
        requires stage { self.now.stage ≡ Stage.Identifier }
        requires served { ServesAll (E.serves entries.now) self.now.set.now }
        requires can { CanRead R.Receiver E.Entries self.now receiver.now entries.now }
        ensures reads { ReadsMessage R.Receiver E.Entries self.old receiver.old entries.old bytes.now at result
            self.new receiver.new entries.new }
        ensures same { IsSameSet E.Entries self.old entries.old self.new entries.new }
    {
        match self.identifier(receiver, entries, bytes, at) {
            Err(halt) => Err((at, halt)),
            Ok(next) => self.body(receiver, entries, bytes, next),
        }
    }

    // The same where the bytes before ended behind the map. (A call of its own, since it is seldom wanted.)
    #[inline(never)]
    fn from_identifier<R: Receiver, E: Entries>(
        &mut self,
        receiver: &mut R,
        entries: &mut E,
        bytes: &[u8],
        at: usize,
    ) -> Result<usize, (usize, Halt)>
        requires place { at ≤ length bytes.now }
        requires stage { self.now.stage ≡ Stage.Identifier }
        requires served { ServesAll (E.serves entries.now) self.now.set.now }
        requires can { CanRead R.Receiver E.Entries self.now receiver.now entries.now }
        ensures reads { ReadsMessage R.Receiver E.Entries self.old receiver.old entries.old bytes.now at result
            self.new receiver.new entries.new }
        ensures same { IsSameSet E.Entries self.old entries.old self.new entries.new }
    {
        self.behind_map(receiver, entries, bytes, at)
    }

    // Reads the next message from its map on.
    #[tactic(auto, using(crate::proofs::Messages::map_can, crate::proofs::Messages::read_behind_map))]
    #[inline(always)]
    fn from_map<R: Receiver, E: Entries>(
        &mut self,
        receiver: &mut R,
        entries: &mut E,
        bytes: &[u8],
        at: usize,
    ) -> Result<usize, (usize, Halt)>
        requires place { at ≤ length bytes.now }
        requires stage { self.now.stage ≡ Stage.Map }
        requires served { ServesAll (E.serves entries.now) self.now.set.now }
        requires can { CanRead R.Receiver E.Entries self.now receiver.now entries.now }
        ensures reads { ReadsMessage R.Receiver E.Entries self.old receiver.old entries.old bytes.now at result
            self.new receiver.new entries.new }
        ensures same { IsSameSet E.Entries self.old entries.old self.new entries.new }
    {
        match self.map(bytes, at) {
            Err(halt) => Err((at, halt)),
            Ok(next) => match receiver.open(&bytes[at..next]) {
                Err(error) => Err((next, Halt::from(error))),
                Ok(()) => self.behind_map(receiver, entries, bytes, next),
            },
        }
    }

    /// Reads the next message, or what is left of the open one, to its end, and answers the place behind it.
    ///
    /// # Errors
    ///
    /// Why a piece was not read, and where that begins. Truncated: the bytes end before it does. Then the traversal
    /// has stopped there, and goes on with the bytes from there on and those that follow. Memory: a growth was
    /// refused.
    #[inline(always)]
    pub fn message<R: Receiver, E: Entries>(
        &mut self,
        receiver: &mut R,
        entries: &mut E,
        bytes: &[u8],
        at: usize,
    ) -> Result<usize, (usize, Halt)>
        requires place { at ≤ length bytes.now }
        requires served { ServesAll (E.serves entries.now) self.now.set.now }
        requires can { CanRead R.Receiver E.Entries self.now receiver.now entries.now }
        ensures reads { ReadsMessage R.Receiver E.Entries self.old receiver.old entries.old bytes.now at result
            self.new receiver.new entries.new }
        ensures same { IsSameSet E.Entries self.old entries.old self.new entries.new }
    {
        match self.stage {
            Stage::Map => self.from_map(receiver, entries, bytes, at),
            Stage::Identifier => self.from_identifier(receiver, entries, bytes, at),
            Stage::Body => self.body(receiver, entries, bytes, at),
        }
    }
}
