//! Laws of what a stream carries, each the contract of a function that does nothing.

ghost use Rattle.std.specs.Bool.{Decides};
ghost use Rattle.std.specs.Prelude.{◌≡◌, ◌≢◌, ◌≤◌, ◌⊎◌, ◌++◌, ◌+◌, ℕ, List, Option, Some, None, drop, false, length};
ghost use Rattle.fast_wire.specs.Reader.{IsBytes};
ghost use Rattle.fast_wire.specs.declared.level.Level.{Level};
ghost use Rattle.fast_wire.specs.declared.level.Level.TheVariants.{Usual};
ghost use Rattle.fast_template.specs.Resolved.{Instructions, Resolved, has_map};
ghost use Rattle.fast_template.specs.TemplateSets.{HaveTypedParts, IsSound, TemplateList, templates_in};
ghost use Rattle.fast_dictionary.specs.Dictionary.{Dictionary};
ghost use Rattle.fast_stream.specs.declared.fault.Cause.{Cause};
ghost use Rattle.fast_stream.specs.declared.fault.Fault.{Fault};
ghost use Rattle.fast_stream.specs.declared.mode.Mode.{Mode};
ghost use Rattle.fast_stream.specs.declared.place.Place.{Place};
ghost use Rattle.fast_stream.specs.contracts.message.MessagePartialEq.TheImpl as message_eq;
ghost use Rattle.fast_stream.specs.declared.message.Message.{Message};
ghost use Rattle.fast_stream.specs.declared.message.Node.TheOpen.{Node-F};
ghost use Rattle.fast_stream.specs.Nodes.{AreAlike, Item, Items, Content, content_of, node_step, nodes_in};
ghost use Rattle.fast_stream.specs.Bits.{takes};
ghost use Rattle.fast_stream.specs.Bodies.{State};
ghost use Rattle.fast_stream.specs.Streams.{Body, Carries as CarriesPlainly, CarriesFrom as CarriesPlainlyFrom};
ghost use Rattle.fast_stream.specs.Faults.{BodyStops, FirstFault as FirstPlainFault};
ghost use Rattle.fast_stream.specs.Reading.{body_at};
ghost use Rattle.fast_stream.specs.Blocks.{Stand};
ghost use Rattle.fast_stream.specs.Modes.{Carries, CarriesFrom, FirstFault, IsWithoutSizes, fault_in, in_blocks, plainly, stream_at};
ghost use Rattle.fast_stream.specs.Readers.{IsMessageReader, IsNextReader, IsPieceReader};

use crate::fault::Cause;

/// The function that reads bodies and their forms are one: what is read is a form, each form is read whatever
/// follows, reading stops exactly at the first fault, and a fault other than want of bytes stays.
pub fn bodies_are_read()
    ensures { (level : Level) (members : Instructions) → HaveTypedParts members
        → IsPieceReader nodes_in (λ s b ns t. Body level members s b ns t)
        (λ s spare rest stop. BodyStops level members s spare rest stop) (body_at level members) }
{}

/// The same of messages, alone and in a stream of each mode: behind the size of their block, and up to its end.
pub fn messages_are_read()
    ensures alone { (level : Level) (set : TemplateList) → IsSound set → IsMessageReader level (templates_in set) }
    ensures in_streams { (mode : Mode) (set : TemplateList) → IsSound set → IsNextReader mode (templates_in set) }
{}

/// The same of streams: one carries just the messages that are read of it to its end, and its first fault is the
/// one that reading meets.
pub fn streams_are_read()
    ensures carried { (mode : Mode) (set : TemplateList) (stream : List ℕ) (messages : List Content) → IsSound set
        → Carries mode (templates_in set) stream messages
        → stream_at mode (templates_in set) stream ≡ record { messages = messages; fault = None } }
    ensures read { (mode : Mode) (set : TemplateList) (stream : List ℕ) (messages : List Content) → IsSound set
        → IsBytes stream → stream_at mode (templates_in set) stream
        ≡ record { messages = messages; fault = None }
        → Carries mode (templates_in set) stream messages }
    ensures refused { (mode : Mode) (set : TemplateList) (stream : List ℕ) (place : Place) (cause : Cause)
        → IsSound set
        → FirstFault mode (templates_in set) stream place cause
        → fault_in stream (stream_at mode (templates_in set) stream)
        ≡ Some (record { cause = cause; place = place }) }
    ensures stopped { (mode : Mode) (set : TemplateList) (stream : List ℕ) (fault : Fault) → IsSound set
        → IsBytes stream
        → fault_in stream (stream_at mode (templates_in set) stream) ≡ Some fault
        → FirstFault mode (templates_in set) stream fault.place fault.cause }
{}

/// A stream carries at most one list of messages.
pub fn one_reading()
    ensures { (mode : Mode) (set : TemplateList) (stream : List ℕ) (messages others : List Content) → IsSound set
        → Carries mode (templates_in set) stream messages → Carries mode (templates_in set) stream others
        → messages ≡ others }
{}

/// A stream carries messages or has a first fault, never both, and one first fault only.
pub fn carried_or_refused()
    ensures one_of_the_two { (mode : Mode) (set : TemplateList) (stream : List ℕ) → IsSound set → IsBytes stream
        → ((messages : List Content) × Carries mode (templates_in set) stream messages)
        ⊎ ((place : Place) × (cause : Cause) × FirstFault mode (templates_in set) stream place cause) }
    ensures not_both { (mode : Mode) (set : TemplateList) (stream : List ℕ) (messages : List Content)
        (place : Place)
        (cause : Cause) → IsSound set → Carries mode (templates_in set) stream messages
        → FirstFault mode (templates_in set) stream place cause → ⊥ }
    ensures one_refusal { (mode : Mode) (set : TemplateList) (stream : List ℕ) (place other : Place)
        (cause second : Cause)
        → IsSound set → FirstFault mode (templates_in set) stream place cause
        → FirstFault mode (templates_in set) stream other second → (place ≡ other) × (cause ≡ second) }
{}

/// A first fault other than want of bytes is the first fault of the stream and any bytes behind it. The end of a block
/// inside a message is such a fault.
pub fn refusal_stays()
    ensures { (mode : Mode) (set : TemplateList) (stream more : List ℕ) (place : Place) (cause : Cause)
        → IsSound set
        → IsBytes (stream ++ more) → FirstFault mode (templates_in set) stream place cause
        → cause ≢ Cause.Truncated → FirstFault mode (templates_in set) (stream ++ more) place cause }
{}

/// Bytes have no fault that is a failed read or used up reads.
pub fn faults_are_of_bytes()
    ensures { (mode : Mode) (set : List Resolved) (stream : List ℕ) (place : Place) (cause : Cause)
        → FirstFault mode set stream place cause → (cause ≢ Cause.Read) × (cause ≢ Cause.Turns) }
{}

/// Where a stream ends before a piece does, it has few bytes from that piece on: at most ten of a
/// subtraction length, ten of the length of a new part, and all but one of that part's 65,535.
pub fn what_waits_is_short()
    ensures { (mode : Mode) (set : TemplateList) (stream : List ℕ) (place : Place) → IsSound set
        → FirstFault mode (templates_in set) stream place Cause.Truncated
        → length stream ≤ place.offset + 65554 }
{}

/// What a stream carries at a level it carries at the usual one.
pub fn carried_usually()
    ensures { (mode : Mode) (set : List Resolved) (stream : List ℕ) (messages : List Content)
        → Carries mode set stream messages
        → Carries (record { level = Usual; framing = mode.framing }) set stream messages }
{}

/// In plain framing a stream is its message forms alone, and its first fault is that of the next one behind some.
pub fn plain_streams_are_messages()
    ensures forms { (level : Level) (set : List Resolved) (stream : List ℕ) (messages : List Content)
        → Carries (plainly level) set stream messages → CarriesPlainly level set stream messages }
    ensures stream { (level : Level) (set : List Resolved) (stream : List ℕ) (messages : List Content)
        → CarriesPlainly level set stream messages → Carries (plainly level) set stream messages }
    ensures fault { (level : Level) (set : List Resolved) (stream : List ℕ) (place : Place) (cause : Cause)
        → FirstFault (plainly level) set stream place cause → FirstPlainFault level set stream place cause }
    ensures refused { (level : Level) (set : List Resolved) (stream : List ℕ) (place : Place) (cause : Cause)
        → FirstPlainFault level set stream place cause → FirstFault (plainly level) set stream place cause }
{}

/// A stream that carries messages in blocks carries them in plain framing once its sizes are left out. There is one such
/// stream, whatever the levels at which it is asked, and it has no more bytes.
pub fn sizes_can_be_left_out()
    ensures carried { (level : Level) (set : List Resolved) (stream : List ℕ) (messages : List Content)
        → Carries (in_blocks level) set stream messages
        → (plain : List ℕ) × IsWithoutSizes level stream plain × Carries (plainly level) set plain messages }
    ensures one { (level other : Level) (stream plain others : List ℕ) → IsWithoutSizes level stream plain
        → IsWithoutSizes other stream others → plain ≡ others }
    ensures shorter { (level : Level) (stream plain : List ℕ) → IsWithoutSizes level stream plain
        → length plain ≤ length stream }
{}

/// Two streams that carry the same messages leave the same dictionary, whatever the mode of each.
pub fn same_messages_same_dictionary()
    ensures alone { (level : Level) (set : List Resolved) (d : Dictionary) (stream other : List ℕ)
        (messages : List Content)
        (after later : Dictionary) → CarriesPlainlyFrom level set d stream messages after
        → CarriesPlainlyFrom level set d other messages later → after ≡ later }
    ensures in_streams { (mode other : Mode) (set : List Resolved) (s t : Stand) (stream others : List ℕ)
        (messages : List Content) (after later : Stand) → s.dictionary ≡ t.dictionary
        → CarriesFrom mode set s stream messages after → CarriesFrom other set t others messages later
        → after.dictionary ≡ later.dictionary }
{}

/// Of the bits of its map a body leaves all but those that its instructions take, and these it has in order.
pub fn bits_are_taken()
    ensures taken { (level : Level) (members : Instructions) (before after : State) (bytes : List ℕ) (items : Items)
        → Body level members before bytes items after
        → after.bits ≡ drop (takes members items) before.bits }
    // a list that asks for no map takes none
    ensures none { (members : Instructions) (items : Items) → has_map members ≡ false
        → takes members items ≡ 0 }
{}

/// What contracts see of a message is faithful: `==` of two messages is true exactly if their contents are the same,
/// and level by level nodes that are seen as the same are the same but for where they lie in memory.
pub fn contents_are_faithful()
    ensures equal { (a b : Message)
        → Decides ((message_eq.eq-value).it a b) (content_of a ≡ content_of b) }
    ensures alike { (a b : Node-F Item) → node_step a ≡ node_step b → AreAlike a b }
{}
