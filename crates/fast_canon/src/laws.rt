//! Laws of streams, each the contract of a function that does nothing. They speak of the definitions alone: what a
//! stream carries (`fast_stream`), its first fault, and the canonical bytes of messages (`fast_writer`). The first of them
//! speaks of what `canonicalise` answers.

ghost use Rattle.std.specs.Prelude.{◌≡◌, ◌≢◌, ◌≤◌, ◌⊎◌, ◌↔◌, ◌++◌, ℕ, List, length};
ghost use Rattle.fast_wire.specs.declared.level.Level.{Level};
ghost use Rattle.fast_wire.specs.declared.level.Level.TheVariants.{Strict};
ghost use Rattle.fast_wire.specs.Reader.{IsBytes};
ghost use Rattle.fast_template.specs.Resolved.{Resolved};
ghost use Rattle.fast_template.specs.TemplateSets.{IsSound, TemplateList, templates_in};
ghost use Rattle.fast_stream.specs.declared.fault.Cause.{Cause};
ghost use Rattle.fast_stream.specs.declared.mode.Mode.{Mode};
ghost use Rattle.fast_stream.specs.declared.place.Place.{Place};
ghost use Rattle.fast_stream.specs.Nodes.{Content};
ghost use Rattle.fast_stream.specs.Blocks.{Stand};
ghost use Rattle.fast_stream.specs.Modes.{Carries, CarriesFrom, FirstFault, IsWithoutSizes, in_blocks, plainly};
ghost use Rattle.fast_writer.specs.Canonical.{IsCanonical};
ghost use Rattle.fast_stream.specs.declared.fault.Fault.{Fault};
ghost use Rattle.fast_canon.specs.Headline.{Accepts, Call, IsAboutStream, Refuses, stream_of};

use fast_stream::Cause;

/// The headline, for calls of `canonicalise` in any mode with one template set, whose answers are about their streams: no
/// memory was refused, no write and no read failed, and the reads were not used up.
///
/// A stream is accepted, and what was written are the canonical bytes of its messages; or it is refused at the first field
/// that has no reading, with its cause, and what was written are those of the messages before. Two accepted streams carry
/// the same messages exactly if their canonical bytes are the same. And canonical bytes are accepted in plain framing, at
/// each level and however they are cut, carry the same messages, and are what is written of them. However a stream is cut,
/// it has one answer.
pub fn the_headline()
    ensures answered { (set : TemplateList) (call : Call set) → IsSound set
        → IsBytes (stream_of set call) → IsAboutStream call.result
        → ((messages : List Content) × Accepts set call messages) ⊎ ((f : Fault) × Refuses set call f) }
    ensures same { (set : TemplateList) (a b : Call set) (messages others : List Content) → IsSound set
        → Accepts set a messages → Accepts set b others → (messages ≡ others) ↔ (a.out ≡ b.out) }
    ensures stays { (set : TemplateList) (a b : Call set) (messages : List Content) → IsSound set
        → Accepts set a messages → IsBytes a.out
        → b.mode ≡ plainly b.mode.level → stream_of set b ≡ a.out → IsAboutStream b.result
        → Accepts set b messages × (b.out ≡ a.out) }
    ensures accepted_however_cut { (set : TemplateList) (a b : Call set) (messages others : List Content) → IsSound set
        → a.mode ≡ b.mode → stream_of set a ≡ stream_of set b
        → Accepts set a messages → Accepts set b others → (messages ≡ others) × (a.out ≡ b.out) }
    ensures refused_however_cut { (set : TemplateList) (a b : Call set) (f g : Fault) → IsSound set
        → a.mode ≡ b.mode → stream_of set a ≡ stream_of set b
        → Refuses set a f → Refuses set b g → (f ≡ g) × (a.out ≡ b.out) }
    ensures never_both { (set : TemplateList) (a b : Call set) (messages : List Content) (f : Fault) → IsSound set
        → a.mode ≡ b.mode → stream_of set a ≡ stream_of set b
        → Accepts set a messages → Refuses set b f → ⊥ }
{}

/// A stream carries at most one list of messages.
pub fn one_reading()
    ensures { (mode : Mode) (set : TemplateList) (stream : List ℕ) (messages others : List Content) → IsSound set
        → Carries mode (templates_in set) stream messages → Carries mode (templates_in set) stream others
        → messages ≡ others }
{}

/// Streams that carry the same messages leave the same dictionary, whatever the set and whatever the mode of each.
pub fn one_dictionary()
    ensures { (mode other : Mode) (set : List Resolved) (s t : Stand) (stream others : List ℕ)
        (messages : List Content) (after later : Stand) → s.dictionary ≡ t.dictionary
        → CarriesFrom mode set s stream messages after → CarriesFrom other set t others messages later
        → after.dictionary ≡ later.dictionary }
{}

/// What a stream carries in any mode has canonical bytes, and these carry it in plain framing at the same level.
pub fn canonical_bytes_exist()
    ensures { (mode : Mode) (set : TemplateList) (stream : List ℕ) (messages : List Content) → IsSound set
        → Carries mode (templates_in set) stream messages
        → (bytes : List ℕ) × IsCanonical (templates_in set) messages bytes
        × Carries (plainly mode.level) (templates_in set) bytes messages }
{}

/// What a stream carries in any mode its canonical bytes carry in plain framing at the strict level. So do all canonical
/// bytes.
pub fn canonical_bytes_are_strict()
    ensures of_streams { (mode : Mode) (set : TemplateList) (stream : List ℕ) (messages : List Content) → IsSound set
        → Carries mode (templates_in set) stream messages
        → (bytes : List ℕ) × IsCanonical (templates_in set) messages bytes
        × Carries (plainly Strict) (templates_in set) bytes messages }
    ensures all { (set : List Resolved) (messages : List Content) (bytes : List ℕ)
        → IsCanonical set messages bytes → Carries (plainly Strict) set bytes messages }
{}

/// Messages are the same exactly if their canonical bytes are. So they have one list of canonical bytes at most.
pub fn same_messages_same_bytes()
    ensures { (set : TemplateList) (messages others : List Content) (bytes more : List ℕ)
        → IsSound set → IsCanonical (templates_in set) messages bytes
        → IsCanonical (templates_in set) others more
        → (messages ≡ others) ↔ (bytes ≡ more) }
{}

/// Canonical bytes are their own canonical bytes: what they carry in plain framing is the messages that they were made
/// of, and of these they are the canonical bytes, and no others are.
pub fn canonical_stays()
    ensures { (level : Level) (set : TemplateList) (messages others : List Content) (bytes more : List ℕ)
        → IsSound set → IsCanonical (templates_in set) messages bytes
        → Carries (plainly level) (templates_in set) bytes others
        → (others ≡ messages) × (IsCanonical (templates_in set) others more ↔ (more ≡ bytes)) }
{}

/// A stream carries messages or has a first fault, never both, and one first fault only, behind one list of messages.
pub fn carried_or_refused()
    ensures one_of_the_two { (mode : Mode) (set : TemplateList) (stream : List ℕ) → IsSound set → IsBytes stream
        → ((messages : List Content) × Carries mode (templates_in set) stream messages)
        ⊎ ((place : Place) × (cause : Cause) × FirstFault mode (templates_in set) stream place cause) }
    ensures not_both { (mode : Mode) (set : TemplateList) (stream : List ℕ) (messages : List Content)
        (place : Place) (cause : Cause) → IsSound set
        → Carries mode (templates_in set) stream messages
        → FirstFault mode (templates_in set) stream place cause → ⊥ }
    ensures one_refusal { (mode : Mode) (set : TemplateList) (stream : List ℕ) (place other : Place)
        (cause second : Cause) → IsSound set → FirstFault mode (templates_in set) stream place cause
        → FirstFault mode (templates_in set) stream other second → (place ≡ other) × (cause ≡ second) }
    ensures one_list_before { (mode : Mode) (set : TemplateList) (stream : List ℕ) (place other : Place)
        (cause second : Cause) → IsSound set → (f : FirstFault mode (templates_in set) stream place cause)
        (g : FirstFault mode (templates_in set) stream other second) → f.messages ≡ g.messages }
{}

/// No stream of the same messages is shorter, in any mode: the canonical bytes of what a stream carries are no more than
/// the stream's, whichever legal form it has of each field, map, identifier and size.
pub fn no_stream_is_shorter()
    ensures { (mode : Mode) (set : TemplateList) (stream bytes : List ℕ) (messages : List Content) → IsSound set
        → Carries mode (templates_in set) stream messages
        → IsCanonical (templates_in set) messages bytes
        → length bytes ≤ length stream }
{}

/// A first fault other than want of bytes is the first fault of the stream and any bytes behind it. So is the end of a
/// block inside a message.
pub fn refusal_stays()
    ensures { (mode : Mode) (set : TemplateList) (stream more : List ℕ) (place : Place) (cause : Cause)
        → IsSound set → IsBytes (stream ++ more)
        → FirstFault mode (templates_in set) stream place cause → cause ≢ Cause.Truncated
        → FirstFault mode (templates_in set) (stream ++ more) place cause }
{}

/// What a stream carries in blocks it carries in plain framing once its sizes are left out. There is one such stream, and
/// it has no more bytes.
pub fn sizes_can_be_left_out()
    ensures carried { (level : Level) (set : List Resolved) (stream : List ℕ) (messages : List Content)
        → Carries (in_blocks level) set stream messages
        → (plain : List ℕ) × IsWithoutSizes level stream plain × Carries (plainly level) set plain messages }
    ensures one { (level other : Level) (stream plain others : List ℕ) → IsWithoutSizes level stream plain
        → IsWithoutSizes other stream others → plain ≡ others }
    ensures shorter { (level : Level) (stream plain : List ℕ) → IsWithoutSizes level stream plain
        → length plain ≤ length stream }
{}
