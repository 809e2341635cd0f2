//! Messages to canonical bytes.

mod calls;

ghost use Rattle.std.specs.Prelude.{◌≡◌};
ghost use Rattle.fast_stream.specs.Streams.{identifier as identifier_part};
ghost use Rattle.fast_walk.specs.Traversals.{ServesAll};
ghost use Rattle.fast_machine.specs.OneProof.{ServesAll-prop};
ghost use Rattle.fast_walk.specs.OneProof.{KeepScalars-prop};
ghost use Rattle.fast_walk.specs.Told.{KeepScalars};

use fast_dictionary::Entries;
use fast_nodes::Journal;
use fast_template::{FieldPart, TemplateSet};
use fast_writer::Segment;
use std::alloc::Global;

/// Writes messages of a template set in canonical form, each from the entries that the ones before left.
#[derive(Drop)]
pub struct Encoder<'a, E: Entries> {
    alloc: Global,
    set: &'a TemplateSet,
    identifier: FieldPart,
    journal: Journal<'a, E>,
    // of the message that is being written, kept for its memory
    level: Segment,
    ghost identifier_is: { identifier ≡ identifier_part },
    ghost served: { ServesAll (E.serves journal.entries) set.now } by { ServesAll-prop (E.serves journal.entries) set.now },
    ghost kept: { KeepScalars (E.contents journal.entries) } by { KeepScalars-prop (E.contents journal.entries) },
}
