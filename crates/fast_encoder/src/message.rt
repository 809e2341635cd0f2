//! Writes one message.

ghost use Rattle.std.specs.Prelude.{◌≡◌, [], true, IsTrue, MatchResult, OnErr};
ghost use Rattle.fast_template.specs.Resolved.{list_of};
ghost use Rattle.fast_template.specs.TemplateSets.{identifier_key};
ghost use Rattle.fast_stream.specs.Nodes.{content_of, items_in};
ghost use Rattle.fast_stream.specs.Streams.{identifier as identifier_part};
ghost use Rattle.fast_walk.specs.Told.{HoldScalars};
ghost use Rattle.fast_nodes.specs.Added.{AnswersBytes, CanTry, IsRestPut, NotPut, books_of, in_segment, of_message, rest_judged};
ghost use Rattle.fast_writer.specs.Levels.{level_of};
ghost use Rattle.fast_writer.specs.Written.{state};

use fast_dictionary::Entries;
use fast_nodes::{EncodeCause, EncodeFault, Journal, put_back, put_nodes, put_value, seal};
use fast_stream::{Message, Node};
use fast_template::{FieldPart, Flat, Scalar};
use fast_writer::Segment;
use std::alloc::Global;

// Writes the nodes of a message behind its identifier, and appends the whole behind its map, or nothing.
fn put_rest<'a, E: Entries>(
    members: &'a [Flat],
    nodes: &[Node],
    alloc: Global,
    journal: &mut Journal<'a, E>,
    level: &mut Segment,
    out: &mut Vec<u8>,
) -> Result<(), EncodeFault>
    requires { CanTry (books_of E.Entries journal.now) (list_of members.now) (items_in nodes.now) }
    ensures put { MatchResult result
        (λ _. IsRestPut (list_of members.now) (items_in nodes.now)
        (books_of E.Entries journal.old) (level_of level.old) out.old.items
        (books_of E.Entries journal.new) (level_of level.new) out.new.items)
        (λ f. NotPut (rest_judged level.old.own (list_of members.now) (items_in nodes.now)
        (state (E.contents journal.old.entries) level.old.bits))
        (books_of E.Entries journal.old) (books_of E.Entries journal.new) f) }
    ensures unchanged { OnErr result (out.new.items ≡ out.old.items) }
{
    put_nodes(members, nodes, alloc, journal, level)?;
    seal(level, out)?;
    Ok(())
}

/// Appends a message of these instructions; nothing of the journal is left to be put back.
///
/// # Errors
///
/// The first refusal of its fields, or of a map. Memory: a growth was refused. Then nothing is appended, and the
/// entries are as they were.
pub(crate) fn put_message<'a, E: Entries>(
    members: &'a [Flat],
    message: &Message,
    alloc: Global,
    identifier: &FieldPart,
    journal: &mut Journal<'a, E>,
    level: &mut Segment,
    out: &mut Vec<u8>,
) -> Result<(), EncodeFault>
    requires identifier { identifier.now ≡ identifier_part }
    requires served { IsTrue (E.serves journal.now.entries identifier_key) }
    requires ready { CanTry (books_of E.Entries journal.now) (list_of members.now)
        (content_of message.now).items }
    ensures answer { AnswersBytes (in_segment true (of_message (list_of members.now)
        (content_of message.now))) (E.contents journal.old.entries) out.old.items
        (E.contents journal.new.entries) out.new.items result }
    ensures holds { HoldScalars (E.contents journal.new.entries) }
    ensures unchanged { OnErr result ((out.new.items ≡ out.old.items)
        × (E.contents journal.new.entries ≡ E.contents journal.old.entries)) }
    ensures same_keys { E.serves journal.new.entries ≡ E.serves journal.old.entries }
{
    journal.keep();
    level.begin(true);
    let before = put_value(
        alloc,
        &mut journal.entries,
        identifier,
        Some(&Scalar::U32(message.template)),
        level,
    )?;
    match put_rest(members, &message.fields, alloc, journal, level, out) {
        Err(fault) => {
            journal.put_back();
            put_back(&mut journal.entries, identifier, before);
            Err(fault)
        }
        Ok(()) => Ok(()),
    }
}
