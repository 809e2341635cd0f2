//! Lines on their way to canonical bytes.

mod calls;
mod packets;

ghost use Rattle.std.specs.Prelude.{◌≡◌};

use crate::output::OutputForm;
use crate::summary::WrittenSummary;
use fast_dictionary::Entries;
use fast_encoder::Encoder;
use fast_spelled::Scratch;
use fast_template::TemplateSet;
use std::alloc::Global;

/// Lines on their way to canonical bytes.
#[derive(Drop)]
pub(crate) struct Way<'a, E: Entries> {
    pub(crate) alloc: Global,
    pub(crate) set: &'a TemplateSet,
    pub(crate) form: OutputForm,
    pub(crate) encoder: Encoder<'a, E>,
    pub(crate) scratch: Scratch,
    // of the line that has not ended
    pub(crate) begun: Vec<u8>,
    // canonical bytes that wait to be written
    pub(crate) ready: Vec<u8>,
    pub(crate) counts: WrittenSummary,
    // whether lines say their packets, the number of the last one, its canonical bytes, and those of one message
    pub(crate) numbered: bool,
    pub(crate) number: u64,
    pub(crate) packet: Vec<u8>,
    pub(crate) fresh: Vec<u8>,
    ghost same_set: { encoder.set.now ≡ set.now },
}
