//! Template sets from templates as they are written, and from template texts.

ghost use Rattle.std.specs.Prelude.{◌≡◌, ◌⊎◌, Err, None, Some, IfErr, IfOk, IsUtf8, MatchResult, map};
ghost use Rattle.serde_json.specs.Data.{Data};
ghost use Rattle.serde_json.specs.Read.{read};
ghost use Rattle.fast_load.specs.FlatLists.{AreResolved};
ghost use Rattle.fast_load.specs.JsonLoads.{IsNoText, Loads};
ghost use Rattle.fast_load.specs.LoadChecks.{IsAccepted, IsFirstFault};
ghost use Rattle.fast_template.specs.TemplateSets.{templates_in};
ghost use Rattle.fast_written.specs.declared.fault.LoadCause.TheVariants as cause;
ghost use Rattle.fast_written.specs.JsonData.{data_in};
ghost use Rattle.fast_build.specs.Errors.{fault_of_error};
ghost use Rattle.fast_written.specs.JsonTemplates.{ReadsTemplates, templates_of};
ghost use Rattle.fast_written.specs.LoadFaults.{fault_at as fault_at_of, want_of_memory as want_of_memory_of};
ghost use Rattle.fast_written.specs.Written.{written_template_of};

use fast_load::load_written;
use fast_template::TemplateSet;
use fast_written::{
    LoadCause, LoadFault, Template, fault_at, is_data, templates_in_data, want_of_memory,
};
use json::{Error, Reader, Scratch, Value as Json};
use std::alloc::Global;

// How deep arrays and objects may nest in a template text.
const MAX_DEPTH: usize = 127;

/// What is made of templates as they are written: a [`TemplateSet`].
///
/// It is a trait since a set's own functions stand in `fast_template`. The clauses of both calls stand in its `impl`.
pub trait Load: Sized {
    /// Resolves templates: each reference becomes the instructions of the template that it names,
    /// each name a key with its slot, each initial value a value, and instructions get their
    /// numbers.
    ///
    /// # Errors
    ///
    /// The first check of a load that fails, with its template and instruction; or, where memory is
    /// refused, want of memory, whichever step asked for it.
    fn build(alloc: Global, templates: Vec<Template>) -> Result<Self, LoadFault>;

    /// Reads a template text, which is JSON, and builds its templates.
    ///
    /// # Errors
    ///
    /// S1 where the bytes are not UTF-8 or not JSON (template 0, instruction 0), or where the shape of an object is
    /// not that of a template text; otherwise what [`Load::build`] answers; want of memory, where memory is
    /// refused.
    fn from_json(alloc: Global, text: &[u8]) -> Result<Self, LoadFault>;
}

impl Load for TemplateSet {
    fn build(alloc: Global, templates: Vec<Template>) -> Result<TemplateSet, LoadFault>
        ensures { MatchResult result
            (λ set. IsAccepted (map written_template_of templates.items)
            × AreResolved (map written_template_of templates.items) (templates_in set))
            (λ fault. IsFirstFault (map written_template_of templates.items) fault ⊎ (fault
            ≡ want_of_memory_of)) }
    {
        load_written(alloc, templates)
    }

    fn from_json(alloc: Global, text: &[u8]) -> Result<TemplateSet, LoadFault>
        ensures read { (d : Data) → IsUtf8 text.now → read text.now ≡ Some d
            → Loads (templates_of d) result }
        ensures unread { ¬ (IsUtf8 text.now) → IsNoText result }
        ensures no_json { read text.now ≡ None → IsNoText result }
    {
        TemplateSet::build(alloc, templates_in_text(alloc, text)?)
    }
}

// The templates that a text stands for. What was read of it, which may take more memory than they, is let go with the end of
// this call.
fn templates_in_text(alloc: Global, text: &[u8]) -> Result<Vec<Template>, LoadFault>
    ensures read { (d : Data) → IsUtf8 text.now → read text.now ≡ Some d
        → ReadsTemplates result (templates_of d) }
    ensures unread { ¬ (IsUtf8 text.now) → ReadsTemplates result (Err (fault_at_of cause.S1 0 0)) }
    ensures no_json { read text.now ≡ None
        → ReadsTemplates result (Err (fault_at_of cause.S1 0 0)) }
{
    match simdutf8::compat::from_utf8(text) {
        Ok(text) => templates_in_characters(alloc, text),
        Err(_) => Err(fault_at(LoadCause::S1, 0, 0)),
    }
}

fn templates_in_characters(alloc: Global, text: &str) -> Result<Vec<Template>, LoadFault>
    ensures read { (d : Data) → read text.now ≡ Some d → ReadsTemplates result (templates_of d) }
    ensures no_json { read text.now ≡ None
        → ReadsTemplates result (Err (fault_at_of cause.S1 0 0)) }
{
    let mut scratch = Scratch::new(alloc);
    match json_in_text(alloc, text, &mut scratch) {
        Ok(json) => templates_in_data(alloc, &json),
        Err(fault) => Err(fault),
    }
}

// The JSON that a text is, where it is data.
fn json_in_text<'a>(
    alloc: Global,
    text: &'a str,
    scratch: &'a mut Scratch,
) -> Result<Json<'a>, LoadFault>
    ensures read { IfOk result (λ json. read text.now ≡ Some (data_in json)) }
    ensures unread { IfErr result (λ fault. (fault ≡ want_of_memory_of) ⊎ ((fault ≡ fault_at_of cause.S1 0 0) × (read text.now ≡ None))) }
{
    let Ok(mut reader) = Reader::new(text, scratch) else {
        return Err(want_of_memory());
    };
    let json = match Json::read(alloc, &mut reader, MAX_DEPTH) {
        Ok(json) => json,
        Err(error) => return Err(fault_of(error)),
    };
    if reader.next().is_some() || !is_data(&json) {
        return Err(fault_at(LoadCause::S1, 0, 0));
    }
    Ok(json)
}

// The fault of a text that is not read.
fn fault_of(error: Error) -> LoadFault
    ensures { result ≡ fault_of_error error }
{
    match error {
        Error::OutOfMemory => want_of_memory(),
        Error::Invalid | Error::TooLong | Error::DuplicateKey => fault_at(LoadCause::S1, 0, 0),
    }
}
