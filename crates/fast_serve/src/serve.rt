//! The program as a call: from a command line, files and streams to the exit status.

ghost use Rattle.std.specs.Prelude.{◌≡◌, ◌≢◌, ◌≤◌, ◌⊎◌, ◌^◌, ◌++◌, ℕ, List, None, Ok, Err, IfErr, IfOk, OnOk, map, option_map, string_bytes};
ghost use Rattle.fast_machine.specs.Inputs.{reader_by};
ghost use Rattle.fast_template.specs.TemplateSets.{TemplateList};
ghost use Rattle.fast_host.specs.Devices.{Writer, input_of, inputs_by, writer_by};
ghost use Rattle.fast_host.specs.Refusals.{status_of, text_of};
ghost use Rattle.fast_request.specs.CommandLine.{asked_by};
ghost use Rattle.fast_serve.specs.Served.{CanonInHex, LoadsSet, Performs, PerformsAsked, PerformsHexText, PerformsInHex, PerformsOver, PerformsWith, ReadsHex, RefusesHex, RefusesTemplates, RefusesText, RunsInMemory, RunsPlain, RunsTask, Says, SaysAsked, SaysText, WritesHex, is_written as is_written_lem, status_after};

use crate::ended::Ended;
use crate::lines::{run_lines, run_packet_lines};
use crate::recording::{canon_recording_in_hex, run_recording};
use fast_build::Load;
use fast_canon::CanonFault;
use fast_command::{Command, Form, Mode, run};
use fast_explain::{Files, Notes, ReadAs, Seen, explain};
use fast_host::{MemoryOutput, Refusal, Source, hex_line, read_hex, read_text};
use fast_io::{ByteInput, ByteOutput, Counted, write_all};
use fast_request::{Request, Task, parse_words};
use fast_template::TemplateSet;
use std::alloc::{AllocError, Global};
use std::io;

/// The most reads that the program makes of an input.
pub const TURNS: u64 = 1 << 40;

/// The templates that a text stands for. It is read whole before it is judged.
fn read_templates<I: ByteInput>(
    alloc: Global,
    input: &mut I,
    turns: u64,
    notes: &mut Notes,
) -> Result<TemplateSet, Refusal>
    ensures ok { IfOk result (λ set. LoadsSet (I.left input.old) turns set) }
    ensures refused { IfErr result (RefusesText turns
        (reader_by I.left I.calls I.errors I.ends input.old)
        (reader_by I.left I.calls I.errors I.ends input.new)) }
    ensures unfailed { OnOk result (I.errors input.new ≡ I.errors input.old) }
{
    match read_text(alloc, input, turns) {
        Err(fault) => Err(Refusal::of_template_text(fault)),
        Ok(text) => match TemplateSet::from_json(alloc, &text) {
            Ok(set) => Ok(set),
            Err(fault) => {
                notes.templates_refused(alloc, fault, &text);
                Err(Refusal::of_load(alloc, fault))
            }
        },
    }
}

/// The templates of a file, or of the standard input.
fn load<S: Source>(
    alloc: Global,
    name: Option<&str>,
    source: &mut S,
    turns: u64,
    notes: &mut Notes,
) -> Result<TemplateSet, Refusal>
    ensures ok { IfOk result (λ set. LoadsSet
        (input_of (inputs_by S.file S.input S.unopened S.failed source.old) (option_map (λ n. n.now) name.entry)) turns
        set) }
    ensures refused { IfErr result (RefusesTemplates (inputs_by S.file S.input S.unopened S.failed source.old)
        (inputs_by S.file S.input S.unopened S.failed source.new) (option_map (λ n. n.now) name.entry) turns) }
    ensures opened { OnOk result (S.unopened source.new ≡ S.unopened source.old) }
    ensures unfailed { OnOk result (S.failed source.new ≡ S.failed source.old) }
    ensures files { S.file source.new ≡ S.file source.old }
    ensures input { option_map (λ n. n.now) name.entry ≢ None → S.input source.new ≡ S.input source.old }
{
    match name {
        None => {
            let mut input = source.standard();
            let answer = read_templates(alloc, &mut input, turns, notes);
            source.leave_standard(input);
            answer
        }
        Some(name) => match source.open(name) {
            None => Err(Refusal::Open),
            Some(mut file) => {
                let answer = read_templates(alloc, &mut file, turns, notes);
                source.close(name, file);
                answer
            }
        },
    }
}

/// The bytes that an input stands for in hex text. It is read whole before it is judged.
fn read_hex_input<I: ByteInput>(
    alloc: Global,
    input: &mut I,
    turns: u64,
    notes: &mut Notes,
) -> Result<Vec<u8>, Refusal>
    ensures ok { IfOk result (λ bytes. ReadsHex turns
        (reader_by I.left I.calls I.errors I.ends input.old)
        (reader_by I.left I.calls I.errors I.ends input.new) bytes.items) }
    ensures refused { IfErr result (RefusesHex turns
        (reader_by I.left I.calls I.errors I.ends input.old)
        (reader_by I.left I.calls I.errors I.ends input.new)) }
{
    match read_text(alloc, input, turns) {
        Err(fault) => Err(Refusal::of_text(fault)),
        Ok(text) => {
            notes.hex_read(&text);
            match read_hex(alloc, text) {
                Ok(bytes) => Ok(bytes),
                Err(fault) => Err(Refusal::of_hex(fault)),
            }
        }
    }
}

/// Runs a command over a stream, from the input's bytes to the output's.
fn run_plain<I: ByteInput, O: ByteOutput>(
    alloc: Global,
    command: Command,
    mode: Mode,
    form: Form,
    set: &TemplateSet,
    input: &mut I,
    out: &mut O,
    turns: u64,
    notes: &mut Notes,
) -> Result<Ended, Refusal>
    requires turns { turns ≤ 2 ^ 40 }
    ensures { RunsPlain command mode form set.now turns
        (reader_by I.left I.calls I.errors I.ends input.old)
        (reader_by I.left I.calls I.errors I.ends input.new)
        (writer_by O.taken O.errors O.flushes out.old)
        (writer_by O.taken O.errors O.flushes out.new) result }
{
    match run(alloc, command, set, mode, form, input, out, turns) {
        Ok(_) => Ok(Ended::Accepted),
        Err(fault) => {
            notes.run_failed(fault);
            Err(Refusal::of_run(alloc, fault))
        }
    }
}

/// Does what is asked of an input's bytes.
fn run_task<I: ByteInput, O: ByteOutput, E: ByteOutput>(
    alloc: Global,
    request: Request<'_>,
    set: &TemplateSet,
    input: &mut I,
    out: &mut O,
    err: &mut E,
    turns: u64,
    notes: &mut Notes,
) -> Result<Ended, Refusal>
    requires turns { turns ≤ 2 ^ 40 }
    ensures performed { RunsTask request.entry.task request.entry.hex request.entry.form set.now turns
        (reader_by I.left I.calls I.errors I.ends input.old)
        (reader_by I.left I.calls I.errors I.ends input.new)
        (writer_by O.taken O.errors O.flushes out.old) (writer_by O.taken O.errors O.flushes out.new)
        (writer_by E.taken E.errors E.flushes err.old) (writer_by E.taken E.errors E.flushes err.new) result }
    ensures quiet { result ≡ Ok Ended.Accepted → err.new ≡ err.old }
{
    match request.task {
        Task::Stream { command, mode } => run_plain(
            alloc,
            command,
            mode,
            request.form,
            set,
            input,
            out,
            turns,
            notes,
        ),
        Task::Recording { command, mode } => run_recording(
            alloc,
            command,
            mode,
            request.form,
            set,
            input,
            out,
            err,
            turns,
            notes,
        ),
        Task::Write { packets: false } => {
            run_lines(alloc, request.hex, set, input, out, turns, notes)
        }
        Task::Write { packets: true } => {
            run_packet_lines(alloc, request.hex, set, input, out, turns, notes)
        }
    }
}

/// Writes bytes as a line of hex.
pub(crate) fn write_hex_line<O: ByteOutput>(
    alloc: Global,
    bytes: &[u8],
    out: &mut O,
) -> Result<Ended, Refusal>
    ensures { WritesHex (writer_by O.taken O.errors O.flushes out.old)
        (writer_by O.taken O.errors O.flushes out.new) bytes.now result }
{
    match hex_line(alloc, bytes) {
        Err(AllocError) => Err(Refusal::Memory),
        Ok(line) => match write_all(out, line.as_bytes()) {
            Ok(()) => Ok(Ended::Accepted),
            Err(_) => Err(Refusal::Write),
        },
    }
}

/// Writes the canonical bytes of a stream as a line of hex, also those that stand before a fault of the stream.
fn canon_in_hex<O: ByteOutput>(
    alloc: Global,
    mode: Mode,
    set: &TemplateSet,
    stream: &[u8],
    out: &mut O,
    turns: u64,
    notes: &mut Notes,
) -> Result<Ended, Refusal>
    requires turns { turns ≤ 2 ^ 40 }
    ensures { CanonInHex mode set.now turns stream.now
        (writer_by O.taken O.errors O.flushes out.old)
        (writer_by O.taken O.errors O.flushes out.new) result }
{
    let mut input = Counted::new(stream);
    let mut kept = MemoryOutput {
        bytes: Vec::new(alloc),
        calls: 0,
        errors: 0,
        flushes: 0,
    };
    match run(
        alloc,
        Command::Canon,
        set,
        mode,
        Form::Text,
        &mut input,
        &mut kept,
        turns,
    ) {
        Ok(_) => write_hex_line(alloc, &kept.bytes, out),
        Err(CanonFault::Stream(fault)) => {
            notes.stream_stopped(fault);
            write_hex_line(alloc, &kept.bytes, out)?;
            Err(Refusal::of_stream(alloc, fault))
        }
        // An output in memory fails only where there is no memory.
        Err(CanonFault::Write | CanonFault::Memory) => Err(Refusal::Memory),
    }
}

/// Does what is asked of bytes in memory.
fn run_in_memory<O: ByteOutput, E: ByteOutput>(
    alloc: Global,
    request: Request<'_>,
    set: &TemplateSet,
    stream: &[u8],
    out: &mut O,
    err: &mut E,
    turns: u64,
    notes: &mut Notes,
) -> Result<Ended, Refusal>
    requires turns { turns ≤ 2 ^ 40 }
    ensures performed { RunsInMemory request.entry.task request.entry.hex request.entry.form set.now turns stream.now
        (writer_by O.taken O.errors O.flushes out.old) (writer_by O.taken O.errors O.flushes out.new)
        (writer_by E.taken E.errors E.flushes err.old) (writer_by E.taken E.errors E.flushes err.new) result }
    ensures quiet { result ≡ Ok Ended.Accepted → err.new ≡ err.old }
{
    let mut input = Counted::new(stream);
    run_task(alloc, request, set, &mut input, out, err, turns, notes)
}

/// Does with bytes in memory what is asked of an input in hex text.
fn perform_in_hex<O: ByteOutput, E: ByteOutput>(
    alloc: Global,
    request: Request<'_>,
    set: &TemplateSet,
    stream: &[u8],
    out: &mut O,
    err: &mut E,
    turns: u64,
    notes: &mut Notes,
) -> Result<Ended, Refusal>
    requires turns { turns ≤ 2 ^ 40 }
    ensures performed { PerformsInHex request.entry.task request.entry.hex request.entry.form set.now turns stream.now
        (writer_by O.taken O.errors O.flushes out.old) (writer_by O.taken O.errors O.flushes out.new)
        (writer_by E.taken E.errors E.flushes err.old) (writer_by E.taken E.errors E.flushes err.new) result }
    ensures quiet { result ≡ Ok Ended.Accepted → err.new ≡ err.old }
{
    match request.task {
        Task::Stream {
            command: Command::Canon,
            mode,
        } => canon_in_hex(alloc, mode, set, stream, out, turns, notes),
        Task::Recording {
            command: Command::Canon,
            mode,
        } => canon_recording_in_hex(alloc, mode, set, stream, out, turns, notes),
        Task::Stream { .. } | Task::Recording { .. } => {
            run_in_memory(alloc, request, set, stream, out, err, turns, notes)
        }
        Task::Write { .. } => run_in_memory(alloc, request, set, stream, out, err, turns, notes),
    }
}

/// Does what is asked of an input in hex text.
fn perform_hex<I: ByteInput, O: ByteOutput, E: ByteOutput>(
    alloc: Global,
    request: Request<'_>,
    set: &TemplateSet,
    input: &mut I,
    out: &mut O,
    err: &mut E,
    turns: u64,
    notes: &mut Notes,
) -> Result<Ended, Refusal>
    requires turns { turns ≤ 2 ^ 40 }
    ensures performed { PerformsHexText request.entry.task request.entry.hex request.entry.form set.now turns
        (reader_by I.left I.calls I.errors I.ends input.old)
        (reader_by I.left I.calls I.errors I.ends input.new)
        (writer_by O.taken O.errors O.flushes out.old) (writer_by O.taken O.errors O.flushes out.new)
        (writer_by E.taken E.errors E.flushes err.old) (writer_by E.taken E.errors E.flushes err.new) result }
    ensures quiet { result ≡ Ok Ended.Accepted → err.new ≡ err.old }
{
    let stream = read_hex_input(alloc, input, turns, notes)?;
    let answer = perform_in_hex(alloc, request, set, &stream, out, err, turns, notes);
    notes.stream_in_memory(&stream);
    answer
}

/// Whether the input are lines to be written, which are never hex text.
fn is_written(task: Task) -> bool
    ensures { result ≡ is_written_lem task }
{
    matches!(task, Task::Write { .. })
}

/// Does what is asked of an input that is open.
fn perform_over<I: ByteInput, O: ByteOutput, E: ByteOutput>(
    alloc: Global,
    request: Request<'_>,
    set: &TemplateSet,
    input: &mut I,
    out: &mut O,
    err: &mut E,
    turns: u64,
    notes: &mut Notes,
) -> Result<Ended, Refusal>
    requires turns { turns ≤ 2 ^ 40 }
    ensures performed { PerformsOver request.entry.hex request.entry.task request.entry.form set.now turns
        (reader_by I.left I.calls I.errors I.ends input.old)
        (reader_by I.left I.calls I.errors I.ends input.new)
        (writer_by O.taken O.errors O.flushes out.old) (writer_by O.taken O.errors O.flushes out.new)
        (writer_by E.taken E.errors E.flushes err.old) (writer_by E.taken E.errors E.flushes err.new) result }
    ensures quiet { result ≡ Ok Ended.Accepted → err.new ≡ err.old }
{
    if request.hex && !is_written(request.task) {
        perform_hex(alloc, request, set, input, out, err, turns, notes)
    } else {
        run_task(alloc, request, set, input, out, err, turns, notes)
    }
}

/// Does what is asked of an input that is open, whose bytes are noted as they are read; answers the input too.
fn perform_seen<I: ByteInput + Drop, O: ByteOutput, E: ByteOutput>(
    alloc: Global,
    request: Request<'_>,
    set: &TemplateSet,
    input: I,
    out: &mut O,
    err: &mut E,
    turns: u64,
    notes: &mut Notes,
) -> (Result<Ended, Refusal>, I)
    requires turns { turns ≤ 2 ^ 40 }
    ensures performed { PerformsOver request.entry.hex request.entry.task request.entry.form set.now turns
        (reader_by I.left I.calls I.errors I.ends input)
        (reader_by I.left I.calls I.errors I.ends result.1)
        (writer_by O.taken O.errors O.flushes out.old) (writer_by O.taken O.errors O.flushes out.new)
        (writer_by E.taken E.errors E.flushes err.old) (writer_by E.taken E.errors E.flushes err.new) result.0 }
    ensures quiet { result.0 ≡ Ok Ended.Accepted → err.new ≡ err.old }
{
    let mut seen = Seen::new(alloc, input, notes.is_asked() && !request.hex);
    let answer = perform_over(alloc, request, set, &mut seen, out, err, turns, notes);
    notes.stream_seen(&seen);
    (answer, seen.into_inner())
}

/// Opens the input, and does what is asked of it.
fn perform_with<S: Source, O: ByteOutput, E: ByteOutput>(
    alloc: Global,
    request: Request<'_>,
    set: &TemplateSet,
    source: &mut S,
    out: &mut O,
    err: &mut E,
    turns: u64,
    notes: &mut Notes,
) -> Result<Ended, Refusal>
    requires turns { turns ≤ 2 ^ 40 }
    ensures performed { PerformsWith (asked_by request.entry) set.now
        (inputs_by S.file S.input S.unopened S.failed source.old)
        (inputs_by S.file S.input S.unopened S.failed source.new) turns
        (writer_by O.taken O.errors O.flushes out.old) (writer_by O.taken O.errors O.flushes out.new)
        (writer_by E.taken E.errors E.flushes err.old) (writer_by E.taken E.errors E.flushes err.new) result }
    ensures quiet { result ≡ Ok Ended.Accepted → err.new ≡ err.old }
{
    match request.input {
        None => {
            let input = source.standard();
            let (answer, input) = perform_seen(alloc, request, set, input, out, err, turns, notes);
            source.leave_standard(input);
            answer
        }
        Some(name) => match source.open(name) {
            None => Err(Refusal::Open),
            Some(file) => {
                let (answer, file) = perform_seen(
                    alloc, request, set, file, out, err, turns, notes,
                );
                source.close(name, file);
                answer
            }
        },
    }
}

/// Loads the templates, and does what is asked.
fn perform_asked<S: Source, O: ByteOutput, E: ByteOutput>(
    alloc: Global,
    request: Request<'_>,
    source: &mut S,
    out: &mut O,
    err: &mut E,
    turns: u64,
    notes: &mut Notes,
) -> Result<Ended, Refusal>
    requires turns { turns ≤ 2 ^ 40 }
    requires one_is_a_file { (asked_by request).templates ≡ None → (asked_by request).input ≢ None }
    ensures performed { PerformsAsked (asked_by request.entry)
        (inputs_by S.file S.input S.unopened S.failed source.old)
        (inputs_by S.file S.input S.unopened S.failed source.new) turns
        (writer_by O.taken O.errors O.flushes out.old) (writer_by O.taken O.errors O.flushes out.new)
        (writer_by E.taken E.errors E.flushes err.old) (writer_by E.taken E.errors E.flushes err.new) result }
    ensures quiet { result ≡ Ok Ended.Accepted → err.new ≡ err.old }
{
    let set = load(alloc, request.templates, source, turns, notes)?;
    notes.templates_loaded();
    let answer = perform_with(alloc, request, &set, source, out, err, turns, notes);
    notes.stream_refused(alloc, &set);
    answer
}

/// Says why the program does not do what it is asked to, and answers its exit status. An `err` that fails changes
/// no status.
pub fn report<E: ByteOutput>(refusal: &Refusal, err: &mut E) -> u8
    ensures status { result ≡ status_of refusal.now }
    // its text is written and flushed, or a call failed behind a front of it
    ensures said { SaysText (writer_by E.taken E.errors E.flushes err.old)
        (writer_by E.taken E.errors E.flushes err.new) (text_of refusal.now) }
{
    let _ = write_all(err, refusal.text().as_bytes());
    refusal.status()
}

/// The text of a refusal, and what it means.
fn explained(
    alloc: Global,
    request: Request<'_>,
    refusal: &Refusal,
    notes: &Notes,
) -> Result<String, AllocError>
    ensures { IfOk result (λ text. (more : List ℕ)
        × (string_bytes text ≡ text_of refusal.now ++ more)) }
{
    let files = Files {
        templates: request.templates,
        stream: request.input,
    };
    let more = explain(alloc, files, refusal, notes)?;
    let text = refusal.text();
    format!(in alloc; "{text}{more}")
}

/// Says why what is asked for is not done, and what that means where this is asked for and memory for it is given.
fn report_asked<E: ByteOutput>(
    alloc: Global,
    request: Request<'_>,
    refusal: &Refusal,
    notes: &Notes,
    err: &mut E,
) -> u8
    ensures status { result ≡ status_of refusal.now }
    ensures said { Says request.entry.explain
        (writer_by E.taken E.errors E.flushes err.old)
        (writer_by E.taken E.errors E.flushes err.new) (Err refusal.now) }
{
    if request.explain
        && let Ok(text) = explained(alloc, request, refusal, notes)
    {
        let _ = write_all(err, text.as_bytes());
        refusal.status()
    } else {
        report(refusal, err)
    }
}

/// Notes what a look at the file at hand finds, where it could not be opened or read and that is to be explained.
fn look_at_file<S: Source>(request: Request<'_>, refusal: &Refusal, source: &S, notes: &mut Notes) {
    if request.explain
        && matches!(refusal, Refusal::Open | Refusal::Read)
        && let Some(name) = notes.at_hand(request.templates, request.input)
    {
        notes.file_looked_at(source.look(name));
    }
}

/// What the input of a task is read as.
fn read_as(task: Task) -> ReadAs {
    match task {
        Task::Stream { mode, .. } => ReadAs::Stream(mode.framing),
        Task::Recording { .. } => ReadAs::Recording,
        Task::Write { .. } => ReadAs::Lines,
    }
}

/// Does what is asked, and says why not.
fn serve_request<S: Source, O: ByteOutput, E: ByteOutput>(
    alloc: Global,
    request: Request<'_>,
    source: &mut S,
    out: &mut O,
    err: &mut E,
    turns: u64,
) -> u8
    requires turns { turns ≤ 2 ^ 40 }
    requires one_is_a_file { (asked_by request).templates ≡ None → (asked_by request).input ≢ None }
    ensures status { result ≤ 3 }
    ensures quiet { result ≡ 0 → err.new ≡ err.old }
    ensures performed { (r : _) × (told : Writer) × (result ≡ status_after r)
        × PerformsAsked (asked_by request.entry) (inputs_by S.file S.input S.unopened S.failed source.old)
        (inputs_by S.file S.input S.unopened S.failed source.new) turns
        (writer_by O.taken O.errors O.flushes out.old) (writer_by O.taken O.errors O.flushes out.new)
        (writer_by E.taken E.errors E.flushes err.old) told r
        × Says request.entry.explain told (writer_by E.taken E.errors E.flushes err.new) r }
{
    let mut notes = Notes::new(request.explain, read_as(request.task));
    match perform_asked(alloc, request, source, out, err, turns, &mut notes) {
        Ok(Ended::Accepted) => 0,
        Ok(Ended::WithRefusals) => 1,
        Err(refusal) => {
            look_at_file(request, &refusal, source, &mut notes);
            report_asked(alloc, request, &refusal, &notes, err)
        }
    }
}

/// Does what a command line asks for, and answers the exit status of the program: 0 where it is done, 1 where the
/// stream is refused, 2 where the command line, the templates or a hex text is, and 3 for a fault of the machine. To
/// `out` goes what the command writes, and to `err` the line that says why the status is not 0, and with `--explain` what
/// that means and what to do. The first word is the program's name. Of each input at most `turns` reads are made, of
/// which there may be up to 2^40.
///
/// The first that fails is answered: the command line; opening, reading and loading the templates; opening the input;
/// with `--hex` reading it whole, its size and its digits; the run.
pub fn serve<S: Source, O: ByteOutput, E: ByteOutput>(
    alloc: Global,
    words: &[&str],
    source: &mut S,
    out: &mut O,
    err: &mut E,
    turns: u64,
) -> u8
    requires turns { turns ≤ 2 ^ 40 }
    ensures status { result ≤ 3 }
    ensures quiet { result ≡ 0 → err.new ≡ err.old }
    // what was read, written, told and answered, that the status is that of the answer, and what is said behind what was
    // told; where the command line is refused nothing is opened or written
    ensures performed { (r : _) × (told : Writer) × (result ≡ status_after r)
        × Performs (map (λ w. w.now) words.now) (inputs_by S.file S.input S.unopened S.failed source.old)
        (inputs_by S.file S.input S.unopened S.failed source.new) turns
        ((source.new ≡ source.old) × (out.new ≡ out.old))
        (writer_by O.taken O.errors O.flushes out.old) (writer_by O.taken O.errors O.flushes out.new)
        (writer_by E.taken E.errors E.flushes err.old) told r
        × SaysAsked (map (λ w. w.now) words.now) told (writer_by E.taken E.errors E.flushes err.new) r }
{
    match parse_words(alloc, words) {
        Err(error) => report(&Refusal::of_line(alloc, &error), err),
        Ok(request) => serve_request(alloc, request, source, out, err, turns),
    }
}

/// The words as texts.
fn texts_of<'a>(alloc: Global, words: &'a [String]) -> Result<Vec<&'a str>, AllocError>
    ensures { IfOk result (λ texts. map (λ text. text.now) texts.items
        ≡ map string_bytes words.now) }
{
    let mut texts = Vec::new(alloc);
    for word in words {
        texts.push(word.as_str())?;
    }
    Ok(texts)
}

/// Serves the words of a process, of which each has to be text.
pub fn serve_words<S: Source, O: ByteOutput, E: ByteOutput>(
    alloc: Global,
    words: io::Result<Vec<String>>,
    source: &mut S,
    out: &mut O,
    err: &mut E,
    turns: u64,
) -> u8
    requires turns { turns ≤ 2 ^ 40 }
    ensures status { result ≤ 3 }
    ensures quiet { result ≡ 0 → err.new ≡ err.old }
    // where there are no words nothing is opened or written, and the status says so
    ensures no_words { IfErr words (λ _. (2 ≤ result) × (source.new ≡ source.old)
        × (out.new ≡ out.old)) }
    // else it serves them, unless memory for them is refused, and then nothing is opened or written
    ensures performed { IfOk words (λ texts. (r : _) × (told : Writer) × (result ≡ status_after r)
        × (((r ≡ Err Refusal.Memory) × (source.new ≡ source.old) × (out.new ≡ out.old)
        × (told ≡ writer_by E.taken E.errors E.flushes err.old))
        ⊎ Performs (map string_bytes texts.items) (inputs_by S.file S.input S.unopened S.failed source.old)
        (inputs_by S.file S.input S.unopened S.failed source.new) turns
        ((source.new ≡ source.old) × (out.new ≡ out.old))
        (writer_by O.taken O.errors O.flushes out.old) (writer_by O.taken O.errors O.flushes out.new)
        (writer_by E.taken E.errors E.flushes err.old) told r)
        × SaysAsked (map string_bytes texts.items) told (writer_by E.taken E.errors E.flushes err.new) r) }
{
    match words {
        Err(error) => report(&Refusal::of_words(&error), err),
        Ok(words) => match texts_of(alloc, &words) {
            Ok(texts) => serve(alloc, &texts, source, out, err, turns),
            Err(_) => report(&Refusal::Memory, err),
        },
    }
}
