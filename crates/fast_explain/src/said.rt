//! What is said behind the line of a refusal.

use crate::hex_text::Stray;
use crate::looks::StreamLook;
use crate::meaning::{meaning_of, meaning_of_line, rule_of};
use crate::no_json::{Look, NoJson};
use crate::notes::{LineNote, Notes, ReadAs, Reading};
use crate::place::LineColumn;
use fast_host::{FileState, Refusal};
use fast_stream::{Cause, Fault, Framing};
use fast_written::{LoadCause, LoadFault};
use std::alloc::{AllocError, Global};

/// The names of the files that a command line gives.
#[derive(Clone, Copy)]
pub struct Files<'a> {
    /// None: the templates come from the standard input.
    pub templates: Option<&'a str>,
    /// None: the stream does.
    pub stream: Option<&'a str>,
}

/// The input at hand, as it is called in a sentence.
fn input_text(alloc: Global, files: Files<'_>, reading: Reading) -> Result<String, AllocError> {
    match (reading, files.templates, files.stream) {
        (Reading::Templates, Some(name), _) => { format!(in alloc; "the templates' file {name:?}") }
        (Reading::Stream, _, Some(name)) => format!(in alloc; "the stream's file {name:?}"),
        (Reading::Templates, None, _) | (Reading::Stream, _, None) => {
            String::from_str(alloc, "the standard input")
        }
    }
}

/// Why a text is no hex.
fn stray_text(alloc: Global, input: &str, stray: Stray) -> Result<String, AllocError> {
    match stray {
        Stray::NoText => format!(in alloc;
            "explain: {input} has bytes that are not ASCII; if they are the stream's own, leave out --hex\n"
        ),
        Stray::At { line, column } => format!(in alloc;
            "explain: {input} has a character that is no hex digit and no blank, at line {line} column {column}; take it out\n"
        ),
        Stray::Odd => format!(in alloc;
            "explain: {input} has an odd number of hex digits; see that it was copied whole\n"
        ),
    }
}

/// What to do about a text that is no JSON.
fn look_text(look: Look) -> &'static str {
    match look {
        Look::Xml => {
            "explain: it begins with <; if it is XML, convert it by tools/xml-templates FILE.xml\n"
        }
        Look::Mark => {
            "explain: it begins with a byte order mark; save it as UTF-8 without one\n"
        }
        Look::Comma => "explain: a comma stands before the bracket there; take it out\n",
        Look::Short => "explain: it ends before its last bracket; see that it was copied whole\n",
        Look::Unknown => "",
    }
}

/// Where a text is no JSON, and what to do.
fn no_json_text(alloc: Global, input: &str, no_json: NoJson) -> Result<String, AllocError> {
    let line = no_json.line;
    let column = no_json.column;
    let more = look_text(no_json.look);
    format!(in alloc;
        "explain: {input} is no JSON text from line {line} column {column} on\n{more}"
    )
}

/// A name in quotes behind a space, where it is known.
fn quoted(alloc: Global, name: Option<&String>) -> Result<String, AllocError> {
    match name {
        Some(name) => {
            let name = name.as_str();
            format!(in alloc; " {name:?}")
        }
        None => Ok(String::new(alloc)),
    }
}

/// Where an object stands, behind a comma, where that is known.
fn line_text(alloc: Global, place: Option<LineColumn>) -> Result<String, AllocError> {
    match place {
        Some(LineColumn { line, column }) => format!(in alloc; ", line {line} column {column}"),
        None => Ok(String::new(alloc)),
    }
}

/// Where and why templates are refused whose text is JSON.
fn load_text(alloc: Global, notes: &Notes, fault: LoadFault) -> Result<String, AllocError> {
    let why = match &notes.text.misfit {
        Some(misfit) => misfit.as_str(),
        None => rule_of(fault),
    };
    let template = fault.template;
    let name = quoted(alloc, notes.text.names.template.as_ref())?;
    let line = line_text(alloc, notes.text.place)?;
    if fault.instruction == 0 {
        return format!(in alloc; "explain: template {template}{name}{line}: {why}\n");
    }
    let instruction = fault.instruction;
    let field = quoted(alloc, notes.text.names.instruction.as_ref())?;
    format!(in alloc;
        "explain: template {template}{name}, instruction {instruction}{field}{line}: {why}\n"
    )
}

/// What is wrong with the object that a template text is.
fn top_text(alloc: Global, input: &str, notes: &Notes) -> Result<String, AllocError> {
    match &notes.text.misfit {
        Some(misfit) => {
            let misfit = misfit.as_str();
            format!(in alloc; "explain: {input}: {misfit}\n")
        }
        None => format!(in alloc;
            "explain: {input} is no object with \"templates\", an array, perhaps \"dictionary\", a name, and no other key\n"
        ),
    }
}

/// Where and why templates are refused.
fn templates_text(alloc: Global, input: &str, notes: &Notes) -> Result<String, AllocError> {
    if let Some(LineColumn { line, column }) = notes.text.no_text {
        return format!(in alloc;
            "explain: {input} is not UTF-8 from line {line} column {column} on; save it as UTF-8\n"
        );
    }
    match (notes.text.no_json, notes.load) {
        (Some(no_json), _) => no_json_text(alloc, input, no_json),
        (None, Some(fault)) if fault.template > 0 || fault.cause != LoadCause::S1 => {
            load_text(alloc, notes, fault)
        }
        (None, _) => top_text(alloc, input, notes),
    }
}

/// In which message a stream is refused, and of which packet.
fn message_text(alloc: Global, notes: &Notes, fault: Fault) -> Result<String, AllocError> {
    let message = fault.place.message;
    match notes.packet {
        Some(packet) => format!(in alloc; "packet {packet}, message {message}"),
        None => format!(in alloc; "message {message}"),
    }
}

/// Where a stream is refused, by names.
fn place_text(alloc: Global, notes: &Notes, fault: Fault) -> Result<String, AllocError> {
    let message = message_text(alloc, notes, fault)?;
    let offset = fault.place.offset;
    let names = names_text(alloc, notes)?;
    format!(in alloc; "{message}, offset {offset}{names}")
}

/// Why a stream is refused.
fn why_text(alloc: Global, notes: &Notes, fault: Fault) -> Result<String, AllocError> {
    match (fault.cause, notes.identifier) {
        (Cause::D9, Some(identifier)) => format!(in alloc;
            "no template has the identifier {identifier}; add the template, or see that the stream begins where a message does"
        ),
        (_, _) => String::from_str(alloc, meaning_of(notes.read_as, fault)),
    }
}

/// In how many of the first messages, or packets, an input is mostly refused that is read as another than it is.
const FIRST_PIECES: u64 = 3;

/// Whether so few messages, or packets, stand before a fault that the input may be read as another than it is.
fn is_early(packet: Option<u64>, fault: Fault) -> bool {
    match packet {
        Some(packet) => packet <= FIRST_PIECES,
        None => fault.place.message <= FIRST_PIECES,
    }
}

/// What else an input may be that is refused so.
fn read_as_text(read_as: ReadAs, packet: Option<u64>, fault: Fault) -> &'static str {
    let is_early = is_early(packet, fault);
    match (read_as, fault.cause) {
        (ReadAs::Stream(Framing::Plain), Cause::D5 | Cause::D9 | Cause::Truncated) if is_early => {
            "explain: if the stream is in blocks, each behind its size, give --blocks, or --packets where each begins with undefined entries; if other bytes stand before each message, take them out\n"
        }
        (ReadAs::Stream(Framing::Blocks), Cause::D5 | Cause::D9 | Cause::Truncated) if is_early => {
            "explain: if the stream has no blocks, leave out --blocks; if other bytes stand before each block, take them out\n"
        }
        (
            ReadAs::Stream(Framing::Blocks),
            Cause::D2 | Cause::D4 | Cause::D5 | Cause::D6 | Cause::D7 | Cause::R1,
        ) => {
            "explain: if each block is a datagram that begins with undefined entries, give --packets in place of --blocks\n"
        }
        (ReadAs::Recording, Cause::D5 | Cause::D9 | Cause::Truncated | Cause::BlockEnd)
            if is_early => {
            "explain: if the input has no packets, leave out --packets; if entries go on from packet to packet, give --blocks; if other bytes stand before each packet's messages, take them out\n"
        }
        _ => "",
    }
}

/// What the first bytes of a stream say of it.
fn stream_look_text(alloc: Global, input: &str, look: StreamLook) -> Result<String, AllocError> {
    match look {
        StreamLook::Hex => format!(in alloc;
            "explain: {input} begins with hex digits alone; for hex text give --hex\n"
        ),
        StreamLook::Pcap => format!(in alloc;
            "explain: {input} is a capture file (pcap); take its packets out by tools/pcap-packets, and read them with --packets\n"
        ),
        StreamLook::Pcapng => format!(in alloc;
            "explain: {input} is a capture file (pcapng); take its packets out by tools/pcap-packets, and read them with --packets\n"
        ),
        StreamLook::Gzip => format!(in alloc;
            "explain: {input} is compressed (gzip); give what gzip -dc writes of it\n"
        ),
    }
}

/// Where and why a stream is refused.
fn stream_text(alloc: Global, input: &str, notes: &Notes) -> Result<String, AllocError> {
    let Some(fault) = notes.fault else {
        return Ok(String::new(alloc));
    };
    let place = place_text(alloc, notes, fault)?;
    let why = why_text(alloc, notes, fault)?;
    let more = match notes.look {
        Some(look) => stream_look_text(alloc, input, look)?,
        None => String::from_str(alloc, read_as_text(notes.read_as, notes.packet, fault))?,
    };
    format!(in alloc; "explain: {place}: {why}\n{more}")
}

/// By which names a place is known, behind a comma.
fn names_text(alloc: Global, notes: &Notes) -> Result<String, AllocError> {
    match (&notes.names.template, &notes.names.instruction) {
        (Some(template), Some(field)) => {
            let template = template.as_str();
            let field = field.as_str();
            format!(in alloc; ", field {field:?} of template {template:?}")
        }
        (Some(template), None) => {
            let template = template.as_str();
            format!(in alloc; ", template {template:?}")
        }
        (None, _) => Ok(String::new(alloc)),
    }
}

/// Behind which byte of a line, where that is known.
fn column_text(alloc: Global, column: Option<usize>) -> Result<String, AllocError> {
    match column {
        Some(column) => format!(in alloc; " column {column}"),
        None => Ok(String::new(alloc)),
    }
}

/// Where and why a line is refused.
fn refused_line_text(alloc: Global, notes: &Notes, line: LineNote) -> Result<String, AllocError> {
    let number = line.number;
    let column = column_text(alloc, line.column)?;
    let names = names_text(alloc, notes)?;
    let why = meaning_of_line(line.cause);
    format!(in alloc; "explain: line {number}{column}{names}: {why}\n")
}

/// Where and why the input is refused.
fn refused_text(alloc: Global, input: &str, notes: &Notes) -> Result<String, AllocError> {
    match notes.line {
        Some(line) => refused_line_text(alloc, notes, line),
        None => stream_text(alloc, input, notes),
    }
}

/// Where a run stopped that met a fault of the machine: behind a sentence's last word.
fn stopped_text(alloc: Global, notes: &Notes) -> Result<String, AllocError> {
    match notes.fault {
        Some(fault) => {
            let message = message_text(alloc, notes, fault)?;
            format!(in alloc; " in {message}")
        }
        None => Ok(String::new(alloc)),
    }
}

// Why a file cannot be opened or read, or what to see to where that is not known.
fn file_text(state: FileState, unknown: &'static str) -> &'static str {
    match state {
        FileState::Missing => "no file has this name",
        FileState::Folder => "it is a folder",
        FileState::Forbidden => "it may not be read by this user",
        FileState::Unknown => unknown,
    }
}

// What a refusal of this input means, behind whose sentences stands where a run stopped.
fn sentences(
    alloc: Global,
    input: &str,
    stopped: &str,
    refusal: &Refusal,
    notes: &Notes,
) -> Result<String, AllocError> {
    match refusal {
        Refusal::Stream(_) => refused_text(alloc, input, notes),
        Refusal::Templates(_) => templates_text(alloc, input, notes),
        Refusal::TemplatesTooLong => format!(in alloc;
            "explain: {input} has more than 16777216 bytes; leave out templates that the stream does not need\n"
        ),
        Refusal::TooLong => format!(in alloc;
            "explain: {input} has more than 16777216 bytes; give the stream's own bytes, without --hex\n"
        ),
        Refusal::NotHex => match notes.stray {
            Some(stray) => stray_text(alloc, input, stray),
            None => Ok(String::new(alloc)),
        },
        Refusal::Open => {
            let why = file_text(
                notes.file,
                "see that it is there, is a file and may be read",
            );
            format!(in alloc; "explain: {input} cannot be opened; {why}\n")
        }
        Refusal::Read => {
            let why = file_text(notes.file, "see that its disk or device is well");
            format!(in alloc;
                "explain: {input} cannot be read to its end: a read failed{stopped}; {why}\n"
            )
        }
        Refusal::Turns => format!(in alloc;
            "explain: {input} has no end within the reads that are made{stopped}; cut it into shorter ones\n"
        ),
        Refusal::Write => String::from_str(
            alloc,
            "explain: the standard output took no more bytes; see that its disk has room, and its reader goes on\n",
        ),
        Refusal::Memory => format!(in alloc;
            "explain: memory was refused while {input} was at hand{stopped}; give the program more\n"
        ),
        Refusal::Line(_) | Refusal::NotText => Ok(String::new(alloc)),
    }
}

/// What a refusal means, in one or two lines with a line feed each, and what to do; nothing for a command line.
pub fn explain(
    alloc: Global,
    files: Files<'_>,
    refusal: &Refusal,
    notes: &Notes,
) -> Result<String, AllocError> {
    let input = input_text(alloc, files, notes.reading)?;
    let stopped = stopped_text(alloc, notes)?;
    sentences(alloc, &input, &stopped, refusal, notes)
}
