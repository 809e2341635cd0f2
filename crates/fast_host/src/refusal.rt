//! Why the program does not do what it is asked to, and what it says of that.

ghost use Rattle.std.specs.Prelude.{◌≡◌, ◌≢◌, IfOk};
ghost use Rattle.std.specs.String.{string_bytes};
ghost use Rattle.std.specs.IoError.{error_kind};
ghost use Rattle.std.specs.declared.io.ErrorKind.TheVariants as io_kind;
ghost use Rattle.clap.specs.Words.{kind_of};
ghost use Rattle.fast_host.specs.Refusals.{IsOfLoad, IsOfRun, IsOfStream, IsTextOrMemory, load_refusal_of, machine_refusal_of, of_hex_lem, of_template_text_lem, of_text_lem, status_of, stream_line_of, templates_line_of, text_of};

use crate::hex_text::HexFault;
use crate::input::TextFault;
use clap::error::ErrorKind;
use fast_pass::CanonFault;
use fast_stream::{Cause, Fault};
use fast_written::{LoadCause, LoadFault};
use std::alloc::{AllocError, Global};
use std::io;

/// Why the program does not do what it is asked to, or not to the end.
#[derive(Debug, Drop)]
pub enum Refusal {
    /// The stream is refused, with the line that says so.
    Stream(String),
    /// The command line is refused, or asks for help, with the text for the user.
    Line(String),
    /// The templates are refused, with the line that says so.
    Templates(String),
    /// A word of the command line is not UTF-8.
    NotText,
    /// The template text has more bytes than a text may have.
    TemplatesTooLong,
    /// The input is not an even number of hex digits.
    NotHex,
    /// The input has more bytes than a hex text may have.
    TooLong,
    /// A file is not there, or cannot be opened.
    Open,
    /// The input answered an error.
    Read,
    /// The output answered an error, or took nothing.
    Write,
    /// The stated number of reads is used up.
    Turns,
    /// An allocation was refused.
    Memory,
}

/// What want of memory for templates is answered with; none where the templates are refused.
fn load_refusal(cause: LoadCause) -> Option<Refusal>
    ensures { result ≡ load_refusal_of cause }
{
    match cause {
        LoadCause::Memory => Some(Refusal::Memory),
        LoadCause::S1
        | LoadCause::S2
        | LoadCause::S3
        | LoadCause::S4
        | LoadCause::S5
        | LoadCause::D8
        | LoadCause::DuplicateName
        | LoadCause::DuplicateId
        | LoadCause::Cycle
        | LoadCause::TooDeep
        | LoadCause::TooMany => None,
    }
}

/// The line of a refused stream.
fn stream_line(alloc: Global, fault: Fault) -> Result<String, AllocError>
    ensures { IfOk result (λ line. string_bytes line ≡ stream_line_of fault) }
{
    let cause = fault.cause.name();
    let message = fault.place.message;
    let offset = fault.place.offset;
    let template = fault.place.template;
    let instruction = fault.place.instruction;
    format!(in alloc;
        "refused {cause} message={message} offset={offset} template={template} instruction={instruction}\n"
    )
}

/// The line of refused templates.
fn templates_line(alloc: Global, fault: LoadFault) -> Result<String, AllocError>
    ensures { IfOk result (λ line. string_bytes line ≡ templates_line_of fault) }
{
    let cause = fault.cause.name();
    let template = fault.template;
    let instruction = fault.instruction;
    format!(in alloc; "templates refused {cause} template={template} instruction={instruction}\n")
}

impl Refusal {
    /// The exit status of the program.
    pub fn status(&self) -> u8
        ensures { result ≡ status_of self.now }
    {
        match self {
            Refusal::Stream(_) => 1,
            Refusal::Line(_)
            | Refusal::Templates(_)
            | Refusal::NotText
            | Refusal::TemplatesTooLong
            | Refusal::NotHex
            | Refusal::TooLong => 2,
            Refusal::Open | Refusal::Read | Refusal::Write | Refusal::Turns | Refusal::Memory => 3,
        }
    }

    /// The text for the user, with its last line feed.
    pub fn text(&self) -> &str
        ensures { result.now ≡ text_of self.now }
    {
        match self {
            Refusal::Stream(text) | Refusal::Line(text) | Refusal::Templates(text) => text.as_str(),
            Refusal::NotText => "command line is not UTF-8\n",
            Refusal::TemplatesTooLong => "templates too long\n",
            Refusal::NotHex => "input is not hex\n",
            Refusal::TooLong => "input too long\n",
            Refusal::Open => "fault open\n",
            Refusal::Read => "fault read\n",
            Refusal::Write => "fault write\n",
            Refusal::Turns => "fault turns\n",
            Refusal::Memory => "fault memory\n",
        }
    }

    /// What a command line that gives no words is answered with.
    pub fn of_words(error: &io::Error) -> Refusal
        ensures memory { error_kind error.now ≡ io_kind.OutOfMemory → result ≡ Refusal.Memory }
        ensures text { error_kind error.now ≢ io_kind.OutOfMemory → result ≡ Refusal.NotText }
    {
        if error.kind() == io::ErrorKind::OutOfMemory {
            Refusal::Memory
        } else {
            Refusal::NotText
        }
    }

    /// What a command line that is no request is answered with: the parser's text, help included. A parser that had
    /// no memory refuses no line.
    pub fn of_line(alloc: Global, error: &clap::Error) -> Refusal
        ensures memory { kind_of error.now ≡ ErrorKind.OutOfMemory → result ≡ Refusal.Memory }
        ensures line { IsTextOrMemory result }
    {
        if error.kind() == ErrorKind::OutOfMemory {
            return Refusal::Memory;
        }
        match format!(in alloc; "{error}") {
            Ok(text) => Refusal::Line(text),
            Err(_) => Refusal::Memory,
        }
    }

    /// What an input that gives no text of templates is answered with.
    pub fn of_template_text(fault: TextFault) -> Refusal
        ensures { result ≡ of_template_text_lem fault }
    {
        match fault {
            TextFault::TooLong => Refusal::TemplatesTooLong,
            TextFault::Read => Refusal::Read,
            TextFault::Turns => Refusal::Turns,
            TextFault::Memory => Refusal::Memory,
        }
    }

    /// What refused templates are answered with.
    pub fn of_load(alloc: Global, fault: LoadFault) -> Refusal
        ensures { IsOfLoad fault result }
    {
        match load_refusal(fault.cause) {
            Some(refusal) => refusal,
            None => match templates_line(alloc, fault) {
                Ok(line) => Refusal::Templates(line),
                Err(_) => Refusal::Memory,
            },
        }
    }

    /// What an input that gives no hex text is answered with.
    pub fn of_text(fault: TextFault) -> Refusal
        ensures { result ≡ of_text_lem fault }
    {
        match fault {
            TextFault::TooLong => Refusal::TooLong,
            TextFault::Read => Refusal::Read,
            TextFault::Turns => Refusal::Turns,
            TextFault::Memory => Refusal::Memory,
        }
    }

    /// What a hex text that gives no bytes is answered with.
    pub fn of_hex(fault: HexFault) -> Refusal
        ensures { result ≡ of_hex_lem fault }
    {
        match fault {
            HexFault::NotHex => Refusal::NotHex,
            HexFault::Memory => Refusal::Memory,
        }
    }

    /// What a fault of the machine in mid-stream is answered with; none where the bytes are refused.
    pub fn of_machine(cause: Cause) -> Option<Refusal>
        ensures { result ≡ machine_refusal_of cause }
    {
        match cause {
            Cause::Read => Some(Refusal::Read),
            Cause::Turns => Some(Refusal::Turns),
            Cause::Memory => Some(Refusal::Memory),
            Cause::D2
            | Cause::D4
            | Cause::D5
            | Cause::D6
            | Cause::D7
            | Cause::D9
            | Cause::D12
            | Cause::R1
            | Cause::R2
            | Cause::R6
            | Cause::R7
            | Cause::R8
            | Cause::R9
            | Cause::BlockEnd
            | Cause::Truncated
            | Cause::Limit => None,
        }
    }

    /// What a stream that was not read to its end is answered with.
    pub fn of_stream(alloc: Global, fault: Fault) -> Refusal
        ensures { IsOfStream fault result }
    {
        match Refusal::of_machine(fault.cause) {
            Some(refusal) => refusal,
            None => match stream_line(alloc, fault) {
                Ok(line) => Refusal::Stream(line),
                Err(_) => Refusal::Memory,
            },
        }
    }

    /// What a run that did not end well is answered with.
    pub fn of_run(alloc: Global, fault: CanonFault) -> Refusal
        ensures { IsOfRun fault result }
    {
        match fault {
            CanonFault::Stream(fault) => Refusal::of_stream(alloc, fault),
            CanonFault::Write => Refusal::Write,
            CanonFault::Memory => Refusal::Memory,
        }
    }
}
