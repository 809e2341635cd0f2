//! What is known of a refusal beside its line.

use crate::hex_text::{Stray, stray_in};
use crate::looks::{StreamLook, look_of_stream};
use crate::names::{Names, names_in_set};
use crate::seen::Seen;
use crate::template_text::{TextNotes, notes_of_text};
use fast_host::FileState;
use fast_pass::CanonFault;
use fast_stream::{Cause, Fault, Framing};
use fast_template::TemplateSet;
use fast_wire::read_u64;
use fast_written::LoadFault;
use std::alloc::Global;

/// Which input is at hand.
#[derive(Clone, Copy)]
pub(crate) enum Reading {
    Templates,
    Stream,
}

/// What the input is read as.
#[derive(Clone, Copy, Debug, PartialEq, Eq)]
pub enum ReadAs {
    /// A stream in this framing.
    Stream(Framing),
    /// A recording of packets.
    Recording,
    /// Lines of messages.
    Lines,
}

/// Where and why a line of messages is refused.
#[derive(Clone, Copy)]
pub(crate) struct LineNote {
    pub(crate) number: u64,
    pub(crate) cause: &'static str,
    /// Behind which byte of the line, where that is known.
    pub(crate) column: Option<usize>,
    template: u32,
    instruction: u32,
}

/// What is known of a refusal beside its line. Nothing is noted where it is not asked for, and what memory is refused
/// for stays unknown.
#[derive(Drop)]
pub struct Notes {
    is_asked: bool,
    pub(crate) reading: Reading,
    pub(crate) read_as: ReadAs,
    pub(crate) load: Option<LoadFault>,
    /// What is known of the text of refused templates.
    pub(crate) text: TextNotes,
    pub(crate) fault: Option<Fault>,
    /// The packet in which it is.
    pub(crate) packet: Option<u64>,
    /// The line that is refused.
    pub(crate) line: Option<LineNote>,
    /// The names at a fault of the stream or of the line.
    pub(crate) names: Names,
    /// The identifier of no template.
    pub(crate) identifier: Option<u64>,
    /// What keeps the input from being hex text.
    pub(crate) stray: Option<Stray>,
    /// What the first bytes of the stream look like.
    pub(crate) look: Option<StreamLook>,
    /// What a look at a file found that cannot be opened or read.
    pub(crate) file: FileState,
}

/// The number that stands at a place of a stream, of which these are the bytes from `before` on.
fn number_at(bytes: &[u8], before: u64, offset: u64) -> Option<u64> {
    let at = usize::try_from(offset.checked_sub(before)?).ok()?;
    if at > bytes.len() {
        return None;
    }
    match read_u64(bytes, at) {
        Ok((number, _)) => Some(number),
        Err(_) => None,
    }
}

impl Notes {
    /// No notes of an input that is read so.
    pub fn new(is_asked: bool, read_as: ReadAs) -> Notes {
        Notes {
            is_asked,
            reading: Reading::Templates,
            read_as,
            load: None,
            text: TextNotes::unknown(),
            fault: None,
            packet: None,
            line: None,
            names: Names::unknown(),
            identifier: None,
            stray: None,
            look: None,
            file: FileState::Unknown,
        }
    }

    /// Whether an explanation is asked for.
    pub fn is_asked(&self) -> bool {
        self.is_asked
    }

    /// Notes that the templates of this text are refused.
    pub fn templates_refused(&mut self, alloc: Global, fault: LoadFault, text: &[u8]) {
        if self.is_asked {
            self.load = Some(fault);
            if let Ok(text) = notes_of_text(alloc, fault, text) {
                self.text = text;
            }
        }
    }

    /// Notes that the templates are loaded, and the stream is at hand.
    pub fn templates_loaded(&mut self) {
        self.reading = Reading::Stream;
    }

    /// Which of two inputs is at hand.
    pub fn at_hand<T: Copy>(&self, templates: T, stream: T) -> T {
        match self.reading {
            Reading::Templates => templates,
            Reading::Stream => stream,
        }
    }

    /// Notes what a look at the file at hand found.
    pub fn file_looked_at(&mut self, state: FileState) {
        self.file = state;
    }

    /// Notes that a text is to be hex.
    pub fn hex_read(&mut self, text: &[u8]) {
        if self.is_asked {
            self.stray = stray_in(text);
        }
    }

    /// Notes that a run did not end well.
    pub fn run_failed(&mut self, fault: CanonFault) {
        if let CanonFault::Stream(fault) = fault {
            self.stream_stopped(fault);
        }
    }

    /// Notes where a stream stopped.
    pub fn stream_stopped(&mut self, fault: Fault) {
        self.fault = Some(fault);
    }

    /// Notes where a recording stopped: at a fault in this packet, whose offset is one of the recording.
    pub fn recording_stopped(&mut self, packet: u64, fault: Fault) {
        self.packet = Some(packet);
        self.fault = Some(fault);
    }

    /// Notes that a line is refused, at this instruction of the template of an identifier.
    pub fn line_refused(
        &mut self,
        number: u64,
        cause: &'static str,
        template: u32,
        instruction: u32,
        column: Option<usize>,
    ) {
        self.line = Some(LineNote {
            number,
            cause,
            column,
            template,
            instruction,
        });
    }

    /// The template and the instruction of a fault of the stream or of a line.
    fn numbers(&self) -> Option<(u32, u32)> {
        match (self.fault, self.line) {
            (Some(fault), _) => Some((fault.place.template, fault.place.instruction)),
            (None, Some(line)) => Some((line.template, line.instruction)),
            (None, None) => None,
        }
    }

    /// Notes which names a fault of the stream or of a line has.
    pub fn stream_refused(&mut self, alloc: Global, set: &TemplateSet) {
        if let Some((template, instruction)) = self.numbers()
            && self.is_asked
            && let Ok(names) = names_in_set(alloc, set, template, instruction)
        {
            self.names = names;
        }
    }

    /// Notes the identifier of no template, of bytes of the stream behind so many others.
    fn identifier_in(&mut self, bytes: &[u8], before: u64) {
        if let Some(fault) = self.fault
            && fault.cause == Cause::D9
        {
            self.identifier = number_at(bytes, before, fault.place.offset);
        }
    }

    /// Notes what is to be known of a stream in memory.
    pub fn stream_in_memory(&mut self, stream: &[u8]) {
        if self.is_asked {
            self.identifier_in(stream, 0);
        }
    }

    /// Notes what is to be known of a stream's bytes as they were read.
    pub fn stream_seen<I>(&mut self, input: &Seen<I>) {
        if let Some(kept) = input.kept() {
            self.look = look_of_stream(&kept.first);
            self.identifier_in(&kept.last, kept.before);
        }
    }
}
