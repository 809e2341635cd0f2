//! What a call answers.

ghost use Rattle.std.specs.Prelude.{◌≡◌};
ghost use Rattle.fast_slices.specs.Answers.{answer_of as answer_of_lem, bare_of, cause_number_of, line_cause_number_of, load_cause_number_of, message_cause_number_of, no_counts as no_counts_lem, of_fault as of_fault_lem, of_line as of_line_lem};

use fast_recording::PacketFault;
use fast_stream::{Cause, Fault};
use fast_write::{EncodeCause, EncodeFault, LineCause, LineFault};
use fast_written::{LoadCause, LoadFault};

/// What a call counted.
#[derive(Clone, Copy)]
pub struct Counts {
    /// The packets of a recording that was read; 0 of a stream, and of lines that are written.
    pub packets: u64,
    pub messages: u64,
    /// The bytes that were read.
    pub read: u64,
    /// The bytes that were put into the room, or of a check those that would be.
    pub written: u64,
}

/// What a call counted that reads no stream and no lines: nothing.
pub fn no_counts() -> Counts
    ensures { result ≡ no_counts_lem }
{
    Counts {
        packets: 0,
        messages: 0,
        read: 0,
        written: 0,
    }
}

/// Why a call did not do what it was asked to.
#[derive(Clone, Copy)]
pub enum Refusal {
    /// The stream is refused; behind the fault how many bytes were put into the room.
    Stream(Fault, u64),
    /// A packet of the recording is, likewise.
    Packet(PacketFault, u64),
    /// A line, counted from 1, stands for no message; behind the fault how many bytes were put into the room.
    Line(u64, LineFault, u64),
    /// The message of a line, of a template of this identifier, has no form; likewise.
    Message(u64, u32, EncodeFault, u64),
    /// The templates are refused.
    Templates(LoadFault),
    /// What is to be written is more than the room; how many bytes it is.
    Room(u64),
    /// An allocation was refused.
    Memory,
    /// The mode has a bit that says nothing.
    Mode,
    /// The stream has more bytes than a call reads.
    TooLong,
    /// The handle has nothing, or something else than is asked for.
    Handle,
    /// What comes as nodes does not begin with a message; its number, counted from 1.
    NoMessage(u64),
    /// The message of this number, counted from 1, has more bytes of strings than its reader takes.
    TooLarge(u64),
}

/// What a call answers C. Where nothing is said of a number it is 0.
#[repr(C)]
#[derive(Clone, Copy)]
pub struct Answer {
    /// The messages of the stream, or of a refused one, or a refused packet, those before its fault.
    pub messages: u64,
    /// The bytes of a stream that was read to its end.
    pub read: u64,
    /// The bytes that were put into the room, or of a check those that would be; of a room that is too short those that
    /// are needed.
    pub written: u64,
    /// The message at which the stream or the packet is refused, or the line, from 1.
    pub message: u64,
    /// How many bytes stand before the piece that is refused.
    pub offset: u64,
    /// How the call ended: 0 for done.
    pub status: u32,
    /// Why the stream, the line or the templates are refused.
    pub cause: u32,
    /// Of a refused stream or line the template's identifier, of refused templates the template's place, from 1.
    pub template: u32,
    /// The instruction's number, from 1.
    pub instruction: u32,
    /// The packets of the recording, or of a refused one those before the packet that is refused.
    pub packets: u64,
    /// The packet that is refused, from 1.
    pub packet: u64,
}

/// The number of a cause of a refused stream; those of the machine, which are no refusal, have 0.
fn cause_number(cause: Cause) -> u32
    ensures { result ≡ cause_number_of cause }
{
    match cause {
        Cause::D2 => 1,
        Cause::D4 => 2,
        Cause::D5 => 3,
        Cause::D6 => 4,
        Cause::D7 => 5,
        Cause::D9 => 6,
        Cause::D12 => 7,
        Cause::R1 => 8,
        Cause::R2 => 9,
        Cause::R6 => 10,
        Cause::R7 => 11,
        Cause::R8 => 12,
        Cause::R9 => 13,
        Cause::BlockEnd => 14,
        Cause::Truncated => 15,
        Cause::Limit => 16,
        Cause::Read | Cause::Turns | Cause::Memory => 0,
    }
}

/// The number of a cause of refused templates; want of memory, which is no refusal, has 0.
fn load_cause_number(cause: LoadCause) -> u32
    ensures { result ≡ load_cause_number_of cause }
{
    match cause {
        LoadCause::S1 => 101,
        LoadCause::S2 => 102,
        LoadCause::S3 => 103,
        LoadCause::S4 => 104,
        LoadCause::S5 => 105,
        LoadCause::D8 => 106,
        LoadCause::DuplicateName => 107,
        LoadCause::DuplicateId => 108,
        LoadCause::Cycle => 109,
        LoadCause::TooDeep => 110,
        LoadCause::TooMany => 111,
        LoadCause::Memory => 0,
    }
}

/// The number of a cause for which a line stands for no message.
fn line_cause_number(cause: LineCause) -> u32
    ensures { result ≡ line_cause_number_of cause }
{
    match cause {
        LineCause::D2 => 1,
        LineCause::D9 => 6,
        LineCause::R1 => 8,
        LineCause::Limit => 16,
        LineCause::Json => 201,
        LineCause::Line => 202,
        LineCause::Member => 203,
        LineCause::Mismatch => 204,
        LineCause::Memory => 0,
    }
}

/// The number of a cause for which the message of a line has no form.
fn message_cause_number(cause: EncodeCause) -> u32
    ensures { result ≡ message_cause_number_of cause }
{
    match cause {
        EncodeCause::D4 => 2,
        EncodeCause::D6 => 4,
        EncodeCause::D9 => 6,
        EncodeCause::R1 => 8,
        EncodeCause::Limit => 16,
        EncodeCause::Mismatch => 204,
        EncodeCause::D3 => 205,
        EncodeCause::NotConstant => 206,
        EncodeCause::TooShort => 207,
        EncodeCause::Memory | EncodeCause::Write => 0,
    }
}

/// An answer that tells of its status alone.
fn bare(status: u32) -> Answer
    ensures { result ≡ bare_of status }
{
    Answer {
        messages: 0,
        read: 0,
        written: 0,
        message: 0,
        offset: 0,
        status,
        cause: 0,
        template: 0,
        instruction: 0,
        packets: 0,
        packet: 0,
    }
}

/// What is answered of a fault of a stream, or of a packet's.
fn of_fault(fault: Fault, written: u64) -> Answer
    ensures { result ≡ of_fault_lem fault written }
{
    Answer {
        messages: fault.place.message.saturating_sub(1),
        written,
        message: fault.place.message,
        offset: fault.place.offset,
        cause: cause_number(fault.cause),
        template: fault.place.template,
        instruction: fault.place.instruction,
        ..bare(1)
    }
}

/// What is answered of a line that is refused.
fn of_line(line: u64, cause: u32, template: u32, instruction: u32, written: u64) -> Answer
    ensures { result ≡ of_line_lem line cause template instruction written }
{
    Answer {
        written,
        message: line,
        cause,
        template,
        instruction,
        ..bare(7)
    }
}

/// What C is answered.
pub fn answer_of(done: Result<Counts, Refusal>) -> Answer
    ensures { result ≡ answer_of_lem done }
{
    match done {
        Ok(counts) => Answer {
            messages: counts.messages,
            read: counts.read,
            written: counts.written,
            packets: counts.packets,
            ..bare(0)
        },
        Err(Refusal::Stream(fault, written)) => of_fault(fault, written),
        Err(Refusal::Packet(refused, written)) => Answer {
            packets: refused.packet.saturating_sub(1),
            packet: refused.packet,
            ..of_fault(refused.fault, written)
        },
        Err(Refusal::Line(number, fault, written)) => of_line(
            number,
            line_cause_number(fault.cause),
            fault.template,
            fault.instruction,
            written,
        ),
        Err(Refusal::Message(number, template, fault, written)) => of_line(
            number,
            message_cause_number(fault.cause),
            template,
            fault.instruction,
            written,
        ),
        Err(Refusal::Templates(fault)) => Answer {
            cause: load_cause_number(fault.cause),
            template: fault.template,
            instruction: fault.instruction,
            ..bare(2)
        },
        Err(Refusal::Room(needed)) => Answer {
            written: needed,
            ..bare(3)
        },
        Err(Refusal::Memory) => bare(4),
        Err(Refusal::Mode) => bare(5),
        Err(Refusal::TooLong) => bare(6),
        Err(Refusal::Handle) => bare(8),
        Err(Refusal::NoMessage(message)) => Answer { message, ..bare(9) },
        Err(Refusal::TooLarge(message)) => Answer {
            message,
            ..bare(10)
        },
    }
}
