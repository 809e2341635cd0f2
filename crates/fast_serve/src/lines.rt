//! Lines that are written as canonical bytes.

ghost use Rattle.std.specs.Prelude.{◌≡◌, ◌≤◌, ◌^◌, IfOk};
ghost use Rattle.std.specs.String.{string_bytes};
ghost use Rattle.fast_machine.specs.Inputs.{told_by};
ghost use Rattle.fast_host.specs.Devices.{writer_by};
ghost use Rattle.fast_serve.specs.Lines.{IsLineOrMemory, IsOfWriting, form_by as form_by_lem, line_cause_of, line_text_of, message_cause_of, message_text_of};
ghost use Rattle.fast_serve.specs.Served.{RunsLines, RunsPacketLines};

use crate::ended::Ended;
use fast_explain::Notes;
use fast_host::Refusal;
use fast_io::{ByteInput, ByteOutput};
use fast_template::TemplateSet;
use fast_write::{
    EncodeCause, EncodeFault, LineCause, LineFault, OutputForm, WriteFault, write_lines,
    write_packets,
};
use std::alloc::{AllocError, Global};

/// The form of canonical bytes that a flag asks for.
fn form_by(hex: bool) -> OutputForm
    ensures { result ≡ form_by_lem hex }
{
    if hex {
        OutputForm::Hex
    } else {
        OutputForm::Bytes
    }
}

/// The word of a cause of a line that stands for no message.
fn line_cause(cause: LineCause) -> &'static str
    ensures { result.now ≡ line_cause_of cause }
{
    match cause {
        LineCause::Json => "Json",
        LineCause::Line => "Line",
        LineCause::D9 => "D9",
        LineCause::Member => "Member",
        LineCause::Mismatch => "Mismatch",
        LineCause::D2 => "D2",
        LineCause::R1 => "R1",
        LineCause::Limit => "Limit",
        LineCause::Memory => "Memory",
    }
}

/// The word of a cause of a message that has no form.
fn message_cause(cause: EncodeCause) -> &'static str
    ensures { result.now ≡ message_cause_of cause }
{
    match cause {
        EncodeCause::D3 => "D3",
        EncodeCause::D4 => "D4",
        EncodeCause::D6 => "D6",
        EncodeCause::D9 => "D9",
        EncodeCause::R1 => "R1",
        EncodeCause::NotConstant => "NotConstant",
        EncodeCause::TooShort => "TooShort",
        EncodeCause::Mismatch => "Mismatch",
        EncodeCause::Limit => "Limit",
        EncodeCause::Write => "Write",
        EncodeCause::Memory => "Memory",
    }
}

/// What is said of a line that stands for no message.
fn line_text(alloc: Global, number: u64, fault: LineFault) -> Result<String, AllocError>
    ensures { IfOk result (λ text. string_bytes text ≡ line_text_of number fault) }
{
    let cause = line_cause(fault.cause);
    let template = fault.template;
    let instruction = fault.instruction;
    format!(in alloc;
        "refused {cause} line={number} template={template} instruction={instruction}\n"
    )
}

/// What is said of a line whose message has no form.
fn message_text(
    alloc: Global,
    number: u64,
    template: u32,
    fault: EncodeFault,
) -> Result<String, AllocError>
    ensures { IfOk result (λ text. string_bytes text ≡ message_text_of number template fault) }
{
    let cause = message_cause(fault.cause);
    let instruction = fault.instruction;
    format!(in alloc;
        "refused {cause} line={number} template={template} instruction={instruction}\n"
    )
}

/// The refusal of a line that stands for no message.
fn of_line(alloc: Global, number: u64, fault: LineFault) -> Refusal
    ensures { IsLineOrMemory (line_text_of number fault) result }
{
    match line_text(alloc, number, fault) {
        Ok(text) => Refusal::Stream(text),
        Err(_) => Refusal::Memory,
    }
}

/// The refusal of a line whose message has no form.
fn of_message(alloc: Global, number: u64, template: u32, fault: EncodeFault) -> Refusal
    ensures { IsLineOrMemory (message_text_of number template fault) result }
{
    match message_text(alloc, number, template, fault) {
        Ok(text) => Refusal::Stream(text),
        Err(_) => Refusal::Memory,
    }
}

/// What lines that were not written to their end are answered with.
fn of_writing(alloc: Global, fault: WriteFault) -> Refusal
    ensures { IsOfWriting fault result }
{
    match fault {
        WriteFault::Line(number, fault) => of_line(alloc, number, fault),
        WriteFault::Message(number, template, fault) => of_message(alloc, number, template, fault),
        WriteFault::Read => Refusal::Read,
        WriteFault::Write => Refusal::Write,
        WriteFault::Turns => Refusal::Turns,
        WriteFault::Memory => Refusal::Memory,
    }
}

/// Notes why lines were not written to their end.
fn note(notes: &mut Notes, fault: WriteFault) {
    match fault {
        WriteFault::Line(number, fault) => notes.line_refused(
            number,
            line_cause(fault.cause),
            fault.template,
            fault.instruction,
            Some(fault.column),
        ),
        WriteFault::Message(number, template, fault) => notes.line_refused(
            number,
            message_cause(fault.cause),
            template,
            fault.instruction,
            None,
        ),
        WriteFault::Read | WriteFault::Write | WriteFault::Turns | WriteFault::Memory => {}
    }
}

/// Writes the canonical bytes of the messages that the input's lines stand for.
pub(crate) fn run_lines<I: ByteInput, O: ByteOutput>(
    alloc: Global,
    hex: bool,
    set: &TemplateSet,
    input: &mut I,
    out: &mut O,
    turns: u64,
    notes: &mut Notes,
) -> Result<Ended, Refusal>
    requires turns { turns ≤ 2 ^ 40 }
    ensures { RunsLines hex set.now turns (told_by I.ByteInput input.old) (told_by I.ByteInput input.new)
        (writer_by O.taken O.errors O.flushes out.old) (writer_by O.taken O.errors O.flushes out.new) result }
{
    match write_lines(alloc, set, form_by(hex), input, out, turns) {
        Ok(_) => Ok(Ended::Accepted),
        Err(fault) => {
            note(notes, fault);
            Err(of_writing(alloc, fault))
        }
    }
}

/// Writes the canonical recording of the packets whose messages the input's lines stand for.
pub(crate) fn run_packet_lines<I: ByteInput, O: ByteOutput>(
    alloc: Global,
    hex: bool,
    set: &TemplateSet,
    input: &mut I,
    out: &mut O,
    turns: u64,
    notes: &mut Notes,
) -> Result<Ended, Refusal>
    requires turns { turns ≤ 2 ^ 40 }
    ensures { RunsPacketLines hex set.now turns (told_by I.ByteInput input.old) (told_by I.ByteInput input.new)
        (writer_by O.taken O.errors O.flushes out.old) (writer_by O.taken O.errors O.flushes out.new) result }
{
    match write_packets(alloc, set, form_by(hex), input, out, turns) {
        Ok(_) => Ok(Ended::Accepted),
        Err(fault) => {
            note(notes, fault);
            Err(of_writing(alloc, fault))
        }
    }
}
