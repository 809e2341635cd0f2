//! What causes mean, and what to do.

use crate::notes::ReadAs;
use fast_stream::{Cause, Fault};
use fast_written::{LoadCause, LoadFault};

/// What the cause of a refused stream means, and what to do.
pub fn meaning_of(read_as: ReadAs, fault: Fault) -> &'static str {
    match fault.cause {
        Cause::D2 => {
            "the integer is out of the bounds of its type; compare the type with the sender's templates"
        }
        Cause::D4 => {
            "the previous value is of another type; give fields of one key one type, or keys of their own"
        }
        Cause::D5 if fault.place.template == 0 && fault.place.instruction == 0 => {
            "the message has no template identifier, and none came before; read the stream from its start"
        }
        Cause::D5 => {
            "the field is mandatory and left out, and no earlier value stands for it; read the stream from its start, or compare the field with the sender's templates"
        }
        Cause::D6 => {
            "the field is mandatory and needs its previous value, which is absent; compare presence and operator with the sender's templates"
        }
        Cause::D7 => {
            "more is taken away than the previous value has, or the subtraction length is no int32; read the stream from its start, or compare the operator with the sender's templates"
        }
        Cause::D9 => {
            "no template has the identifier that stands there; add the template, or see that the stream begins where a message does"
        }
        Cause::D12 if read_as == ReadAs::Recording => {
            "the size of the packet is zero; if the input has no packets, leave out --packets"
        }
        Cause::D12 =>
            "the size of the block is zero; if the stream has no blocks, leave out --blocks",
        Cause::BlockEnd if read_as == ReadAs::Recording => {
            "the packet ends inside a message; compare the templates with the sender's"
        }
        Cause::BlockEnd => {
            "the block ends inside a message; if the stream has no blocks, leave out --blocks, else compare the templates with the sender's"
        }
        Cause::R1 => {
            "the exponent is outside -63..63, or the mantissa outside int64; compare the field with the sender's templates"
        }
        Cause::R2 => {
            "the charset is unicode, and the bytes are not UTF-8; give the field the kind byteVector to read such bytes"
        }
        Cause::R6 => {
            "the integer, length or size has more bytes than it needs; leave out --strict to read it"
        }
        Cause::R7 => "the presence map has more bytes than it needs; leave out --strict to read it",
        Cause::R8 => {
            "a bit of the presence map is 1 that no instruction asked for; compare the templates with the sender's, or leave out --strict"
        }
        Cause::R9 => {
            "the string has a preamble that it does not need; leave out --strict to read it"
        }
        Cause::Truncated if read_as == ReadAs::Recording => {
            "the recording ends inside a packet or its size; see that it was copied whole"
        }
        Cause::Truncated => {
            "the stream ends inside a message or a block; see that it was copied whole"
        }
        Cause::Limit => {
            "more bytes, characters, elements or nodes stand there than are read; compare the templates with the sender's"
        }
        Cause::Read => "a read failed",
        Cause::Turns => "the reads are used up",
        Cause::Memory => "memory was refused",
    }
}

/// What the cause of a refused line means, and what to do.
pub fn meaning_of_line(cause: &str) -> &'static str {
    match cause {
        "Json" => "the line is no JSON text in UTF-8, or nests more than 128 levels; mend it there",
        "Line" => {
            "a line is an object of \"template\" or \"id\" or both, and of \"fields\", each once, and of nothing else; with --packets also of \"packet\", a number that is not below that of the line before"
        }
        "D9" => {
            "no template has this name or identifier, or they are of two; compare them with the templates"
        }
        "Member" => {
            "the template has no such field, or has it fewer times; compare the names with the templates"
        }
        "Mismatch" => {
            "the value is not of the field's type, or a mandatory one is not there; compare the field with the templates"
        }
        "D2" => "the integer is out of the bounds of its type",
        "R1" => "the exponent is outside -63..63, or the mantissa outside int64",
        "D3" => "the decimal does not have the exponent or the mantissa that the templates give",
        "D4" => "the earlier value of this key is of another type; give fields of one key one type",
        "D6" => "the field needs an earlier value, and the last one was null",
        "NotConstant" => "the value is not the constant of its field",
        "TooShort" => "the value is shorter than the earlier one whose end it changes",
        _ => {
            "the line has more than 16777216 bytes, or more text, elements or fields than a message may have, or its packet more than 65535 bytes"
        }
    }
}

/// What the cause of refused templates asks for.
pub fn rule_of(fault: LoadFault) -> &'static str {
    match fault.cause {
        LoadCause::S1 if fault.instruction == 0 => {
            "a template has \"name\" and \"instructions\", perhaps \"id\" (0 to 4294967295), \"dictionary\" and \"typeRef\", and no other key; a name is 1 to 255 characters from ! to ~"
        }
        LoadCause::S1 => {
            "a key is missing, unknown or of the wrong type, or a word or a name is none; a name is 1 to 255 characters from ! to ~"
        }
        LoadCause::S2 => {
            "increment is for integers, tail for strings and byte vectors; take another operator or kind"
        }
        LoadCause::S3 => {
            "\"value\" spells no value of the kind; an integer is as -5, a decimal as 100e-2, a byte vector as 0a0b"
        }
        LoadCause::S4 => "a constant needs a \"value\"",
        LoadCause::S5 => {
            "a mandatory default needs a \"value\"; give it one, or make the field optional"
        }
        LoadCause::D8 => {
            "no template has the name of the reference; add the template, or mend the name"
        }
        LoadCause::DuplicateName => {
            "an earlier template has the same name; give one of them another"
        }
        LoadCause::DuplicateId =>
            "an earlier template has the same \"id\"; give one of them another",
        LoadCause::Cycle => "its references lead back to itself; take one of them out",
        LoadCause::TooDeep => "groups and sequences nest in more than 8 levels; take some out",
        LoadCause::TooMany if fault.template == 0 => {
            "there are more than 65535 templates; leave out those that the stream does not need"
        }
        LoadCause::TooMany => {
            "up to here there are more than 65535 instructions, those behind references included; leave out templates that the stream does not need"
        }
        LoadCause::Memory => "memory was refused",
    }
}
