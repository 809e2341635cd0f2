//! Reading a text whole.

ghost use Rattle.std.specs.Prelude.{◌≡◌, ◌≤◌, ℕ, List, IfErr, IfOk, OnOk};
ghost use Rattle.fast_machine.specs.Inputs.{Reads, reader_by};
ghost use Rattle.fast_host.specs.Input.{GivesNoText, IsText};

use fast_io::{ByteInput, Failed};
use std::alloc::Global;

/// The most bytes of a text: of templates, or of an input in hex, blanks included.
pub const TEXT_LIMIT: usize = 16_777_216;

/// The most bytes that one read takes.
const CHUNK: usize = 4096;

/// Why an input gives no text.
#[derive(Clone, Copy, Debug, PartialEq, Eq)]
pub enum TextFault {
    /// It has more than 16,777,216 bytes.
    TooLong,
    /// It answered an error.
    Read,
    /// The stated number of reads is used up.
    Turns,
    /// An allocation was refused.
    Memory,
}

/// Reads what the reader has left to its end, in at most `turns` reads of at most 4,096 bytes, or until one byte more has
/// come than a text has.
pub fn read_text<R: ByteInput>(
    alloc: Global,
    reader: &mut R,
    turns: u64,
) -> Result<Vec<u8>, TextFault>
    ensures read { (count : ℕ) × (got : List ℕ)
        × Reads (reader_by R.left R.calls R.errors R.ends reader.old)
        (reader_by R.left R.calls R.errors R.ends reader.new) count got
        × (count ≤ turns)
        × IfOk result (λ text. IsText text.items got (R.left reader.new))
        × IfErr result (λ fault. GivesNoText fault turns count got
        (reader_by R.left R.calls R.errors R.ends reader.old)
        (reader_by R.left R.calls R.errors R.ends reader.new)) }
    ensures unfailed { OnOk result (R.errors reader.new ≡ R.errors reader.old) }
{
    let mut text = Vec::new(alloc);
    let mut chunk = [0u8; CHUNK];
    for _ in 0..turns {
        let room = TEXT_LIMIT + 1 - text.len();
        match reader.pull(&mut chunk[..room.min(CHUNK)]) {
            Ok(0) => return Ok(text),
            Ok(count) if count == room => return Err(TextFault::TooLong),
            Ok(count) => match text.extend_from_slice(&chunk[..count]) {
                Ok(()) => {}
                Err(_) => return Err(TextFault::Memory),
            },
            Err(Failed) => return Err(TextFault::Read),
        }
    }
    Err(TextFault::Turns)
}
