//! Canonical bytes as they are written: as they are, or in digits.

ghost use Rattle.std.specs.Prelude.{◌≡◌, ℕ, List, OnErr, OnOk};
ghost use Rattle.std.specs.Io.KnownBytes.{Appends};
ghost use Rattle.hex.specs.Hex.{encode_lower};
ghost use Rattle.fast_io.specs.Counts.{counted};
ghost use Rattle.fast_io.specs.Traffic.{CountsError, Taken};
ghost use Rattle.fast_write.specs.Outputs.{ending_of, part_of};

use fast_io::{ByteOutput, Failed, push_all, write_all};

/// How canonical bytes are written.
#[derive(Clone, Copy, Debug, PartialEq, Eq)]
pub enum OutputForm {
    /// As they are.
    Bytes,
    /// As a line of hex digits.
    Hex,
}

/// The most bytes whose digits are made at once.
const DIGITS_AT_ONCE: usize = 2048;

/// Pushes the digits of bytes. It fails only where a push did.
fn push_digits<W: ByteOutput>(writer: &mut W, bytes: &[u8]) -> Result<(), Failed>
    ensures written { OnOk result (Appends (W.taken writer.old) (W.taken writer.new) (encode_lower bytes.now)) }
    ensures part { OnErr result ((rest : List ℕ)
        × Taken (W.taken writer.old) (W.taken writer.new) (encode_lower bytes.now) rest) }
    ensures failed { CountsError result (W.errors writer.old) (W.errors writer.new) }
    ensures flushes { W.flushes writer.new ≡ W.flushes writer.old }
{
    let mut digits = [0u8; 2 * DIGITS_AT_ONCE];
    let mut at = 0;
    while at < bytes.len() {
        let count = (bytes.len() - at).min(DIGITS_AT_ONCE);
        let made = &mut digits[..2 * count];
        match hex::encode_to_slice(&bytes[at..at + count], made) {
            Ok(()) => {}
            // (there is room for just these)
            Err(_) => return Err(Failed),
        }
        match push_all(writer, made) {
            Ok(()) => at += count,
            Err(failed) => return Err(failed),
        }
    }
    Ok(())
}

impl OutputForm {
    /// What stands behind the last of the bytes.
    fn ending(self) -> &'static [u8]
        ensures { result.now ≡ ending_of self }
    {
        match self {
            OutputForm::Bytes => b"",
            OutputForm::Hex => b"\n",
        }
    }

    /// Pushes bytes in this form. It fails only where a push did.
    pub(crate) fn push<W: ByteOutput>(self, writer: &mut W, bytes: &[u8]) -> Result<(), Failed>
        ensures written { OnOk result (Appends (W.taken writer.old) (W.taken writer.new) (part_of self bytes.now)) }
        ensures part { OnErr result ((rest : List ℕ)
            × Taken (W.taken writer.old) (W.taken writer.new) (part_of self bytes.now) rest) }
        ensures failed { CountsError result (W.errors writer.old) (W.errors writer.new) }
        ensures flushes { W.flushes writer.new ≡ W.flushes writer.old }
    {
        match self {
            OutputForm::Bytes => push_all(writer, bytes),
            OutputForm::Hex => push_digits(writer, bytes),
        }
    }

    /// Ends what was pushed, and flushes the writer.
    pub(crate) fn close<W: ByteOutput>(self, writer: &mut W) -> Result<(), Failed>
        ensures written { OnOk result (Appends (W.taken writer.old) (W.taken writer.new) (ending_of self)) }
        ensures part { OnErr result ((rest : List ℕ)
            × Taken (W.taken writer.old) (W.taken writer.new) (ending_of self) rest) }
        ensures failed { CountsError result (W.errors writer.old) (W.errors writer.new) }
        ensures flushed { OnOk result (W.flushes writer.new ≡ counted (W.flushes writer.old)) }
    {
        write_all(writer, self.ending())
    }
}
