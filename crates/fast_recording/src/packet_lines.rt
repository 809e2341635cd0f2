//! The number of a packet in its lines.

ghost use Rattle.std.specs.Prelude.{◌≡◌, ◌+◌, ◌∷◌, ◌++◌, ◌<◌, ◌≤◌, [], ℕ, List, Bool, true, false, None, OnOk, OnErr, IfOk, IfErr, length, take, decimal, codes};
ghost use Rattle.std.specs.Io.KnownBytes.{Appends};
ghost use Rattle.fast_io.specs.Traffic.{CountsError, Taken};
ghost use Rattle.fast_recording.specs.PacketLines.{IsBegun, IsPiece, LeadsOn, Writes, labelled, packet_label, written_by};

use fast_io::{ByteOutput, Failed, push_all};
use itoa::Buffer;
use memchr::memchr;
use std::alloc::{AllocError, Global};

/// How the lines of a packet are written: as they are, or each with the number of the packet.
///
/// A line of JSON begins with a brace, so what is put behind its first byte is the first of its members.
#[derive(Drop)]
pub struct PacketLines {
    // what is put behind the first byte of each line
    label: Vec<u8>,
    // whether the next byte begins a line
    begins: bool,
    // how many bytes were written, up to the greatest number that a count has
    pub(crate) written: u64,
}

impl PacketLines {
    /// Lines that are written as they are. Takes no memory.
    pub fn new(alloc: Global) -> PacketLines
        ensures lines { IsBegun None result }
        ensures count { result.written ≡ 0 }
    {
        PacketLines {
            label: Vec::new(alloc),
            begins: true,
            written: 0,
        }
    }

    /// The lines of the next packet, from the first on: with its number, or as they are. Memory is asked for by the first
    /// number alone.
    ///
    /// # Errors
    ///
    /// Where memory is refused.
    pub fn begin(&mut self, number: Option<u64>) -> Result<(), AllocError>
        ensures lines { OnOk result (IsBegun number self.new) }
        ensures count { OnOk result (self.new.written ≡ 0) }
    {
        self.label.clear();
        self.begins = true;
        self.written = 0;
        match number {
            None => Ok(()),
            Some(number) => push_label(&mut self.label, number),
        }
    }

    /// Pushes all the bytes, which may end anywhere in a line, with the number in their lines. It fails only where a push
    /// did.
    pub fn push_all<W: ByteOutput>(&mut self, writer: &mut W, bytes: &[u8]) -> Result<(), Failed>
        ensures writes { OnOk result (Writes self.old self.new (W.taken writer.old) (W.taken writer.new) bytes.now) }
        ensures part { OnErr result ((rest : List ℕ)
            × Taken (W.taken writer.old) (W.taken writer.new) (written_by self.old bytes.now) rest) }
        ensures failed { CountsError result (W.errors writer.old) (W.errors writer.new) }
        ensures flushes { W.flushes writer.new ≡ W.flushes writer.old }
    {
        if self.label.is_empty() {
            push_all(writer, bytes)?;
            self.written = self.written.saturating_add(bytes.len() as u64);
            return Ok(());
        }
        let mut rest = bytes;
        while !rest.is_empty() {
            let piece = push_piece(writer, &self.label, self.begins, rest)?;
            self.begins = piece.begins;
            self.written = self.written.saturating_add(piece.written as u64);
            rest = &rest[piece.taken..];
        }
        Ok(())
    }
}

// Appends the member that says a packet's number.
fn push_label(label: &mut Vec<u8>, number: u64) -> Result<(), AllocError>
    ensures { OnOk result (label.new.items ≡ label.old.items ++ packet_label number) }
{
    let mut buffer = Buffer::new();
    label.extend_from_slice(b"\"packet\":")?;
    label.extend_from_slice(buffer.format(number).as_bytes())?;
    label.extend_from_slice(b",")?;
    Ok(())
}

// What was pushed at once: so many of the bytes that were given, as so many with the label, and whether a line begins behind
// them.
#[derive(Clone, Copy)]
struct Piece {
    taken: usize,
    written: usize,
    begins: bool,
}

// The place behind the first line feed, or behind all the bytes where there is none.
fn line_end(bytes: &[u8]) -> usize
    ensures { IsPiece bytes.now result }
{
    match memchr(b'\n', bytes) {
        Some(place) => place + 1,
        None => bytes.len(),
    }
}

// Pushes the first byte of a line and the label behind it, or what is left of a line.
fn push_piece<W: ByteOutput>(
    writer: &mut W,
    label: &[u8],
    begins: bool,
    bytes: &[u8],
) -> Result<Piece, Failed>
    requires { 0 < length bytes.now }
    ensures count { IfOk result (λ p. (0 < p.taken) × (p.taken ≤ length bytes.now)) }
    ensures written { IfOk result (λ p. Appends (W.taken writer.old) (W.taken writer.new)
        (labelled label.now begins (take p.taken bytes.now))) }
    ensures leads_on { IfOk result (λ p.
        LeadsOn (labelled label.now begins) (labelled label.now p.begins) (take p.taken bytes.now)) }
    ensures counted { IfOk result (λ p.
        p.written ≡ length (labelled label.now begins (take p.taken bytes.now))) }
    ensures part { OnErr result ((rest : List ℕ)
        × Taken (W.taken writer.old) (W.taken writer.new) (labelled label.now begins bytes.now) rest) }
    ensures failed { CountsError result (W.errors writer.old) (W.errors writer.new) }
    ensures flushes { W.flushes writer.new ≡ W.flushes writer.old }
{
    if begins {
        push_all(writer, &bytes[..1])?;
        push_all(writer, label)?;
        return Ok(Piece {
            taken: 1,
            written: 1 + label.len(),
            begins: bytes[0] == b'\n',
        });
    }
    let end = line_end(bytes);
    push_all(writer, &bytes[..end])?;
    Ok(Piece {
        taken: end,
        written: end,
        begins: bytes[end - 1] == b'\n',
    })
}
