//! What a form that is written is made of.

ghost use Rattle.fast_field.specs.Chosen.{AppendsOne, CanBePieces, HasSize, ShortestPieces};

use crate::delta::{Removal, size_cut, write_cut};
use crate::whole::{
    size_pair, size_signed, size_units, size_whole, write_pair, write_signed, write_units,
    write_whole,
};
use fast_template::{FieldPart, Scalar};
use fast_wire::{Nullable, WireFault};

/// What stands in a stream for a value, before it is spelled.
#[derive(Clone, Copy)]
pub(crate) enum Pieces<'a> {
    /// No bytes.
    Nothing,
    /// No value.
    Null,
    /// The value as it is.
    Whole(&'a Scalar),
    /// What is added to an integer.
    Difference(i128),
    /// What is added to the exponent and the mantissa of a decimal.
    Differences(i128, i128),
    /// What is removed of a string or vector, and what is put there.
    Cut(Removal, &'a [u8]),
    /// A new end of a string or vector.
    Tail(&'a [u8]),
}

/// How many bytes the shortest form of these pieces has.
pub(crate) fn size_pieces(instr: &FieldPart, pieces: Pieces) -> usize
    requires { CanBePieces instr.now pieces }
    ensures { HasSize (ShortestPieces instr.now pieces.entry) result }
{
    match pieces {
        Pieces::Nothing => 0,
        Pieces::Null => fast_wire::size_unsigned_nullable(Nullable::Null),
        Pieces::Whole(value) => size_whole(instr.presence, value),
        Pieces::Difference(difference) => size_signed(instr.presence, difference),
        Pieces::Differences(exponent, mantissa) => size_pair(instr.presence, exponent, mantissa),
        Pieces::Cut(removal, part) => size_cut(instr.kind, instr.presence, removal, part),
        Pieces::Tail(tail) => size_units(instr.kind, instr.presence, tail),
    }
}

/// Appends the shortest form of these pieces, or nothing. Memory: a growth was refused.
#[inline(always)]
pub(crate) fn write_pieces(
    instr: &FieldPart,
    pieces: Pieces,
    out: &mut Vec<u8>,
) -> Result<(), WireFault>
    requires { CanBePieces instr.now pieces }
    ensures { AppendsOne (ShortestPieces instr.now pieces.entry)
        out.old.items out.new.items result }
{
    match pieces {
        Pieces::Nothing => Ok(()),
        Pieces::Null => fast_wire::write_u64_nullable(Nullable::Null, out),
        Pieces::Whole(value) => write_whole(instr.presence, value, out),
        Pieces::Difference(difference) => write_signed(instr.presence, difference, out),
        Pieces::Differences(exponent, mantissa) => {
            write_pair(instr.presence, exponent, mantissa, out)
        }
        Pieces::Cut(removal, part) => write_cut(instr.kind, instr.presence, removal, part, out),
        Pieces::Tail(tail) => write_units(instr.kind, instr.presence, tail, out),
    }
}
