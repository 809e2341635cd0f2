//! Fields that a level reads as the usual one does, told by the first bytes of their entities.

ghost use Rattle.std.specs.Prelude.{◌≡◌, ◌≤◌, length, drop, true};
ghost use Rattle.fast_field.specs.AsUsual.{BeginsPair, BeginsPlain, JudgesOne, ReadsAsUsual};

use fast_template::{FieldPart, Kind, Operator};
use fast_wire::Level;

/// Whether no more than the first entity of a field is judged.
#[inline(always)]
fn judges_one(part: &FieldPart) -> bool
    ensures { result ≡ true → JudgesOne part.now.operator part.now.kind }
{
    match part.kind {
        Kind::UInt32 | Kind::Int32 | Kind::UInt64 | Kind::Int64 => true,
        Kind::Decimal => false,
        Kind::Ascii | Kind::Unicode | Kind::Bytes => match part.operator {
            Operator::Delta => false,
            _ => true,
        },
    }
}

/// Whether the first byte shows that no entity which begins with it is overlong.
#[inline(always)]
fn begins_plain(bytes: &[u8], at: usize) -> bool
    requires { at ≤ length bytes.now }
    ensures { result ≡ true → BeginsPlain (drop at bytes.now) }
{
    at < bytes.len() && bytes[at] != 0 && bytes[at] != 127
}

/// Whether a first entity of one byte stands here, and behind it a byte as above.
#[inline(always)]
fn begins_pair(bytes: &[u8], at: usize) -> bool
    requires { at ≤ length bytes.now }
    ensures { result ≡ true → BeginsPair (drop at bytes.now) }
{
    at < bytes.len() && bytes[at] >= 128 && begins_plain(bytes, at + 1)
}

/// Whether the field that begins here, under bit 1, is read at this level as at the usual one, told by the first bytes
/// of its entities. False says nothing.
#[tactic(auto, using(crate::proofs::FieldsBehave::reads_as_usual, crate::proofs::FieldsBehave::pair_as_usual))]
#[inline(always)]
pub fn reads_as_usual(level: Level, part: &FieldPart, bytes: &[u8], at: usize) -> bool
    requires { at ≤ length bytes.now }
    ensures { result ≡ true → ReadsAsUsual level part.now (drop at bytes.now) }
{
    match level {
        Level::Usual => true,
        Level::Strict => {
            if judges_one(part) {
                begins_plain(bytes, at)
            } else {
                begins_pair(bytes, at)
            }
        }
    }
}
