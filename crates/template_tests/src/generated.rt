//! Generated fields: what may be sent of them, by numbers without a pattern.

ghost use Rattle.std.specs.Prelude.{◌<◌};

use fast_template::{FieldPart, Kind, Operator};
use test_rows::Tried;

/// Numbers without a pattern, the same in each run.
#[derive(Drop)]
pub struct Numbers {
    state: u64,
}

impl Numbers {
    /// From a beginning on.
    pub fn new(state: u64) -> Numbers {
        Numbers { state }
    }

    /// One below a bound.
    pub fn below(&mut self, bound: u8) -> u8
        requires { 0 < bound }
        ensures { result < bound }
    {
        self.state = self
            .state
            .wrapping_mul(6_364_136_223_846_793_005)
            .wrapping_add(1_442_695_040_888_963_407);
        ((self.state >> 33) % u64::from(bound)) as u8
    }
}

// A number of a few groups, often with needless ones in front.
fn put_number(numbers: &mut Numbers, bytes: &mut Vec<u8>) -> Tried {
    match numbers.below(8) {
        0 => bytes.push(0)?,
        1 => bytes.push(127)?,
        2 => bytes.extend_from_slice(&[0, 0])?,
        _ => {}
    }
    let most = match numbers.below(8) {
        0 => 10,
        _ => 3,
    };
    for _ in 0..numbers.below(most) {
        bytes.push(numbers.below(128))?;
    }
    bytes.push(128 + numbers.below(128))?;
    Ok(())
}

// A count of few, or few less than none.
fn put_few(numbers: &mut Numbers, bytes: &mut Vec<u8>) -> Tried {
    match numbers.below(12) {
        0 => bytes.push(0)?,
        1 => return Ok(bytes.push(255 - numbers.below(2))?),
        _ => {}
    }
    bytes.push(128 + numbers.below(4))?;
    Ok(())
}

// Characters, of few so that texts are often alike.
fn put_characters(numbers: &mut Numbers, bytes: &mut Vec<u8>) -> Tried {
    for _ in 0..numbers.below(6) {
        bytes.push(b'A' + numbers.below(3))?;
    }
    Ok(())
}

// A string with its stop bit, at times behind zeros.
fn put_string(numbers: &mut Numbers, bytes: &mut Vec<u8>) -> Tried {
    match numbers.below(8) {
        0 => bytes.push(0)?,
        1 => bytes.extend_from_slice(&[0, 0])?,
        2 => return Ok(bytes.push(128)?),
        _ => {}
    }
    put_characters(numbers, bytes)?;
    bytes.push(128 + b'A' + numbers.below(3))?;
    Ok(())
}

// What a value of a type is spelled by.
fn put_value(kind: Kind, numbers: &mut Numbers, bytes: &mut Vec<u8>) -> Tried {
    match kind {
        Kind::UInt32 | Kind::Int32 | Kind::UInt64 | Kind::Int64 => put_number(numbers, bytes),
        Kind::Decimal => {
            bytes.push(128 + numbers.below(128))?;
            put_number(numbers, bytes)
        }
        Kind::Ascii => put_string(numbers, bytes),
        Kind::Unicode | Kind::Bytes => {
            put_few(numbers, bytes)?;
            if numbers.below(3) == 0 {
                bytes.extend_from_slice("é".as_bytes())?;
            }
            put_characters(numbers, bytes)
        }
    }
}

/// What is sent of a field under bit 1: most has a reading, though not on each entry.
pub fn put_sent(instr: &FieldPart, numbers: &mut Numbers, bytes: &mut Vec<u8>) -> Tried {
    match (instr.operator, instr.kind) {
        (Operator::Constant, _) => Ok(()),
        (Operator::Delta, Kind::Ascii | Kind::Unicode | Kind::Bytes) => {
            put_few(numbers, bytes)?;
            put_value(instr.kind, numbers, bytes)
        }
        _ => put_value(instr.kind, numbers, bytes),
    }
}
