//! Units of a string or vector that others take the place of. Most often these are as many: then they are copied over, and
//! no memory is asked for.

ghost use Rattle.std.specs.Prelude.{◌≡◌, ◌≤◌, ◌+◌, ◌++◌, true, false, length, take};
ghost use Rattle.fast_field.specs.Values.{of_units, units_of};
ghost use Rattle.fast_take.specs.Texts.{IsText};

use crate::vector_units::put_units;
use fast_field::units;
use fast_template::{ByteString, Kind, Scalar};
use std::alloc::Global;

/// The most bytes that are copied one by one.
pub(crate) const FEW: usize = 8;

/// Copies the byte at a place over the one there, if there is one, behind those that were copied.
#[inline(always)]
fn copy_at(units: &mut [u8], part: &[u8], at: usize)
    requires many { length part.now ≡ length units.now }
    requires copied { take at units.now ≡ take at part.now }
    ensures { take (at + 1) units.new ≡ take (at + 1) part.now }
{
    if at < part.len() {
        units[at] = part[at];
    }
}

/// Copies bytes over as many others, which are few: a call to copy them would cost more, and so would a loop.
#[inline(always)]
fn copy_few(units: &mut [u8], part: &[u8])
    requires many { length part.now ≡ length units.now }
    requires few { length part.now ≤ 8 }
    ensures { units.new ≡ part.now }
{
    copy_at(units, part, 0);
    copy_at(units, part, 1);
    copy_at(units, part, 2);
    copy_at(units, part, 3);
    copy_at(units, part, 4);
    copy_at(units, part, 5);
    copy_at(units, part, 6);
    copy_at(units, part, 7);
}

/// Puts bytes in the place of the last units, which are as many.
#[inline(always)]
pub(crate) fn copy_over(units: &mut [u8], kept: usize, part: &[u8])
    requires { kept + length part.now ≡ length units.now }
    ensures { units.new ≡ take kept units.old ++ part.now }
{
    units[kept..].copy_from_slice(part);
}

/// The same of few bytes.
#[inline(always)]
pub(crate) fn copy_few_over(units: &mut [u8], kept: usize, part: &[u8])
    requires many { kept + length part.now ≡ length units.now }
    requires few { length part.now ≤ 8 }
    ensures { units.new ≡ take kept units.old ++ part.now }
{
    copy_few(&mut units[kept..], part);
}

/// Puts bytes behind so many units of a string or vector, in place of the others, as `put_units` does.
#[inline(always)]
pub(crate) fn put_part(
    alloc: Global,
    kind: Kind,
    value: &mut Scalar,
    kept: usize,
    part: &[u8],
) -> bool
    requires kept { kept ≤ length (units_of value.now) }
    requires text { IsText kind (of_units kind (take kept (units_of value.now) ++ part.now)) }
    ensures put { result ≡ true
        → value.new ≡ of_units kind (take kept (units_of value.old) ++ part.now) }
    ensures unchanged { result ≡ false → value.new ≡ value.old }
{
    if units(value).len() - kept == part.len() {
        match (kind, value) {
            (Kind::Unicode, Scalar::Unicode(text)) => {
                text.put_over(kept, part);
                true
            }
            (Kind::Bytes, Scalar::Bytes(bytes)) => {
                copy_over(bytes.as_mut_slice(), kept, part);
                true
            }
            _ => false,
        }
    } else {
        put_units(alloc, kind, value, kept, part)
    }
}
