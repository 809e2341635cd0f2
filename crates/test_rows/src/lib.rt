//! Tables of tests, with a row a line, which the formatter leaves as they stand.
#![tactic(auto)]

use std::alloc::AllocError;

/// What a test answers, or a part of one: want of memory ends it, so that each allocation can be refused in turn.
pub type Tried<T = ()> = Result<T, AllocError>;

/// A table: the values of a row are parted by commas, and each row ends in a semicolon. A heading names a struct and its
/// fields, or a tuple struct; without one the rows are tuples. Where two dots stand for the fields, a row names
/// those in which it differs from the value behind the dots, or, if none is there, from the one that it begins with.
///
/// ```text
/// const ROWS: &[Row] = rows! { Row { bytes, value }:
///     b"\x81", 1;
///     b"\x01\x80", 128;
/// };
/// ```
#[macro_export]
macro_rules! rows {
    (@row $row:ident { $($name:ident),+ } $($value:expr),+) => { $row { $($name: $value),+ } };
    ($row:ident { ..$base:ident }: $($($name:ident: $value:expr),+;)*) => { &[$($row { $($name: $value,)+ ..$base }),*] };
    ($row:ident { .. }: $($base:ident $(, $name:ident: $value:expr)*;)*) => { &[$($row { $($name: $value,)* ..$base }),*] };
    ($row:ident $names:tt: $($($value:expr),+;)*) => { &[$($crate::rows!(@row $row $names $($value),+)),*] };
    ($row:ident: $($($value:expr),+;)*) => { &[$($row($($value),+)),*] };
    ($($($value:expr),+;)*) => { &[$(($($value),+)),*] };
}

/// A list, with as many entries on a line as stand there.
#[macro_export]
macro_rules! list {
    ($($entry:expr),+) => { &[$($entry),+] };
}
