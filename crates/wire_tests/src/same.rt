//! What tests compare.

use fast_wire::WireFault;
use std::fmt::Debug;
use std::process::Abort;

/// Ends the test where two values differ. A call of it is proved much faster than the text of `assert_eq` in its place.
pub(crate) fn same<T: PartialEq + Debug + Drop>(rt: &impl Abort, given: T, wanted: T) {
    assert_eq!(rt; given, wanted);
}

/// What a test of forms answers, or a part of one.
pub(crate) type Wired<T = ()> = Result<T, WireFault>;
