//! What tests compare.

use crate::base::*;
use std::fmt::Debug;

/// Ends the test where two values of a command line differ. A call of it is proved much faster than the text of
/// `assert_eq` in its place.
pub(crate) fn same_of<T: PartialEq + Debug + Drop>(rt: &impl Abort, of: &[&str], got: T, want: T) {
    assert_eq!(rt; got, want, "{of:?}");
}
