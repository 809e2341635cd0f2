//! Initial values on their way from the check that read them to the parts that they are for.

ghost use Rattle.std.specs.Prelude.{◌≡◌, IfOk, None, OnOk, drop, get_or};

use fast_template::Initial;
use std::alloc::AllocError;

/// Initial values that are still to be taken, in the order of their parts.
#[derive(Drop)]
pub(crate) struct Initials<'a> {
    pub(crate) rest: &'a [Option<Initial>],
}

impl Initials<'_> {
    /// The next one, shared with the one that stays.
    ///
    /// # Errors
    ///
    /// Where there are too many copies already to be counted.
    pub(crate) fn take_next(&mut self) -> Result<Option<Initial>, AllocError>
        ensures value { IfOk result (λ initial. initial ≡ get_or self.old.rest.now 0 None) }
        ensures rest { OnOk result (self.new.rest.now ≡ drop 1 self.old.rest.now) }
    {
        match self.rest.split_first() {
            Some((first, rest)) => {
                self.rest = rest;
                copied(first)
            }
            None => Ok(None),
        }
    }
}

/// The same initial value once more, where there is one.
///
/// # Errors
///
/// Where there are too many copies already to be counted.
pub(crate) fn copied(initial: &Option<Initial>) -> Result<Option<Initial>, AllocError>
    ensures { IfOk result (λ other. other ≡ initial.now) }
{
    match initial {
        Some(initial) => Ok(Some(initial.copy()?)),
        None => Ok(None),
    }
}
