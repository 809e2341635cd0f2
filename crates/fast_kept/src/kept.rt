//! What C can keep.

ghost use Rattle.std.specs.Prelude.{◌≡◌, option_map};
ghost use Rattle.fast_kept.specs.Sets.{set_of};

use crate::loan::Loan;
use crate::shared::SharedSet;

/// What is behind a handle.
#[derive(Drop)]
pub enum Kept {
    Set(SharedSet),
    Lent(Loan),
}

/// The set that is kept; none where nothing is, or something else.
pub fn set_in(kept: &Option<Box<Kept>>) -> Option<&SharedSet>
    ensures { option_map (λ s. s.now) result ≡ set_of (option_map (λ b. b.value) kept.now) }
{
    match kept {
        Some(kept) => match &**kept {
            Kept::Set(set) => Some(set),
            Kept::Lent(_) => None,
        },
        None => None,
    }
}
