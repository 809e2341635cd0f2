//! Which entries were asked for to be changed.

ghost use Rattle.std.specs.Prelude.{◌≡◌, ◌≤◌, ◌<◌, ◌*◌, ◌/◌, ◌^◌, ℕ, false, true, IfOk, slice_index_or, vec_len};

use std::alloc::{AllocError, Global};

/// How many slots are noted together.
pub(crate) const GROUP: usize = 32;

/// Slots that were noted, in groups of neighbours: to note one is a look-up, and those that are looked at again are few
/// more than were noted.
#[derive(Drop)]
pub(crate) struct Touched {
    pub(crate) groups: Vec<bool>,
}

impl Touched {
    ghost use Rattle.fast_recording.specs.Touched.{is_touched};

    /// No slot of so many.
    pub(crate) fn new(alloc: Global, slots: u32) -> Result<Touched, AllocError>
        ensures none { IfOk result (λ t. (n : ℕ) → is_touched t.groups.items n ≡ false) }
        ensures room { IfOk result (λ t. slots ≤ 32 * vec_len t.groups) }
        ensures few { IfOk result (λ t. vec_len t.groups ≤ 2 ^ 28) }
    {
        let count = slots as usize / GROUP + 1;
        let mut groups = Vec::with_capacity(alloc, count)?;
        for _ in 0..count {
            groups.push(false)?;
        }
        Ok(Touched { groups })
    }

    /// Notes a slot.
    #[inline(always)]
    pub(crate) fn note(&mut self, slot: u32)
        requires room { slot < 32 * vec_len self.now.groups }
        ensures noted { is_touched self.new.groups.items slot ≡ true }
        ensures before { (n : ℕ) → is_touched self.new.groups.items n ≡ false → is_touched self.old.groups.items n ≡ false }
        ensures len { vec_len self.new.groups ≡ vec_len self.old.groups }
    {
        self.groups[slot as usize / GROUP] = true;
    }

    /// The same slots once more.
    pub(crate) fn copy(&self, alloc: Global) -> Result<Touched, AllocError>
        ensures { IfOk result (λ copy. copy.groups.items ≡ self.now.groups.items) }
    {
        Ok(Touched {
            groups: self.groups.to_vec(alloc)?,
        })
    }
}
