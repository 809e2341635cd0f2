//! The texts that were told last.

ghost use Rattle.std.specs.Prelude.{◌≡◌, ◌<◌, ℕ, [], OnOk, length};
ghost use Rattle.fast_gaps.specs.Gaps.{texts_in, with_text};

use std::alloc::{AllocError, Global};

/// The text that was told last under the key of each slot.
#[derive(Drop)]
pub struct Texts {
    by_slot: Vec<Vec<u8>>,
}

impl Texts {
    /// None anywhere. Takes no memory.
    pub fn new(alloc: Global) -> Texts
        ensures { (slot : ℕ) → texts_in result slot ≡ [] }
    {
        Texts {
            by_slot: Vec::new(alloc),
        }
    }

    /// Forgets all.
    pub fn clear(&mut self)
        ensures { (slot : ℕ) → texts_in self.new slot ≡ [] }
    {
        self.by_slot.clear();
    }

    /// The text of a slot.
    #[tactic(auto, using(crate::proofs::SlotTexts::text_at_read, crate::proofs::SlotTexts::text_at_past))]
    pub fn get(&self, slot: u32) -> &[u8]
        ensures { result.now ≡ texts_in self.now slot }
    {
        match self.by_slot.get(slot as usize) {
            Some(text) => text.as_slice(),
            None => &[],
        }
    }

    /// Sees that there is room for the text of a slot.
    #[tactic(auto, using(crate::proofs::SlotTexts::text_at_push))]
    pub fn make_room(&mut self, alloc: Global, slot: u32) -> Result<(), AllocError>
        ensures same { (other : ℕ) → texts_in self.new other ≡ texts_in self.old other }
        ensures room { OnOk result (slot < length self.new.by_slot.items) }
    {
        while self.by_slot.len() <= slot as usize {
            self.by_slot.push(Vec::new(alloc))?;
        }
        Ok(())
    }

    /// Puts the text of a slot, for which there is room.
    #[tactic(auto, using(crate::proofs::SlotTexts::text_at_set))]
    pub fn put(&mut self, slot: u32, text: Vec<u8>)
        requires { slot < length self.now.by_slot.items }
        ensures { (other : ℕ) → texts_in self.new other ≡ with_text slot text.items (texts_in self.old) other }
    {
        self.by_slot[slot as usize] = text;
    }
}
