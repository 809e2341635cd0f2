//! What is written while fields are read: bytes that stand in their best form are noted, and appended in one piece.

ghost use Rattle.std.specs.Prelude.{◌≡◌, ◌≤◌, ◌<◌, ◌+◌, ◌-◌, ◌^◌, ◌++◌, ℕ, List, [], true, false, drop, length, slice_range};
ghost use Rattle.fast_take.specs.Takes.{best_form, first_of, place_of};
ghost use Rattle.fast_wire.specs.PresenceMap.{next_bit};
ghost use Rattle.fast_draft.specs.Segments.{NoRoomFor, ahead};
ghost use Rattle.fast_writer.specs.Drafts.{Marked, noted};
ghost use Rattle.fast_writer.specs.Runs.{Flushes, IsRun, written};

use fast_draft::Draft;
use fast_take::{Aside, Took};
use std::alloc::Global;

/// The segments that are open, and bytes of the input that are noted to be appended to the innermost.
#[derive(Drop)]
pub(crate) struct Run {
    /// What was appended.
    pub(crate) draft: Draft,
    /// Where the noted bytes begin.
    pub(crate) from: usize,
    /// Where they end: the place behind what was read.
    pub(crate) place: usize,
    /// How many bits of the innermost map were passed that the draft was not told of.
    pub(crate) passed: usize,
}

impl Run {
    /// Of nothing. Takes no memory.
    #[inline(always)]
    pub(crate) fn new(alloc: Global) -> Run
        ensures ended { result.draft.around.ended ≡ [] }
        ensures segments { result.draft.around.segments ≡ [] }
        ensures none { result.passed ≡ 0 }
    {
        Run {
            draft: Draft::new(alloc),
            from: 0,
            place: 0,
            passed: 0,
        }
    }

    /// Begins to note at a place, behind what was appended.
    #[inline(always)]
    pub(crate) fn begin(&mut self, at: usize)
        ensures draft { self.new.draft ≡ self.old.draft }
        ensures passed { self.new.passed ≡ self.old.passed }
        ensures from { self.new.from ≡ at }
        ensures place { self.new.place ≡ at }
    {
        self.from = at;
        self.place = at;
    }

    /// Notes the bytes up to a place, which are written as they stand.
    #[inline(always)]
    #[tactic(auto, using(crate::proofs::Runs::kept))]
    pub(crate) fn keep(&mut self, next: usize)
        requires place { self.now.place ≤ next }
        ensures draft { self.new.draft ≡ self.old.draft }
        ensures passed { self.new.passed ≡ self.old.passed }
        ensures written { (bytes : List ℕ) (at : ℕ) → IsRun bytes at self.old
            → written bytes self.new ≡ written bytes self.old ++ slice_range bytes at next }
        ensures run { (bytes : List ℕ) (at : ℕ) → IsRun bytes at self.old
            → next ≤ length bytes → IsRun bytes next self.new }
    {
        self.place = next;
    }

    /// Appends what is noted; answers false, and changes nothing, where memory is refused, since it does not fit.
    #[inline(always)]
    pub(crate) fn flush(&mut self, bytes: &[u8]) -> bool
        requires from { self.now.from ≤ self.now.place }
        requires place { self.now.place ≤ length bytes.now }
        ensures { Flushes bytes.now self.old self.new result }
    {
        if self.from == self.place {
            return true;
        }
        match self.draft.append_slice(&bytes[self.from..self.place]) {
            Err(_) => false,
            Ok(()) => {
                self.from = self.place;
                true
            }
        }
    }

    /// The same at the end of a run, which mostly is short: a call of memory's own would cost more than the bytes.
    #[inline(always)]
    pub(crate) fn flush_short(&mut self, bytes: &[u8]) -> bool
        requires from { self.now.from ≤ self.now.place }
        requires place { self.now.place ≤ length bytes.now }
        ensures { Flushes bytes.now self.old self.new result }
    {
        if self.from == self.place {
            return true;
        }
        match self.draft.append(bytes, self.from, self.place) {
            Err(_) => false,
            Ok(()) => {
                self.from = self.place;
                true
            }
        }
    }

    /// Notes the best form of a field that was taken, behind all that is written; answers false where memory is refused.
    #[inline(always)]
    pub(crate) fn put_taken(&mut self, took: Took, aside: &Aside, bytes: &[u8]) -> bool
        requires run { IsRun bytes.now self.now.place self.now }
        requires place { (self.now.place ≤ place_of took) × (place_of took ≤ length bytes.now) }
        requires first { first_of self.now.place aside.now took ≤ place_of took }
        ensures around { self.new.draft.around ≡ self.old.draft.around }
        ensures map { self.new.draft.inner.map ≡ self.old.draft.inner.map }
        ensures left { self.new.draft.inner.left ≡ self.old.draft.inner.left }
        ensures passed { self.new.passed ≡ self.old.passed }
        ensures written { result ≡ true → written bytes.now self.new
            ≡ written bytes.now self.old ++ best_form bytes.now self.old.place aside.now took }
        ensures run { result ≡ true → IsRun bytes.now (place_of took) self.new }
        ensures room { result ≡ false
            → NoRoomFor (self.old.place - self.old.from + length (best_form bytes.now self.old.place aside.now took)) self.old.draft.memory }
    {
        match took {
            Took::Stands(next) | Took::Absent(next) => {
                self.keep(next);
                true
            }
            Took::Given(next) => {
                if !self.flush(bytes) {
                    return false;
                }
                self.begin(next);
                true
            }
            Took::Other(next) => {
                if !self.flush(bytes) {
                    return false;
                }
                // (mostly there are none, and to append them would be a call)
                if !aside.made.is_empty() && self.draft.append_slice(&aside.made).is_err() {
                    return false;
                }
                self.begin(aside.first);
                self.keep(next);
                true
            }
        }
    }

    /// Passes the next bit of the innermost map, where one is needed: it stays as it was read, or becomes the one of the best form,
    /// which is 0. The draft is told of those that stay later, with their neighbours.
    #[inline(always)]
    pub(crate) fn mark(&mut self, needed: bool, bit: bool, best: bool)
        requires few { self.now.passed < 2 ^ 60 }
        requires bit { needed ≡ true → bit ≡ next_bit (drop self.now.passed self.now.draft.inner.left) }
        requires lower { needed ≡ true → bit ≡ false → best ≡ false }
        ensures marked { (bytes : List ℕ) → Marked needed best (noted bytes self.old) (noted bytes self.new) }
        ensures bytes { self.new.draft.inner.bytes ≡ self.old.draft.inner.bytes }
        ensures from { self.new.from ≡ self.old.from }
        ensures place { self.new.place ≡ self.old.place }
        ensures around { self.new.draft.around ≡ self.old.draft.around }
        ensures few { self.new.passed ≤ self.old.passed + 1 }
    {
        if needed {
            if bit && !best {
                self.settle();
                self.draft.clear();
            } else {
                self.passed += 1;
            }
        }
    }

    /// Tells the draft of the bits that were passed.
    #[inline(always)]
    pub(crate) fn settle(&mut self)
        ensures inner { self.new.draft.inner ≡ ahead self.old.passed self.old.draft.inner }
        ensures around { self.new.draft.around ≡ self.old.draft.around }
        ensures from { self.new.from ≡ self.old.from }
        ensures place { self.new.place ≡ self.old.place }
        ensures passed { self.new.passed ≡ 0 }
    {
        self.draft.pass(self.passed);
        self.passed = 0;
    }

    /// The same as `mark`, and the draft is told of it.
    #[inline(always)]
    pub(crate) fn mark_at_once(&mut self, needed: bool, bit: bool, best: bool)
        requires none { self.now.passed ≡ 0 }
        requires bit { needed ≡ true → bit ≡ next_bit self.now.draft.inner.left }
        requires lower { needed ≡ true → bit ≡ false → best ≡ false }
        ensures marked { Marked needed best self.old.draft.inner self.new.draft.inner }
        ensures bytes { self.new.draft.inner.bytes ≡ self.old.draft.inner.bytes }
        ensures from { self.new.from ≡ self.old.from }
        ensures place { self.new.place ≡ self.old.place }
        ensures around { self.new.draft.around ≡ self.old.draft.around }
        ensures none { self.new.passed ≡ 0 }
    {
        if needed {
            if bit && !best {
                self.draft.clear();
            } else {
                self.draft.pass(1);
            }
        }
    }
}
