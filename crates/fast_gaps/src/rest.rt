//! What is left of a line with gaps, whose message has ended.

ghost use Rattle.std.specs.Prelude.{◌≡◌, ◌≤◌, length, take, drop};

use crate::filling::{fill, pass};
use crate::gap::PlacedGap;
use crate::gaps::Gaps;
use crate::texts::Texts;
use fast_lines::{Page, Signs};
use std::alloc::{AllocError, Global};

/// So many bytes are made ready to be handed on at once, or more by one gap.
const MANY: usize = 65_536;

/// What is left of a line that is handed on front by front.
#[derive(Drop)]
pub struct Rest {
    text: Page,
    placed: Vec<PlacedGap>,
    // how many bytes of the text are handed on, and how many gaps
    at: usize,
    next: usize,
    // as they were when the next gap was left
    texts: Texts,
    // what fills the next gap
    long: Vec<u8>,
    ghost place: { at ≤ length text },
    ghost gaps: { next ≤ length placed.items },
}

// So many bytes of a text behind a place, or as many as there are.
fn front_of(text: &[u8], at: usize, count: usize) -> &[u8]
    requires { at ≤ length text.now }
    ensures { result.now ≡ take count (drop at text.now) }
{
    let left = &text[at..];
    &left[..count.min(left.len())]
}

impl Rest {
    ghost use Rattle.std.specs.Prelude.{◌≡◌, ◌≤◌, ◌<◌, ◌+◌, ◌++◌, [], true, false, IfOk, OnOk, OnErr, length};
    ghost use Rattle.fast_gaps.specs.Filled.{gaps_left, left_of};
    ghost use Rattle.fast_gaps.specs.Gaps.{filled, no_texts};
    ghost use Rattle.fast_lines.specs.declared.form.Form.{Form};

    /// All of a line of this text with these gaps; what fills a gap is made in the memory of `long`.
    pub fn of(text: Page, gaps: Gaps, long: Vec<u8>) -> Rest
        ensures { (form : Form) → left_of form result ≡ filled form gaps.placed.items no_texts text }
    {
        let Gaps {
            placed,
            mut texts,
            ..
        } = gaps;
        texts.clear();
        Rest {
            text,
            placed,
            at: 0,
            next: 0,
            texts,
            long,
        }
    }

    /// Makes ready what is written in front of the next gap, and what fills it. Refused, nothing has changed.
    pub fn tell_gap<S: Signs>(
        &mut self,
        signs: S,
        alloc: Global,
        out: &mut Vec<u8>,
    ) -> Result<(), AllocError>
        ensures same { out.new.items ++ left_of S.form self.new ≡ out.old.items ++ left_of S.form self.old }
        ensures fewer { OnOk result (0 < gaps_left self.old → gaps_left self.new < gaps_left self.old) }
        ensures none { gaps_left self.old ≡ 0 → gaps_left self.new ≡ 0 }
        ensures refused { OnErr result (out.new.items ≡ out.old.items) }
    {
        let placed = match self.placed.get(self.next) {
            None => return Ok(()),
            Some(placed) => placed,
        };
        let front = front_of(self.text.as_slice(), self.at, placed.behind);
        let behind = front.len();
        let mut text = Vec::new(alloc);
        self.long.clear();
        self.long.extend_from_slice(front)?;
        fill(
            signs,
            alloc,
            &placed.gap,
            &mut self.texts,
            &mut text,
            &mut self.long,
        )?;
        out.extend_from_slice(&self.long)?;
        pass(&placed.gap, &mut self.texts, text);
        self.at += behind;
        self.next += 1;
        Ok(())
    }

    // Makes ready what is written behind the last gap.
    fn tell_end(&mut self, out: &mut Vec<u8>) -> Result<(), AllocError>
        requires { gaps_left self.now ≡ 0 }
        ensures same { (form : Form) → out.new.items ++ left_of form self.new ≡ out.old.items ++ left_of form self.old }
        ensures told { OnOk result ((form : Form) → left_of form self.new ≡ []) }
    {
        out.extend_from_slice(&self.text.as_slice()[self.at..])?;
        self.at = self.text.len();
        Ok(())
    }

    /// Makes more of it ready, behind what is ready already: up to 65,536 bytes, or more by one gap and the bytes around it;
    /// answers whether any may be left.
    ///
    /// # Errors
    ///
    /// Where memory is refused, and then what is left stands behind what is ready.
    pub fn tell_on<S: Signs>(
        &mut self,
        signs: S,
        alloc: Global,
        out: &mut Vec<u8>,
    ) -> Result<bool, AllocError>
        ensures same { out.new.items ++ left_of S.form self.new ≡ out.old.items ++ left_of S.form self.old }
        ensures told { IfOk result (λ b. b ≡ false → left_of S.form self.new ≡ []) }
        ensures fewer { IfOk result (λ b. b ≡ true → length out.old.items < 65536 → gaps_left self.new < gaps_left self.old) }
    {
        while out.len() < MANY {
            if self.next >= self.placed.len() {
                self.tell_end(out)?;
                return Ok(false);
            }
            self.tell_gap(signs, alloc, out)?;
        }
        Ok(true)
    }

    /// Makes all of it ready.
    ///
    /// # Errors
    ///
    /// As `tell_on`.
    pub fn tell_all<S: Signs>(
        &mut self,
        signs: S,
        alloc: Global,
        out: &mut Vec<u8>,
    ) -> Result<(), AllocError>
        ensures same { out.new.items ++ left_of S.form self.new ≡ out.old.items ++ left_of S.form self.old }
        ensures told { OnOk result (left_of S.form self.new ≡ []) }
    {
        while self.next < self.placed.len() {
            self.tell_gap(signs, alloc, out)?;
        }
        self.tell_end(out)
    }
}
