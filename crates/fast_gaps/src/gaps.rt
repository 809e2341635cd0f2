//! The gaps of a line that is long.

ghost use Rattle.std.specs.Prelude.{◌≡◌, ◌≤◌, ◌-◌, ◌++◌, ◌∷◌, [], ℕ, true, false, IfOk, OnOk};
ghost use Rattle.std.specs.Coded.{Π_prop};
ghost use Rattle.std.proofs.Props.{props};
ghost use Rattle.fast_gaps.specs.Gaps.{closed as closed_by, gap_text, no_texts, texts_after, texts_in};
ghost use Rattle.fast_lines.specs.Lines.{scalar_text};
ghost use Rattle.fast_lines.specs.declared.form.Form.{Form};
ghost use Rattle.fast_gaps.specs.declared.gap.Gap as gap_type;
ghost use Rattle.fast_gaps.specs.declared.gap.Gap.TheVariants as gap;

use crate::filling::text_gap;
use crate::gap::{Gap, PlacedGap};
use crate::texts::Texts;
use fast_template::{FieldPart, Name, Scalar};
use std::alloc::{AllocError, Global};

/// The gaps of a line, in their order.
#[derive(Drop)]
pub struct Gaps {
    alloc: Global,
    pub(crate) placed: Vec<PlacedGap>,
    // how many written bytes stand in front of the last
    closed: usize,
    pub(crate) texts: Texts,
    ghost closed_is: { closed ≡ closed_by placed.items },
    ghost texts_are: { (slot : ℕ) → texts_in texts slot ≡ texts_after placed.items no_texts slot } by { Π_prop (λ slot. Prim.hlevel props) },
}

impl Gaps {
    /// None. Takes no memory.
    pub fn new(alloc: Global) -> Gaps
        ensures { result.placed.items ≡ [] }
    {
        Gaps {
            alloc,
            placed: Vec::new(alloc),
            closed: 0,
            texts: Texts::new(alloc),
        }
    }

    /// Whether there is none.
    #[inline(always)]
    pub fn is_empty(&self) -> bool
        ensures { result ≡ true → self.now.placed.items ≡ [] }
    {
        self.placed.is_empty()
    }

    /// Forgets all.
    #[inline(always)]
    pub fn clear(&mut self)
        ensures { self.new.placed.items ≡ [] }
    {
        if !self.placed.is_empty() {
            self.forget();
        }
    }

    // Forgets those that are there.
    #[inline(never)]
    fn forget(&mut self)
        ensures { self.new.placed.items ≡ [] }
    {
        self.placed.clear();
        self.closed = 0;
        self.texts.clear();
    }

    /// Leaves one for what stands in front of a value, behind so many written bytes.
    ///
    /// # Errors
    ///
    /// An allocation was refused, and no gap is left for it.
    pub fn leave_label(&mut self, written: usize, name: &Name) -> Result<(), AllocError>
        requires { self.now.closed ≤ written }
        ensures left { OnOk result (self.new.placed.items ≡ self.old.placed.items
            ++ record { behind = written - self.old.closed; gap = gap.Label name.now } ∷ []) }
        ensures closed { self.new.closed ≤ written }
    {
        let gap = Gap::Label(name.copy()?);
        let behind = written - self.closed;
        self.placed.push(PlacedGap { behind, gap })?;
        self.closed = written;
        Ok(())
    }

    /// Leaves one for a text of more than a few units, behind so many written bytes; answers whether it did.
    ///
    /// # Errors
    ///
    /// An allocation was refused; no gap is left for it then, and those before may be forgotten.
    pub fn leave_text(
        &mut self,
        written: usize,
        part: &FieldPart,
        value: &Scalar,
    ) -> Result<bool, AllocError>
        requires { self.now.closed ≤ written }
        ensures left { IfOk result (λ b. b ≡ true → (g : gap_type.Gap) × (self.new.placed.items ≡ self.old.placed.items
            ++ record { behind = written - self.old.closed; gap = g } ∷ [])
            × ((form : Form) → gap_text form g (texts_after self.old.placed.items no_texts) ≡ scalar_text form value.now)) }
        ensures none { IfOk result (λ b. b ≡ false → self.new.placed ≡ self.old.placed) }
        ensures closed { self.new.closed ≤ written }
    {
        match text_gap(self.alloc, part, value, &mut self.texts) {
            Err(error) => Err(error),
            Ok(None) => Ok(false),
            Ok(Some(gap)) => {
                let behind = written - self.closed;
                if let Err(error) = self.placed.push(PlacedGap { behind, gap }) {
                    self.placed.clear();
                    self.closed = 0;
                    self.texts.clear();
                    return Err(error.into());
                }
                self.closed = written;
                Ok(true)
            }
        }
    }
}
