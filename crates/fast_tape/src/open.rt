//! The tape of a message that is open.

ghost use Rattle.std.specs.Prelude.{◌≡◌, ◌≤◌, ◌<◌, ◌+◌, ◌++◌, ◌⊎◌, [], ◌∷◌, ℕ, List, Some, None, true, false, length, map, vec_len, OnOk, IfOk, IfErr, OnErr};
ghost use Rattle.std.specs.Option.{option_copied};
ghost use Rattle.fast_value.specs.declared.scalar.Scalar.TheVariants.{Decimal};
ghost use Rattle.fast_tape.specs.Tapes.{Head, LiesAt, Mark, Says, SaysText, opens, tells};
ghost use Rattle.fast_tape.specs.Open.{Adds, Closes, Opens};
ghost use Rattle.fast_tape.specs.Moved.{with_length};
ghost use Rattle.fast_tape.specs.declared.node.TapeNode.{TapeNode as NodeOf};

use crate::node::{ABSENT, ASCII, BYTES, DECIMAL, INT32, INT64, TapeNode, UINT32, UINT64, UNICODE};
use crate::tape::Tape;
use fast_value::Scalar;
use std::alloc::{AllocError, Global};

/// The nodes of a message that is open. The headers of the segments that are open say that no node is their own.
#[derive(Drop)]
pub struct OpenTape {
    pub tape: Tape,
    // where the headers of the open segments lie, the message's own first
    starts: Vec<usize>,
    // Where the text lies that each slot told last. It is looked for there before it is told again, and what lies there is
    // compared: nothing rests on these.
    texts: Vec<usize>,
    most_bytes: u32,
    too_large: bool,
}

// Whether a text lies among the bytes, at this place.
#[inline(always)]
fn lies_at(bytes: &[u8], place: usize, text: &[u8]) -> bool
    ensures { result ≡ true → LiesAt bytes.now place text.now }
{
    match place.checked_add(text.len()) {
        None => false,
        Some(end) => end <= bytes.len() && &bytes[place..end] == text,
    }
}

// Keeps where the text lies that a slot told last.
fn keep_place(texts: &mut Vec<usize>, slot: usize, place: usize) -> Result<(), AllocError> {
    for _ in texts.len()..=slot {
        texts.push(usize::MAX)?;
    }
    if let Some(kept) = texts.get_mut(slot) {
        *kept = place;
    }
    Ok(())
}

// Has the header at this place say how many nodes are behind it.
#[inline(always)]
fn count_own(nodes: &mut Vec<TapeNode>, start: usize) -> Result<(), AllocError>
    ensures { OnOk result ((before own : List NodeOf) (header : NodeOf) → nodes.old.items ≡ before ++ header ∷ own
        → start ≡ length before → nodes.new.items ≡ before ++ with_length header (length own) ∷ own) }
{
    let count = nodes.len();
    if start >= count {
        // (no header is there)
        return Ok(());
    }
    let Ok(own) = u32::try_from(count - start - 1) else {
        return Err(AllocError);
    };
    nodes[start] = nodes[start].with_length(own);
    Ok(())
}

impl OpenTape {
    /// Of no message. A message may have so many bytes of strings. Takes no memory.
    pub fn new(alloc: Global, most_bytes: u32) -> OpenTape
        ensures bytes { result.tape.bytes.items ≡ [] }
        ensures limit { result.most_bytes ≡ most_bytes }
    {
        OpenTape {
            tape: Tape::new(alloc),
            starts: Vec::new(alloc),
            texts: Vec::new(alloc),
            most_bytes,
            too_large: false,
        }
    }

    /// Forgets what there is of a message, and keeps its memory.
    #[inline(always)]
    pub fn clear(&mut self)
        ensures nodes { self.new.tape.nodes.items ≡ [] }
        ensures bytes { self.new.tape.bytes.items ≡ [] }
        ensures starts { self.new.starts.items ≡ [] }
        ensures small { self.new.too_large ≡ false }
    {
        self.tape.clear();
        self.starts.clear();
        self.too_large = false;
    }

    /// Whether memory was refused because the strings have more bytes than those of a message may have.
    pub fn is_too_large(&self) -> bool
        ensures { result ≡ self.now.too_large }
    {
        self.too_large
    }

    // Puts a node behind the others.
    #[inline(always)]
    fn push(&mut self, node: TapeNode) -> Result<(), AllocError>
        ensures { OnOk result ((mark : Mark) → Says self.old.tape.bytes.items mark node → Adds mark self.old self.new) }
    {
        self.tape.nodes.push(node)?;
        Ok(())
    }

    /// Opens a segment with its header.
    #[inline(always)]
    pub fn open(&mut self, header: TapeNode) -> Result<(), AllocError>
        ensures { OnOk result ((head : Head) → Says self.old.tape.bytes.items (opens head 0) header
            → Opens head self.old self.new) }
    {
        self.starts.push(self.tape.nodes.len())?;
        self.tape.nodes.push(header)?;
        Ok(())
    }

    /// Closes the innermost segment: its header says how many nodes are its own.
    #[inline(always)]
    pub fn close(&mut self) -> Result<(), AllocError>
        ensures { OnOk result (Closes self.old self.new) }
    {
        let Some(start) = self.starts.pop() else {
            // (no segment is open)
            return Ok(());
        };
        count_own(&mut self.tape.nodes, start)?;
        Ok(())
    }

    // Finds the place where a text lies, which this slot told last, or puts it there.
    #[inline(always)]
    fn place_of(&mut self, slot: u32, text: &[u8]) -> Result<usize, AllocError>
        ensures lies { IfOk result (λ place. LiesAt self.new.tape.bytes.items place text.now) }
        ensures behind { OnOk result ((more : List ℕ) × (self.new.tape.bytes.items ≡ self.old.tape.bytes.items ++ more)) }
        ensures nodes { self.new.tape.nodes ≡ self.old.tape.nodes }
        ensures starts { self.new.starts ≡ self.old.starts }
        ensures most { self.new.most_bytes ≡ self.old.most_bytes }
        ensures too_large { self.new.too_large ≡ true → (self.old.too_large ≡ true)
            ⊎ (self.old.most_bytes < length self.old.tape.bytes.items + length text.now) }
        ensures few { OnOk result (length self.old.tape.bytes.items ≤ self.old.most_bytes
            → length self.new.tape.bytes.items ≤ self.old.most_bytes) }
    {
        let slot = slot as usize;
        if let Some(place) = self.texts.get(slot) {
            if lies_at(&self.tape.bytes, *place, text) {
                return Ok(*place);
            }
        }
        let place = self.tape.bytes.len();
        if text.len() > (self.most_bytes as usize).saturating_sub(place) {
            self.too_large = true;
            return Err(AllocError);
        }
        self.tape.bytes.extend_from_slice(text)?;
        keep_place(&mut self.texts, slot, place)?;
        Ok(place)
    }

    // A string of this kind, as the slot's last one where it is the same.
    fn push_text(
        &mut self,
        kind: u32,
        instruction: u32,
        slot: u32,
        text: &[u8],
    ) -> Result<(), AllocError>
        ensures { OnOk result ((mark : Mark) → ((bytes : List ℕ) (node : NodeOf) → SaysText kind bytes text.now node → Says bytes mark node)
            → Adds mark self.old self.new) }
    {
        let Ok(length) = u32::try_from(text.len()) else {
            self.too_large = true;
            return Err(AllocError);
        };
        let place = self.place_of(slot, text)?;
        self.tape
            .nodes
            .push(TapeNode::long(kind, instruction, place as u64, length))?;
        Ok(())
    }

    /// A field's value, or that there is none. A string that its slot told last in this message is told by its place again.
    pub fn push_value(
        &mut self,
        instruction: u32,
        slot: u32,
        value: Option<&Scalar>,
    ) -> Result<(), AllocError>
        ensures { OnOk result (Adds (tells (option_copied value.entry)) self.old self.new) }
    {
        match value {
            None => self.push(TapeNode::long(ABSENT, instruction, 0, 0)),
            Some(Scalar::U32(number)) => self.push(TapeNode::long(
                UINT32,
                instruction,
                *number as u64,
                0,
            )),
            Some(Scalar::U64(number)) => self.push(TapeNode::long(UINT64, instruction, *number, 0)),
            Some(Scalar::I32(number)) => self.push(TapeNode::signed(
                INT32,
                instruction,
                *number as i64,
                0,
            )),
            Some(Scalar::I64(number)) => self.push(TapeNode::signed(
                INT64,
                instruction,
                *number,
                0,
            )),
            Some(Scalar::Decimal { exponent, mantissa }) => {
                self.push(TapeNode::signed(DECIMAL, instruction, *mantissa, *exponent))
            }
            Some(Scalar::Ascii(text)) => self.push_text(ASCII, instruction, slot, text.as_slice()),
            Some(Scalar::Unicode(text)) => self.push_text(
                UNICODE,
                instruction,
                slot,
                text.as_bytes(),
            ),
            Some(Scalar::Bytes(bytes)) => self.push_text(
                BYTES,
                instruction,
                slot,
                bytes.as_slice(),
            ),
        }
    }

    /// A decimal, or that a field is left out.
    #[inline(always)]
    pub fn push_decimal(
        &mut self,
        instruction: u32,
        mantissa: i64,
        exponent: i32,
    ) -> Result<(), AllocError>
        ensures { OnOk result (Adds (tells (Some (Decimal exponent mantissa))) self.old self.new) }
    {
        self.push(TapeNode::signed(DECIMAL, instruction, mantissa, exponent))
    }

    /// A field, group or sequence that is left out.
    #[inline(always)]
    pub fn push_absent(&mut self, instruction: u32) -> Result<(), AllocError>
        ensures { OnOk result (Adds (tells None) self.old self.new) }
    {
        self.push(TapeNode::long(ABSENT, instruction, 0, 0))
    }
}
