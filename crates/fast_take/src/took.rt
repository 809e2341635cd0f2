//! What is told of a field that was taken.

ghost use Rattle.std.specs.Prelude.{◌≡◌, ◌≤◌, [], ◌++◌, ℕ, List, IfSome, IsTrue, OnErr, OnOk, Some, length, not, slice_range, true, vec_capacity, vec_len, ◌+◌, ◌<◌};
ghost use Rattle.std.specs.Option.{option_copied};
ghost use Rattle.fast_value.specs.Scalar.{is_of};
ghost use Rattle.fast_value.specs.declared.kind.Kind as kind_type;
ghost use Rattle.fast_value.specs.declared.kind.Kind.TheVariants.{UInt32};
ghost use Rattle.fast_take.specs.Judged.{under};
ghost use Rattle.fast_take.specs.Takes.{best_bit, best_form, count_of as count_of_spec, first_of, is_there, place_of, value_aside, value_taken};

use fast_dictionary::{Entry, Spare};
use fast_template::{FieldPart, Operator, Scalar};
use fast_wire::Span;
use std::alloc::{AllocError, Global};

/// What became of a field, and the place behind it.
#[derive(Clone, Copy, Debug, PartialEq, Eq, Drop)]
pub enum Took {
    /// Its value is there, and its best form is what was read: the same bit, the same bytes.
    Stands(usize),
    /// It is absent, and its best form is what was read.
    Absent(usize),
    /// Its value is there; it was sent, and bit 0 gives it.
    Given(usize),
    /// Its best form is another one, which stands aside.
    Other(usize),
}

/// A value that was sent and that no entry keeps.
#[derive(Clone, Copy, Debug, PartialEq, Eq, Drop)]
pub enum Unkept {
    UInt32(u32),
    Int32(i32),
    UInt64(u64),
    Int64(i64),
    Decimal { exponent: i32, mantissa: i64 },
    /// Characters or bytes, where they stand in what was read.
    Units(Span),
}

/// What does not fit in two registers: a best form that is not what was read, and a value that no entry keeps.
#[derive(Drop)]
pub struct Aside {
    /// The bit of the best form.
    pub bit: bool,
    /// Whether there is a value.
    pub there: bool,
    /// The first bytes of the best form, which stand nowhere in the input.
    pub made: Vec<u8>,
    /// Where its others begin in the input; they end behind the field.
    pub first: usize,
    /// The value, where no entry keeps it.
    pub unkept: Unkept,
    /// Memory for strings that entries will have.
    pub spare: Spare,
}

// The number that a value of this type is.
#[inline(always)]
fn count_of(value: Option<&Scalar>) -> Option<u32>
    ensures { IfSome (option_copied value.entry) (λ v. IsTrue (is_of UInt32 v)) → option_copied value.entry ≡ count_of_spec result }
{
    match value {
        Some(Scalar::U32(count)) => Some(*count),
        _ => None,
    }
}

impl Aside {
    /// Of nothing. Takes no memory.
    #[inline(always)]
    pub fn new(alloc: Global) -> Aside
        ensures { result.made.items ≡ [] }
    {
        Aside {
            bit: true,
            there: true,
            made: Vec::new(alloc),
            first: 0,
            unkept: Unkept::UInt32(0),
            spare: Spare::new(alloc),
        }
    }

    /// What is told of a field that was sent, whose best form is bit 0 where that gives it, and else the bytes from a place
    /// on.
    #[inline(always)]
    pub(crate) fn tell(
        &mut self,
        there: bool,
        given: bool,
        at: usize,
        first: usize,
        next: usize,
    ) -> Took
        requires place { (at ≤ first) × (first ≤ next) }
        ensures place { place_of result ≡ next }
        ensures first { first_of at self.new result ≤ next }
        ensures unkept { self.new.unkept ≡ self.old.unkept }
        ensures there { is_there result self.new ≡ there }
        ensures bit { best_bit true self.new result ≡ not given }
        ensures form { (bytes : List ℕ) → best_form bytes at self.new result ≡ under (not given) (slice_range bytes first next) }
    {
        if given && there {
            return Took::Given(next);
        }
        if !given && first == at {
            return if there {
                Took::Stands(next)
            } else {
                Took::Absent(next)
            };
        }
        self.bit = !given;
        self.there = there;
        self.made.clear();
        self.first = if given { next } else { first };
        Took::Other(next)
    }

    /// The number of a length or an identifier that was taken under this bit, and has this entry afterwards; none where it is
    /// absent.
    pub fn count_in(&self, took: Took, part: &FieldPart, entry: &Entry, bit: bool) -> Option<u32>
        ensures { (bytes : List ℕ) → IfSome (value_taken part.now entry.now bit bytes self.now took) (λ v. IsTrue (is_of UInt32 v))
            → value_taken part.now entry.now bit bytes self.now took ≡ count_of_spec result }
    {
        if !took.is_there(self) {
            return None;
        }
        match part.operator {
            Operator::Plain => self.count_aside(),
            Operator::Default if bit => self.count_aside(),
            Operator::Constant | Operator::Default => count_of(part.initial()),
            Operator::Copy | Operator::Increment | Operator::Delta | Operator::Tail => match entry {
                Entry::Assigned(value) => count_of(Some(value)),
                Entry::Undefined | Entry::Empty => None,
            },
        }
    }

    // The number that lies aside.
    #[inline(always)]
    fn count_aside(&self) -> Option<u32>
        ensures { (k : kind_type.Kind) (bytes : List ℕ) → IsTrue (is_of UInt32 (value_aside k bytes self.now.unkept))
            → Some (value_aside k bytes self.now.unkept) ≡ count_of_spec result }
    {
        match self.unkept {
            Unkept::UInt32(count) => Some(count),
            _ => None,
        }
    }

    /// Appends the best form of a field that was taken.
    ///
    /// # Errors
    ///
    /// A growth was refused, for which there was no room, and nothing was appended.
    pub fn append_best(
        &self,
        took: Took,
        bytes: &[u8],
        at: usize,
        out: &mut Vec<u8>,
    ) -> Result<(), AllocError>
        requires place { (at ≤ place_of took) × (place_of took ≤ length bytes.now) }
        requires first { first_of at self.now took ≤ place_of took }
        ensures ok { OnOk result (out.new.items ≡ out.old.items ++ best_form bytes.now at self.now took) }
        ensures unchanged { OnErr result (out.new.items ≡ out.old.items) }
        ensures room { OnErr result (vec_capacity out.old < vec_len out.old + length (best_form bytes.now at self.now took)) }
    {
        match took {
            Took::Stands(next) | Took::Absent(next) => out.extend_from_slice(&bytes[at..next]),
            Took::Given(_) => Ok(()),
            Took::Other(next) => {
                let start = out.len();
                out.extend_from_slice(&self.made)?;
                let others = out.extend_from_slice(&bytes[self.first..next]);
                if others.is_err() {
                    out.truncate(start);
                }
                others
            }
        }
    }
}

impl Took {
    /// The place behind the field.
    #[inline(always)]
    pub fn place(self) -> usize
        ensures { result ≡ place_of self }
    {
        match self {
            Took::Stands(next) | Took::Absent(next) | Took::Given(next) | Took::Other(next) => next,
        }
    }

    /// Whether the field has a value.
    #[inline(always)]
    pub fn is_there(self, aside: &Aside) -> bool
        ensures { result ≡ is_there self aside.now }
    {
        match self {
            Took::Stands(_) | Took::Given(_) => true,
            Took::Absent(_) => false,
            Took::Other(_) => aside.there,
        }
    }

    /// The bit of the best form of a field that was read under this bit.
    #[inline(always)]
    pub fn best_bit(self, bit: bool, aside: &Aside) -> bool
        ensures { result ≡ best_bit bit aside.now self }
    {
        match self {
            Took::Stands(_) | Took::Absent(_) => bit,
            Took::Given(_) => false,
            Took::Other(_) => aside.bit,
        }
    }
}
