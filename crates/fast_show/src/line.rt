//! The line of a message that is open.

ghost use Rattle.std.specs.Prelude.{◌≤◌, length};

use fast_gaps::{Gaps, Rest};
use fast_lines::{Page, Put, Signs, UNITS, all_stand, push_scalar};
use fast_template::{FieldPart, Name, Scalar};
use std::alloc::{AllocError, Global};

/// A line of more bytes than this is long: long names and texts are left out of it as gaps, and told when it is handed on.
const LONG: usize = 1_048_576;

/// A name of no more bytes than these is written nevertheless: the gap would take as many.
const SHORT_NAME: usize = 80;

/// A number of more digits than eight is no less.
const FEW_DIGITS: u64 = 100_000_000;

/// What is written of the line of a message, and the gaps in it.
#[derive(Drop)]
pub(crate) struct Line {
    text: Page,
    // what is not short, before it is appended to the text
    long: Vec<u8>,
    // whether what stands between two is due in front of what is next
    led: bool,
    gaps: Gaps,
    ghost within: { gaps.closed ≤ length text },
}

impl Line {
    ghost use Rattle.std.specs.Prelude.{◌≡◌, ◌<◌, ◌≤◌, Some, None, ◌++◌, ◌∷◌, [], true, false, codes, length, IfOk, OnOk};
    ghost use Rattle.std.specs.Option.{option_copied};
    ghost use Rattle.fast_gaps.specs.Filled.{left_of};
    ghost use Rattle.fast_show.specs.Told.{Appends, PutsIn, Says, line_now, written_of};
    ghost use Rattle.fast_lines.specs.Lines.{decimal_text, said_text, scalar_text};
    ghost use Rattle.std.specs.List.{flat_map};
    ghost use Rattle.fast_value.specs.declared.scalar.Scalar.TheVariants as scalar;
    ghost use Rattle.fast_lines.specs.declared.page.Put.TheVariants as put;
    ghost use Rattle.fast_lines.specs.Signs.{ending, head_text, is_led, label_text, lead, quoted, unit_text};
    ghost use Rattle.fast_lines.specs.declared.form.Form.{Form};

    /// Of nothing. Takes no memory.
    #[inline(always)]
    pub(crate) fn new(alloc: Global) -> Line
        ensures { (form : Form) → written_of form result ≡ [] }
    {
        Line {
            text: Page::new(alloc),
            long: Vec::new(alloc),
            led: true,
            gaps: Gaps::new(alloc),
        }
    }

    /// Whether it has gaps.
    #[inline(always)]
    pub(crate) fn has_gaps(&self) -> bool
        ensures { result ≡ false → (form : Form) → written_of form self.now ≡ self.now.text }
    {
        !self.gaps.is_empty()
    }

    /// What is written; where it has no gaps, the line.
    #[inline(always)]
    pub(crate) fn as_slice(&self) -> &[u8]
        ensures { result.now ≡ self.now.text }
    {
        self.text.as_slice()
    }

    /// All of it, to be handed on.
    pub(crate) fn into_rest(self) -> Rest
        ensures { (form : Form) → left_of form result ≡ written_of form self }
    {
        let Line {
            text,
            long,
            gaps,
            ..
        } = self;
        Rest::of(text, gaps, long)
    }

    /// Begins a line with what stands in front of the fields of a message of a template.
    #[tactic(auto, using(fast_gaps::proofs::Filled::filled_behind))]
    #[inline(always)]
    pub(crate) fn begin<S: Signs>(
        &mut self,
        signs: S,
        id: u32,
        name: &str,
    ) -> Result<(), AllocError>
        ensures { OnOk result (line_now S.form self.new
            ≡ record { text = head_text S.form id name.now; led = is_led S.form }) }
    {
        self.gaps.clear();
        self.text.clear();
        self.led = signs.is_led();
        if self.text.put_head(signs, id, name) {
            return Ok(());
        }
        self.put_head(signs, id, name)
    }

    // The same of any length, and where there was too little room.
    #[inline(never)]
    fn put_head<S: Signs>(&mut self, signs: S, id: u32, name: &str) -> Result<(), AllocError>
        ensures text { OnOk result ((form : Form) → Appends form self.old (head_text S.form id name.now) self.new) }
        ensures led { self.new.led ≡ self.old.led }
    {
        self.text.see_room()?;
        self.long.clear();
        signs.push_head(id, name, &mut self.long)?;
        self.put_long()
    }

    // Appends a text.
    #[tactic(auto, using(fast_gaps::proofs::Filled::filled_behind))]
    #[inline(always)]
    fn put(&mut self, text: &[u8]) -> Result<(), AllocError>
        ensures text { OnOk result ((form : Form) → Appends form self.old text.now self.new) }
        ensures led { self.new.led ≡ self.old.led }
    {
        self.text.put(text)?;
        Ok(())
    }

    // Appends what is not short.
    #[tactic(auto, using(fast_gaps::proofs::Filled::filled_behind))]
    fn put_long(&mut self) -> Result<(), AllocError>
        ensures text { OnOk result ((form : Form) → Appends form self.old self.old.long.items self.new) }
        ensures led { self.new.led ≡ self.old.led }
    {
        self.text.put(&self.long)?;
        Ok(())
    }

    // Whether it is long.
    fn is_long(&self) -> bool {
        self.text.len() > LONG
    }

    // Leaves a gap for what stands in front of a value.
    fn leave_label(&mut self, name: &Name) -> Result<(), AllocError>
        ensures text { OnOk result ((form : Form) → Appends form self.old (label_text form name.now) self.new) }
        ensures led { self.new.led ≡ self.old.led }
    {
        self.gaps.leave_label(self.text.len(), name)?;
        Ok(())
    }

    // Leaves a gap for a text of more than a few units; answers whether it did.
    fn leave_text(&mut self, part: &FieldPart, value: &Scalar) -> Result<bool, AllocError>
        ensures left { IfOk result (λ b. b ≡ true → (form : Form) → Appends form self.old (scalar_text form value.now) self.new) }
        ensures none { IfOk result (λ b. b ≡ false → (form : Form) → written_of form self.new
            ≡ written_of form self.old) }
        ensures led { self.new.led ≡ self.old.led }
    {
        if self.gaps.leave_text(self.text.len(), part, value)? {
            return Ok(true);
        }
        Ok(false)
    }

    // Appends what stands between two where it is due.
    #[inline(always)]
    fn lead<S: Signs>(&mut self, signs: S) -> Result<(), AllocError>
        ensures text { OnOk result (Appends S.form self.old (lead S.form self.old.led) self.new) }
        ensures led { self.new.led ≡ self.old.led }
    {
        if self.led {
            self.put(signs.between())
        } else {
            Ok(())
        }
    }

    // Appends a short label, behind what stands between two where it is due, if there is room; answers whether it did.
    #[tactic(auto, using(fast_gaps::proofs::Filled::filled_behind))]
    #[inline(always)]
    fn put_label<S: Signs>(&mut self, signs: S, name: &Name) -> bool
        ensures done { result ≡ true → PutsIn S.form (lead S.form self.old.led ++ label_text S.form name.now) true self.old self.new }
        ensures left { result ≡ false → line_now S.form self.new ≡ line_now S.form self.old }
    {
        if !self.text.put_label(signs, self.led, name.as_str()) {
            return false;
        }
        self.led = true;
        true
    }

    // The same with a short value, or what stands for none.
    #[tactic(auto, using(fast_gaps::proofs::Filled::filled_behind))]
    #[inline(always)]
    fn put_field<S: Signs>(&mut self, signs: S, name: &Name, value: Option<&Scalar>) -> bool
        ensures done { result ≡ true → PutsIn S.form ((lead S.form self.old.led ++ label_text S.form name.now)
            ++ said_text S.form (option_copied value.entry)) true self.old self.new }
        ensures left { result ≡ false → line_now S.form self.new ≡ line_now S.form self.old }
    {
        if !self.text.put_field(signs, self.led, name.as_str(), value) {
            return false;
        }
        self.led = true;
        true
    }

    // The same of a string; where it is not short or does not stand as it is, the label alone.
    #[tactic(auto, using(fast_gaps::proofs::Filled::filled_behind))]
    #[inline(always)]
    fn put_text<S: Signs>(&mut self, signs: S, name: &Name, text: &[u8]) -> Put
        ensures field { result ≡ put.Field → PutsIn S.form ((lead S.form self.old.led ++ label_text S.form name.now)
            ++ quoted S.form text.now) true self.old self.new }
        ensures label { result ≡ put.Label → PutsIn S.form (lead S.form self.old.led ++ label_text S.form name.now) true self.old self.new }
        ensures nothing { result ≡ put.Nothing → line_now S.form self.new ≡ line_now S.form self.old }
    {
        let put = self.text.put_text(signs, self.led, name.as_str(), text);
        match put {
            Put::Nothing => {}
            Put::Label | Put::Field => self.led = true,
        }
        put
    }

    // Appends a string of few bytes without its quotes.
    #[tactic(auto, using(fast_gaps::proofs::Filled::filled_behind))]
    #[inline(always)]
    fn put_few<S: Signs>(&mut self, signs: S, text: &[u8]) -> Result<(), AllocError>
        requires { length text.now ≤ 10 }
        ensures text { OnOk result (Appends S.form self.old (flat_map (unit_text S.form) text.now) self.new) }
        ensures led { self.new.led ≡ self.old.led }
    {
        self.text.put_units(signs, text)?;
        Ok(())
    }

    /// Appends what stands in front of a value, behind what stands between two where it is due.
    #[inline(always)]
    pub(crate) fn label<S: Signs>(&mut self, signs: S, name: &Name) -> Result<(), AllocError>
        ensures { OnOk result (PutsIn S.form (lead S.form self.old.led ++ label_text S.form name.now) true self.old self.new) }
    {
        if self.put_label(signs, name) {
            return Ok(());
        }
        self.label_long(signs, name)
    }

    // The same of any length, and where there was too little room; in a line that is long a long name is left out.
    #[inline(never)]
    fn label_long<S: Signs>(&mut self, signs: S, name: &Name) -> Result<(), AllocError>
        ensures { OnOk result (PutsIn S.form (lead S.form self.old.led ++ label_text S.form name.now) true self.old self.new) }
    {
        self.text.see_room()?;
        self.lead(signs)?;
        self.led = true;
        if self.is_long() && name.as_str().len() > SHORT_NAME {
            return self.leave_label(name);
        }
        self.long.clear();
        signs.push_label(name.as_str(), &mut self.long)?;
        self.put_long()
    }

    /// Appends the label of a field and its value, or what stands for one that is absent. Most values are numbers of 32 bits,
    /// and go where they are told with no table of types between.
    #[inline(always)]
    pub(crate) fn tell<S: Signs>(
        &mut self,
        signs: S,
        name: &Name,
        part: &FieldPart,
        value: Option<&Scalar>,
    ) -> Result<(), AllocError>
        ensures { OnOk result (Says S.form name.now (option_copied value.entry) self.old self.new) }
    {
        match value {
            None => self.tell_absent(signs, name),
            Some(Scalar::U32(number)) => self.tell_unsigned(signs, name, u64::from(*number)),
            Some(value) => self.tell_value(signs, name, part, value),
        }
    }

    // The same of a value. Each type has a function of its own, which is called last, so that none saves registers for another.
    #[inline(never)]
    fn tell_value<S: Signs>(
        &mut self,
        signs: S,
        name: &Name,
        part: &FieldPart,
        value: &Scalar,
    ) -> Result<(), AllocError>
        ensures { OnOk result (Says S.form name.now (Some value.now) self.old self.new) }
    {
        match value {
            Scalar::U32(number) => self.tell_unsigned(signs, name, u64::from(*number)),
            Scalar::I32(number) => self.tell_signed(signs, name, i64::from(*number)),
            Scalar::U64(number) => self.tell_unsigned(signs, name, *number),
            Scalar::I64(number) => self.tell_signed(signs, name, *number),
            Scalar::Decimal { exponent, mantissa } => {
                self.tell_decimal(signs, name, *mantissa, *exponent)
            }
            Scalar::Ascii(text) => self.tell_string(signs, name, part, value, text.as_slice()),
            Scalar::Unicode(text) => self.tell_string(signs, name, part, value, text.as_bytes()),
            Scalar::Bytes(_) => self.tell_vector(signs, name, part, value),
        }
    }

    // Appends the label of a field and a number.
    #[inline(never)]
    fn tell_unsigned<S: Signs>(
        &mut self,
        signs: S,
        name: &Name,
        number: u64,
    ) -> Result<(), AllocError>
        ensures { OnOk result (Says S.form name.now (Some (scalar.U64 number)) self.old self.new) }
    {
        if number >= FEW_DIGITS {
            return self.tell_large(signs, name, number);
        }
        if self.put_field(signs, name, Some(&Scalar::U64(number))) {
            return Ok(());
        }
        self.tell_whole(signs, name, &Scalar::U64(number))
    }

    // The same of one of more than eight digits.
    #[inline(never)]
    fn tell_large<S: Signs>(&mut self, signs: S, name: &Name, number: u64) -> Result<(), AllocError>
        ensures { OnOk result (Says S.form name.now (Some (scalar.U64 number)) self.old self.new) }
    {
        if self.put_field(signs, name, Some(&Scalar::U64(number))) {
            return Ok(());
        }
        self.tell_whole(signs, name, &Scalar::U64(number))
    }

    // The same of a number with a sign.
    #[inline(never)]
    fn tell_signed<S: Signs>(
        &mut self,
        signs: S,
        name: &Name,
        number: i64,
    ) -> Result<(), AllocError>
        ensures { OnOk result (Says S.form name.now (Some (scalar.I64 number)) self.old self.new) }
    {
        if number >= 0 {
            return self.tell_unsigned(signs, name, number.unsigned_abs());
        }
        self.tell_negative(signs, name, number)
    }

    // The same of one behind a minus.
    #[inline(never)]
    fn tell_negative<S: Signs>(
        &mut self,
        signs: S,
        name: &Name,
        number: i64,
    ) -> Result<(), AllocError>
        ensures { OnOk result (Says S.form name.now (Some (scalar.I64 number)) self.old self.new) }
    {
        if self.put_field(signs, name, Some(&Scalar::I64(number))) {
            return Ok(());
        }
        self.tell_whole(signs, name, &Scalar::I64(number))
    }

    // The same of a decimal.
    #[inline(never)]
    fn tell_decimal<S: Signs>(
        &mut self,
        signs: S,
        name: &Name,
        mantissa: i64,
        exponent: i32,
    ) -> Result<(), AllocError>
        ensures { OnOk result (Says S.form name.now (Some (scalar.Decimal exponent mantissa)) self.old self.new) }
    {
        let value = Scalar::Decimal { exponent, mantissa };
        if self.put_field(signs, name, Some(&value)) {
            return Ok(());
        }
        self.tell_whole(signs, name, &value)
    }

    // The same of a value that is never left out, under a name of any length, and where there was too little room.
    #[inline(never)]
    fn tell_whole<S: Signs>(
        &mut self,
        signs: S,
        name: &Name,
        value: &Scalar,
    ) -> Result<(), AllocError>
        ensures { OnOk result (Says S.form name.now (Some value.now) self.old self.new) }
    {
        self.text.see_room()?;
        self.label(signs, name)?;
        self.push_value(signs, value)
    }

    // The same of a string.
    #[inline(always)]
    fn tell_string<S: Signs>(
        &mut self,
        signs: S,
        name: &Name,
        part: &FieldPart,
        value: &Scalar,
        text: &[u8],
    ) -> Result<(), AllocError>
        requires { scalar_text S.form value.now ≡ quoted S.form text.now }
        ensures { OnOk result (Says S.form name.now (Some value.now) self.old self.new) }
    {
        match text {
            [byte] => self.tell_character(signs, name, value, *byte),
            _ => self.tell_text(signs, name, part, value, text),
        }
    }

    // The same of a string of one byte, which is never left out.
    #[tactic(auto, using(fast_gaps::proofs::Filled::filled_behind))]
    #[inline(never)]
    fn tell_character<S: Signs>(
        &mut self,
        signs: S,
        name: &Name,
        value: &Scalar,
        byte: u8,
    ) -> Result<(), AllocError>
        requires { scalar_text S.form value.now ≡ quoted S.form (byte ∷ []) }
        ensures { OnOk result (Says S.form name.now (Some value.now) self.old self.new) }
    {
        match self.put_text(signs, name, &[byte]) {
            Put::Field => Ok(()),
            Put::Label => self.push_value(signs, value),
            Put::Nothing => self.tell_whole(signs, name, value),
        }
    }

    // The same of any string.
    #[tactic(auto, using(fast_gaps::proofs::Filled::filled_behind))]
    #[inline(never)]
    fn tell_text<S: Signs>(
        &mut self,
        signs: S,
        name: &Name,
        part: &FieldPart,
        value: &Scalar,
        text: &[u8],
    ) -> Result<(), AllocError>
        requires { scalar_text S.form value.now ≡ quoted S.form text.now }
        ensures { OnOk result (Says S.form name.now (Some value.now) self.old self.new) }
    {
        match self.put_text(signs, name, text) {
            Put::Field => Ok(()),
            Put::Label => self.value_long(signs, part, value),
            Put::Nothing => self.tell_long(signs, name, part, Some(value)),
        }
    }

    // The same of a byte vector.
    #[inline(never)]
    fn tell_vector<S: Signs>(
        &mut self,
        signs: S,
        name: &Name,
        part: &FieldPart,
        value: &Scalar,
    ) -> Result<(), AllocError>
        ensures { OnOk result (Says S.form name.now (Some value.now) self.old self.new) }
    {
        if self.put_field(signs, name, Some(value)) {
            return Ok(());
        }
        self.tell_long(signs, name, part, Some(value))
    }

    // The same of any length, one after the other, and where there was too little room.
    #[inline(never)]
    fn tell_long<S: Signs>(
        &mut self,
        signs: S,
        name: &Name,
        part: &FieldPart,
        value: Option<&Scalar>,
    ) -> Result<(), AllocError>
        ensures { OnOk result (Says S.form name.now (option_copied value.entry) self.old self.new) }
    {
        self.text.see_room()?;
        self.label(signs, name)?;
        match value {
            Some(value) => self.value_long(signs, part, value),
            None => self.put(signs.absent()),
        }
    }

    // Appends a value; in a line that is long a text is left out.
    #[inline(never)]
    fn value_long<S: Signs>(
        &mut self,
        signs: S,
        part: &FieldPart,
        value: &Scalar,
    ) -> Result<(), AllocError>
        ensures text { OnOk result (Appends S.form self.old (scalar_text S.form value.now) self.new) }
        ensures led { self.new.led ≡ self.old.led }
    {
        if self.is_long() && self.leave_text(part, value)? {
            return Ok(());
        }
        match value {
            Scalar::Ascii(text) => self.put_quoted(signs, text.as_slice()),
            Scalar::Unicode(text) => self.put_quoted(signs, text.as_bytes()),
            _ => self.push_value(signs, value),
        }
    }

    // Appends a value as it is, however long it is.
    fn push_value<S: Signs>(&mut self, signs: S, value: &Scalar) -> Result<(), AllocError>
        ensures text { OnOk result (Appends S.form self.old (scalar_text S.form value.now) self.new) }
        ensures led { self.new.led ≡ self.old.led }
    {
        self.long.clear();
        push_scalar(signs, value, &mut self.long)?;
        self.put_long()
    }

    // Appends a string in its quotes.
    #[tactic(auto, using(fast_lines::proofs::Written::appended_more))]
    fn put_quoted<S: Signs>(&mut self, signs: S, text: &[u8]) -> Result<(), AllocError>
        ensures text { OnOk result (Appends S.form self.old (quoted S.form text.now) self.new) }
        ensures led { self.new.led ≡ self.old.led }
    {
        self.put(b"\"")?;
        self.put_inside(signs, text)?;
        self.put(b"\"")?;
        Ok(())
    }

    // Appends a string without its quotes; where it stands as it is, at once.
    #[tactic(auto, using(fast_lines::proofs::Written::plain_text))]
    #[inline(always)]
    fn put_inside<S: Signs>(&mut self, signs: S, text: &[u8]) -> Result<(), AllocError>
        ensures text { OnOk result (Appends S.form self.old (flat_map (unit_text S.form) text.now) self.new) }
        ensures led { self.new.led ≡ self.old.led }
    {
        if all_stand(text) {
            self.put(text)?;
            return Ok(());
        }
        self.put_units(signs, text)
    }

    // The same, piece by piece.
    fn put_units<S: Signs>(&mut self, signs: S, text: &[u8]) -> Result<(), AllocError>
        ensures text { OnOk result (Appends S.form self.old (flat_map (unit_text S.form) text.now) self.new) }
        ensures led { self.new.led ≡ self.old.led }
    {
        let mut at = 0;
        while text.len() - at >= UNITS {
            self.put_few(signs, &text[at..at + UNITS])?;
            at += UNITS;
        }
        self.put_few(signs, &text[at..])?;
        Ok(())
    }

    /// Appends the label of what is absent, and what stands for it.
    #[inline(never)]
    pub(crate) fn tell_absent<S: Signs>(&mut self, signs: S, name: &Name) -> Result<(), AllocError>
        ensures { OnOk result (Says S.form name.now None self.old self.new) }
    {
        if self.put_field(signs, name, None) {
            return Ok(());
        }
        self.absent_long(signs, name)
    }

    // The same under a name of any length, and where there was too little room.
    #[inline(never)]
    fn absent_long<S: Signs>(&mut self, signs: S, name: &Name) -> Result<(), AllocError>
        ensures { OnOk result (Says S.form name.now None self.old self.new) }
    {
        self.label(signs, name)?;
        self.put(signs.absent())
    }

    /// Appends a decimal, behind its label.
    #[tactic(auto, using(fast_gaps::proofs::Filled::filled_behind))]
    #[inline(always)]
    pub(crate) fn push_decimal(&mut self, mantissa: i64, exponent: i32) -> Result<(), AllocError>
        ensures text { OnOk result ((form : Form) → Appends form self.old (decimal_text mantissa exponent) self.new) }
        ensures led { self.new.led ≡ self.old.led }
    {
        self.text.put_decimal(mantissa, exponent)?;
        Ok(())
    }

    /// Appends a brace, behind what stands between two where it is due; behind the brace it is not.
    #[inline(always)]
    pub(crate) fn open_brace<S: Signs>(&mut self, signs: S) -> Result<(), AllocError>
        ensures { OnOk result (PutsIn S.form (lead S.form self.old.led ++ codes "{") false self.old self.new) }
    {
        self.lead(signs)?;
        self.open(b'{')
    }

    /// Appends a label and a bracket or a brace, behind which nothing is due.
    #[inline(always)]
    pub(crate) fn open_under<S: Signs>(
        &mut self,
        signs: S,
        name: &Name,
        bracket: u8,
    ) -> Result<(), AllocError>
        ensures { OnOk result (PutsIn S.form ((lead S.form self.old.led ++ label_text S.form name.now) ++ bracket ∷ [])
            false self.old self.new) }
    {
        self.label(signs, name)?;
        self.open(bracket)
    }

    // Appends a bracket or a brace, behind which nothing is due.
    #[inline(always)]
    fn open(&mut self, bracket: u8) -> Result<(), AllocError>
        ensures { OnOk result ((form : Form) → PutsIn form (bracket ∷ []) false self.old self.new) }
    {
        self.put(&[bracket])?;
        self.led = false;
        Ok(())
    }

    /// Appends the bracket or the brace at the end, behind which what stands between two is due.
    #[inline(always)]
    pub(crate) fn close(&mut self, bracket: u8) -> Result<(), AllocError>
        ensures { OnOk result ((form : Form) → PutsIn form (bracket ∷ []) true self.old self.new) }
    {
        self.put(&[bracket])?;
        self.led = true;
        Ok(())
    }

    /// Appends what ends the line.
    #[inline(always)]
    pub(crate) fn end<S: Signs>(&mut self, signs: S) -> Result<(), AllocError>
        ensures { OnOk result (Appends S.form self.old (ending S.form) self.new) }
    {
        self.put(signs.ending())
    }
}
