//! The signs of a form of line.

ghost use Rattle.std.specs.Prelude.{◌≡◌, ◌≤◌, ◌+◌, ◌++◌, length, take, IfSome};
ghost use Rattle.fast_lines.specs.declared.form.Form.{Form as FormOf};
ghost use Rattle.fast_lines.specs.Signs.{absent_sign, between, ending, head_text, is_led, label_text, lead, unit_text, vector_text};
ghost use Rattle.fast_lines.specs.Written.{Writes};

use std::alloc::AllocError;

/// How the bytes of a string stand in a form of line.
pub trait Escape: Copy {
    // Which form it is.
    ghost form: { FormOf };

    /// Lays a byte of a string, as it is or escaped, at a place, and answers the place behind it.
    fn lay_unit(self, byte: u8, bytes: &mut [u8], at: usize) -> usize
        requires { at + 6 ≤ length bytes.old }
        ensures place { (at ≤ result) × (result ≤ at + 6) }
        ensures laid { take result bytes.new ≡ take at bytes.old ++ unit_text form byte }
        ensures length { length bytes.new ≡ length bytes.old };
}

/// The signs of a form of line, which is known where the program is made: a line of text asks nothing of the other form.
pub trait Signs: Escape {
    /// What stands between two fields, and between two elements.
    fn between(self) -> &'static [u8]
        ensures { result.now ≡ between Self.form };

    /// Whether that stands in front of a message's first field too.
    fn is_led(self) -> bool
        ensures { result ≡ is_led Self.form };

    /// What stands for a field, a group or a sequence that is absent.
    fn absent(self) -> &'static [u8]
        ensures { result.now ≡ absent_sign Self.form };

    /// What stands behind the fields of a message.
    fn ending(self) -> &'static [u8]
        ensures { result.now ≡ ending Self.form };

    /// Appends a byte vector in hex digits.
    ///
    /// # Errors
    ///
    /// An allocation was refused.
    fn push_vector(self, bytes: &[u8], out: &mut Vec<u8>) -> Result<(), AllocError>
        ensures { Writes (vector_text Self.form bytes.now) result out.old.items out.new.items };

    /// Lays a byte vector in hex digits at a place, and answers the place behind it; none where the vector is not short.
    fn lay_vector(self, vector: &[u8], bytes: &mut [u8], at: usize) -> Option<usize>
        requires { at + 66 ≤ length bytes.old }
        ensures place { IfSome result (λ next. (at ≤ next) × (next ≤ at + 66)) }
        ensures laid { IfSome result (λ next. take next bytes.new
            ≡ take at bytes.old ++ vector_text Self.form vector.now) }
        ensures before { take at bytes.new ≡ take at bytes.old }
        ensures length { length bytes.new ≡ length bytes.old };

    /// Appends what stands in front of the value of a field of a name.
    ///
    /// # Errors
    ///
    /// An allocation was refused.
    fn push_label(self, name: &str, out: &mut Vec<u8>) -> Result<(), AllocError>
        ensures { Writes (label_text Self.form name.now) result out.old.items out.new.items };

    /// Lays what stands in front of the value of a field of a name, behind what stands between two where that is due, at a
    /// place, and answers the place behind it; none where the name is not short.
    fn lay_label(self, led: bool, name: &str, bytes: &mut [u8], at: usize) -> Option<usize>
        requires { at + 68 ≤ length bytes.old }
        ensures place { IfSome result (λ next. (at ≤ next) × (next ≤ at + 68)) }
        ensures laid { IfSome result (λ next. take next bytes.new
            ≡ take at bytes.old ++ (lead Self.form led ++ label_text Self.form name.now)) }
        ensures before { take at bytes.new ≡ take at bytes.old }
        ensures length { length bytes.new ≡ length bytes.old };

    /// Appends what stands in front of the fields of a message of a template.
    ///
    /// # Errors
    ///
    /// An allocation was refused.
    fn push_head(self, id: u32, name: &str, out: &mut Vec<u8>) -> Result<(), AllocError>
        ensures { Writes (head_text Self.form id name.now) result out.old.items out.new.items };

    /// Lays the same at a place, and answers the place behind it; none where it is not short.
    fn lay_head(self, id: u32, name: &str, bytes: &mut [u8], at: usize) -> Option<usize>
        requires { at + 115 ≤ length bytes.old }
        ensures place { IfSome result (λ next. (at ≤ next) × (next ≤ at + 115)) }
        ensures laid { IfSome result (λ next. take next bytes.new
            ≡ take at bytes.old ++ head_text Self.form id name.now) }
        ensures before { take at bytes.new ≡ take at bytes.old }
        ensures length { length bytes.new ≡ length bytes.old };
}
