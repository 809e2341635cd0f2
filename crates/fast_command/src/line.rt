//! The line of a message that is at hand.

ghost use Rattle.std.specs.Prelude.{◌≡◌, ◌++◌, Some, None, OnOk, OnErr, IfErr, option_map};
ghost use Rattle.fast_stream.specs.Nodes.{content_of};
ghost use Rattle.fast_lines.specs.Lines.{line_in};
ghost use Rattle.fast_lines.specs.declared.lines.ShowFault.TheVariants as fault;

use fast_lines::{Form, ShowFault, push_line};
use fast_stream::Message;
use fast_template::TemplateSet;

/// Appends the line of a message in a form, with its line feed. A text is the template's identifier and name, and
/// `NAME=VALUE` of each field, group and sequence; JSON is an object of the template's name and identifier and of the
/// object of these values.
///
/// # Errors
///
/// Each leaves the output as it was.
///
/// - `Mismatch`: the set has no template of the message's identifier, or the message is not one of its template: a
///   node is of another shape, a value of another type or of ASCII with a character above 127, or a mandatory field,
///   group or sequence is absent.
/// - `Memory`: an allocation was refused.
pub fn show_line(
    form: Form,
    set: &TemplateSet,
    message: &Message,
    out: &mut Vec<u8>,
) -> Result<(), ShowFault>
    ensures line { OnOk result (option_map (λ line. out.old.items ++ line)
        (line_in form set.now (content_of message.now)) ≡ Some out.new.items) }
    ensures mismatch { IfErr result (λ e. e ≡ fault.Mismatch
        → line_in form set.now (content_of message.now) ≡ None) }
    ensures unchanged { OnErr result (out.new.items ≡ out.old.items) }
{
    let before = out.len();
    let shown = push_line(form, set, message, out);
    if shown.is_err() {
        out.truncate(before);
    }
    shown
}
