//! ASCII strings that stand in their shortest form, as most do in a feed, and texts compared with them.

ghost use Rattle.std.specs.Prelude.{◌≡◌, ◌<◌, ◌≤◌, ◌↔◌, ◌++◌, ℕ, List, true, length, drop, slice_range, IfNone, IfSome};
ghost use Rattle.fast_wire.specs.Entity.{groups};
ghost use Rattle.fast_wire.specs.Plain.{IsPlain};

use crate::stop_bit::entity_end;

/// The most bytes of such a string: a byte for each character.
const CHARACTER_LIMIT: usize = 65_535;

/// Where the ASCII string that begins at `at` ends, if its bytes are the shortest form of it, with NULL and without:
/// it has at least one character, and the first is not NUL. None: no
/// string that begins there stands in such a form. It takes no memory.
#[inline(always)]
pub fn plain_ascii_end(bytes: &[u8], at: usize) -> Option<usize>
    requires { at ≤ length bytes.now }
    ensures place { IfSome result (λ next. (at < next) × (next ≤ length bytes.now)) }
    ensures plain { IfSome result (λ next. IsPlain (drop at bytes.now)
        (slice_range bytes.now at next) (drop next bytes.now)) }
    ensures none { IfNone result ((form rest : List ℕ) → drop at bytes.now ≡ form ++ rest
        → IsPlain (drop at bytes.now) form rest → ⊥) }
{
    match entity_end(bytes, at, CHARACTER_LIMIT) {
        Err(_) => None,
        Ok(next) => {
            let form = &bytes[at..next];
            if form[0] % 128 == 0 { None } else { Some(next) }
        }
    }
}

/// Whether a text is the one that bytes of an entity spell, without the stop bit.
pub fn is_text_of(text: &[u8], form: &[u8]) -> bool
    ensures { result ≡ true ↔ text.now ≡ groups form.now }
{
    if text.len() != form.len() {
        return false;
    }
    for i in 0..form.len() {
        if text[i] != form[i] % 128 {
            return false;
        }
    }
    true
}
