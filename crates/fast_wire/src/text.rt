//! Unicode strings: FAST 1.1, Transfer Encoding, Unicode String Representation. Their bytes stand in the stream
//! as a byte vector.

ghost use Rattle.std.specs.Prelude.{◌≡◌, MatchResult, IsUtf8};

use crate::fault::WireFault;

/// Whether bytes are UTF-8. NotUtf8: they are not. It takes no memory.
pub fn check_text(bytes: &[u8]) -> Result<(), WireFault>
    ensures { MatchResult result (λ _. IsUtf8 bytes.now)
        (λ e. (e ≡ WireFault.NotUtf8) × (IsUtf8 bytes.now → ⊥)) }
{
    if simdutf8::is_utf8(bytes) {
        Ok(())
    } else {
        Err(WireFault::NotUtf8)
    }
}
