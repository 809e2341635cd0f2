//! What a name in a template text is.

ghost use Rattle.std.specs.Prelude.{◌≡◌, ◌&&◌, nat_le};
ghost use Rattle.std.specs.List.{list_all};
ghost use Rattle.fast_written.specs.Names.{is_name as is_name_of};

/// Whether a text is a name: 1 to 255 bytes from `!` to `~`.
pub fn is_name(text: &str) -> bool
    ensures { result ≡ is_name_of text.now }
{
    let bytes = text.as_bytes();
    1 <= bytes.len() && bytes.len() <= 255 && are_printed(bytes)
}

// Whether all bytes lie from `!` to `~`.
fn are_printed(bytes: &[u8]) -> bool
    ensures { result ≡ list_all (λ c. nat_le 33 c && nat_le c 126) bytes.now }
{
    bytes.iter().all(|c| c.is_ascii_graphic())
}
