//! How strictly bytes are read, and entities that are longer than their value needs: FAST 1.1, Transfer Encoding,
//! Integer Representation, ASCII String Representation and Presence Map.

ghost use Rattle.std.specs.Prelude.{◌≡◌, ◌<◌, length};
ghost use Rattle.fast_wire.specs.Entity.{IsEntity};
ghost use Rattle.fast_wire.specs.Level as spec;

/// How strictly bytes are read.
#[derive(Clone, Copy, Debug, PartialEq, Eq)]
pub enum Level {
    /// An entity may be longer than its value needs, and bits of a map that no instruction asked for may be 1.
    Usual,
    /// Neither may be.
    Strict,
}

/// Whether an entity without a sign has more groups than its number needs. It takes no memory.
pub fn overlong_unsigned(entity: &[u8]) -> bool
    requires { IsEntity entity.now }
    ensures { result ≡ spec.overlong_unsigned entity.now }
{
    entity.len() > 1 && entity[0] == 0
}

/// Whether an entity with a sign has more groups than its number needs. It takes no memory.
pub fn overlong_signed(entity: &[u8]) -> bool
    requires { IsEntity entity.now }
    ensures { result ≡ spec.overlong_signed entity.now }
{
    if entity.len() < 2 {
        return false;
    }
    let second = entity[1] % 128;
    (entity[0] == 0 && second < 64) || (entity[0] == 127 && second >= 64)
}

/// Whether a presence map has more groups than reach its last 1, and more than one. It takes no memory.
pub fn overlong_map(entity: &[u8]) -> bool
    requires { IsEntity entity.now }
    ensures { result ≡ spec.overlong_map entity.now }
{
    entity.len() > 1 && entity[entity.len() - 1] == 128
}

/// Whether an ASCII string has a preamble before a character other than NUL, in the form with NULL or without. It takes
/// no memory.
pub fn overlong_ascii(entity: &[u8], nullable: bool) -> bool
    requires { IsEntity entity.now }
    ensures { result ≡ spec.overlong_ascii entity.now nullable }
{
    if entity.len() < 2 || entity[0] != 0 {
        return false;
    }
    if entity[1] % 128 > 0 {
        return true;
    }
    nullable && entity.len() > 2 && entity[2] % 128 > 0
}
