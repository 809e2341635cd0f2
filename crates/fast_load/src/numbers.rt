//! Numbers of instructions.

ghost use Rattle.std.specs.Prelude.{◌≡◌, ◌+◌, ◌<◌, ◌^◌};
ghost use Rattle.fast_template.specs.Resolved.{instruction_of, list_of, numbered, numbered_one, size_of, size_of_one};

use fast_template::Flat;

/// Numbers instructions depth first, a group or sequence before its members, and answers the number after them.
#[cycle(numbers)]
pub(crate) fn number_all(flats: &mut [Flat], first: u32) -> u32
    requires { first + size_of (list_of flats.old) < 2 ^ 32 }
    ensures numbered { list_of flats.new ≡ numbered first (list_of flats.old) }
    ensures next { result ≡ first + size_of (list_of flats.old) }
{
    let mut next = first;
    for flat in flats.iter_mut() {
        next = number_one(flat, next);
    }
    next
}

#[cycle(numbers)]
fn number_one(flat: &mut Flat, own: u32) -> u32
    requires { own + size_of_one (instruction_of flat.old) < 2 ^ 32 }
    ensures numbered { instruction_of flat.new ≡ numbered_one own (instruction_of flat.old) }
    ensures next { result ≡ own + size_of_one (instruction_of flat.old) }
{
    match flat {
        Flat::Field { number, whole, .. } => {
            *number = own;
            whole.number = own;
            own + 1
        }
        Flat::Parts {
            number,
            exponent,
            mantissa,
            ..
        } => {
            *number = own;
            exponent.number = own;
            mantissa.number = own;
            own + 1
        }
        Flat::Group {
            number,
            members,
            ..
        } => {
            *number = own;
            number_all(members, own + 1)
        }
        Flat::Sequence {
            number,
            length,
            members,
            ..
        } => {
            *number = own;
            length.number = own;
            number_all(members, own + 1)
        }
    }
}
