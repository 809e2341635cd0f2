//! How many instructions there are.

ghost use Rattle.std.specs.Prelude.{◌≡◌, ◌≤◌};
ghost use Rattle.fast_template.specs.Resolved.{instruction_of, list_of, size_of, size_of_one};

use fast_template::Flat;

/// How many instructions these are, those inside groups and sequences too.
#[cycle(sizes)]
pub(crate) fn size(members: &[Flat]) -> u32
    requires { size_of (list_of members.now) ≤ 65535 }
    ensures { result ≡ size_of (list_of members.now) }
{
    let mut total = 0;
    for member in members {
        total += size_of_member(member);
    }
    total
}

#[cycle(sizes)]
fn size_of_member(member: &Flat) -> u32
    requires { size_of_one (instruction_of member.now) ≤ 65535 }
    ensures { result ≡ size_of_one (instruction_of member.now) }
{
    match member {
        Flat::Field { .. } | Flat::Parts { .. } => 1,
        Flat::Group { members, .. } | Flat::Sequence { members, .. } => 1 + size(members),
    }
}
