//! Whether a message is of its template's shape, and not too large.

ghost use Rattle.std.specs.Prelude.{◌≡◌, map};
ghost use Rattle.fast_template.specs.Resolved.{instruction_of, is_optional, list_of};
ghost use Rattle.fast_stream.specs.Nodes.{elements_of, item_of, items_in, items_of};
ghost use Rattle.fast_nodes.specs.FirstRefusal.{elements_fit, item_fits, items_fit};

use fast_field::is_spellable;
use fast_stream::Node;
use fast_template::{Flat, Presence, Scalar};
use fast_value::is_of_kind;

/// Whether what has this presence may be left out.
pub(crate) fn may_be_absent(presence: Presence) -> bool
    ensures { result ≡ is_optional presence }
{
    match presence {
        Presence::Mandatory => false,
        Presence::Optional => true,
    }
}

// Whether a node is of its instruction's shape.
#[cycle(shape)]
fn fits(flat: &Flat, node: &Node) -> bool
    ensures { result ≡ item_fits (instruction_of flat.now) (item_of node.now) }
{
    match flat {
        Flat::Field { whole, .. } => match node {
            Node::Absent => may_be_absent(whole.presence),
            Node::Value(value) => is_of_kind(whole.kind, value) && is_spellable(value),
            Node::Group(_) | Node::Sequence(_) => false,
        },
        Flat::Parts { exponent, .. } => match node {
            Node::Absent => may_be_absent(exponent.presence),
            Node::Value(Scalar::Decimal { .. }) => true,
            Node::Value(_) | Node::Group(_) | Node::Sequence(_) => false,
        },
        Flat::Group {
            presence,
            members,
            ..
        } => match node {
            Node::Absent => may_be_absent(*presence),
            Node::Group(nodes) => all_fit(members, nodes),
            Node::Value(_) | Node::Sequence(_) => false,
        },
        Flat::Sequence {
            length,
            members,
            ..
        } => match node {
            Node::Absent => may_be_absent(length.presence),
            Node::Sequence(elements) => each_fits(members, elements),
            Node::Value(_) | Node::Group(_) => false,
        },
    }
}

// Whether there is a node of its shape for each instruction.
#[cycle(shape)]
#[tactic(auto, using(crate::proofs::Views::other_number))]
pub(crate) fn all_fit(flats: &[Flat], nodes: &[Node]) -> bool
    ensures { result ≡ items_fit (list_of flats.now) (items_in nodes.now) }
{
    if flats.len() != nodes.len() {
        return false;
    }
    'members: for at in 0..flats.len() {
        if !fits(&flats[at], &nodes[at]) {
            return false;
        }
    }
    true
}

// Whether each element has these members.
#[cycle(shape)]
fn each_fits(members: &[Flat], elements: &[Vec<Node>]) -> bool
    ensures { result ≡ elements_fit (list_of members.now)
        (elements_of (map (λ e. items_in e.items) elements.now)) }
{
    'elements: for at in 0..elements.len() {
        if !all_fit(members, &elements[at]) {
            return false;
        }
    }
    true
}
