//! How many nodes a message has, and whether one is too large.

ghost use Rattle.fast_stream.specs.Nodes.{item_of, items_in, nodes_in, nodes_of};
ghost use Rattle.fast_nodes.specs.FirstRefusal.{IsLeft, has_large, item_is_large};

use fast_field::units;
use fast_stream::Node;

/// The most characters or bytes of a value, and the most elements of a sequence.
const SIZE_LIMIT: usize = 65_535;

// Of so many nodes that may still come, how many may come behind this one; none where it has more, or one too large.
#[cycle(size)]
fn left_behind(node: &Node, left: usize) -> Option<usize>
    ensures { IsLeft (nodes_of (item_of node.now)) (item_is_large (item_of node.now)) left result }
{
    if left == 0 {
        return None;
    }
    match node {
        Node::Absent => Some(left - 1),
        Node::Value(value) => {
            if units(value).len() > SIZE_LIMIT {
                None
            } else {
                Some(left - 1)
            }
        }
        Node::Group(nodes) => left_behind_all(nodes, left - 1),
        Node::Sequence(elements) => {
            if elements.len() > SIZE_LIMIT {
                return None;
            }
            let mut left = left - 1;
            'elements: for at in 0..elements.len() {
                if left == 0 {
                    return None;
                }
                match left_behind_all(&elements[at], left - 1) {
                    None => return None,
                    Some(fewer) => left = fewer,
                }
            }
            Some(left)
        }
    }
}

// The same of nodes in a row.
#[cycle(size)]
pub(crate) fn left_behind_all(nodes: &[Node], left: usize) -> Option<usize>
    ensures { IsLeft (nodes_in (items_in nodes.now)) (has_large (items_in nodes.now)) left result }
{
    let mut left = left;
    'nodes: for at in 0..nodes.len() {
        match left_behind(&nodes[at], left) {
            None => return None,
            Some(fewer) => left = fewer,
        }
    }
    Some(left)
}
