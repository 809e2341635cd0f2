//! The least and the greatest values, groups and sequences in eight levels, and a map without room.

use crate::base::*;
use crate::encoding::messages::{Task, both_fulfil, has_canonical, message};
use fast_encoder::{EncodeCause, EncodeFault};
use stream_rows::extremes::{EXTREME_ROWS, EXTREMES, Extreme};
use stream_rows::long::stream_of;
use stream_rows::nested::{NESTED, NESTED_ROWS};

fn is_written(rt: &impl Abort, on: &Loaded, row: &Extreme) -> Tried {
    let stream = stream_of(on.alloc, row.stream)?;
    let canonical = stream_of(on.alloc, row.canonical)?;
    has_canonical(rt, on, &stream, &canonical)
}

#[test]
fn least_and_greatest_values(rt: HostRuntime) -> Tried {
    let on = loaded(&rt, rt.alloc(), EXTREMES)?;
    for row in EXTREME_ROWS {
        is_written(&rt, &on, row)?;
    }
    Ok(())
}

#[test]
fn eight_levels(rt: HostRuntime) -> Tried {
    let on = loaded(&rt, rt.alloc(), NESTED)?;
    for row in NESTED_ROWS {
        has_canonical(&rt, &on, row.stream, row.stream)?;
    }
    Ok(())
}

// A group of 2,048 fields, each of which takes a bit, and a constant behind it.
const WIDE: &str =
    r#"{"templates":[{"name":"Wide","id":1,"instructions":[{"kind":"group","name":"G","instructions":[
 {"kind":"templateRef","name":"Two11"}]},{"kind":"uInt32","name":"K","operator":"constant","value":"7"}]},
 {"name":"Two11","instructions":[{"kind":"templateRef","name":"Two10"},{"kind":"templateRef","name":"Two10"}]},
 {"name":"Two10","instructions":[{"kind":"templateRef","name":"Two9"},{"kind":"templateRef","name":"Two9"}]},
 {"name":"Two9","instructions":[{"kind":"templateRef","name":"Two8"},{"kind":"templateRef","name":"Two8"}]},
 {"name":"Two8","instructions":[{"kind":"templateRef","name":"Two7"},{"kind":"templateRef","name":"Two7"}]},
 {"name":"Two7","instructions":[{"kind":"templateRef","name":"Two6"},{"kind":"templateRef","name":"Two6"}]},
 {"name":"Two6","instructions":[{"kind":"templateRef","name":"Two5"},{"kind":"templateRef","name":"Two5"}]},
 {"name":"Two5","instructions":[{"kind":"templateRef","name":"Two4"},{"kind":"templateRef","name":"Two4"}]},
 {"name":"Two4","instructions":[{"kind":"templateRef","name":"Two3"},{"kind":"templateRef","name":"Two3"}]},
 {"name":"Two3","instructions":[{"kind":"templateRef","name":"Two2"},{"kind":"templateRef","name":"Two2"}]},
 {"name":"Two2","instructions":[{"kind":"templateRef","name":"Two1"},{"kind":"templateRef","name":"Two1"}]},
 {"name":"Two1","instructions":[{"kind":"templateRef","name":"Two0"},{"kind":"templateRef","name":"Two0"}]},
 {"name":"Two0","instructions":[{"kind":"uInt32","name":"F","presence":"optional","operator":"default"}]}]}"#;

// The group, with a value in so many of its first fields.
fn wide_group(alloc: Global, sent: usize) -> Tried<Node> {
    let mut nodes = Vec::new(alloc);
    for place in 0..2_048usize {
        let value = Node::Value(Scalar::U32(5));
        nodes.push(if place < sent { value } else { Node::Absent })?;
    }
    Ok(Node::Group(nodes))
}

// A message of it, with another value than the constant's.
fn wide(alloc: Global, sent: usize) -> Tried<Message> {
    let fields = vec![in alloc; wide_group(alloc, sent)?, Node::Value(Scalar::U32(8))]?;
    Ok(message(1, fields))
}

// How many values the group has, why the message is refused, and the instruction. (A map has room for 1,792 bits.)
struct Refused(usize, EncodeCause, u32);

fn is_refused(rt: &impl Abort, on: &Loaded, row: &Refused) -> Tried {
    let message = wide(on.alloc, row.0)?;
    let fault = EncodeFault {
        cause: row.1,
        instruction: row.2,
    };
    both_fulfil(rt, on, &Task::Refuse(&[], &message, fault))
}

#[test]
fn a_map_without_room_before_a_later_field(rt: HostRuntime) -> Tried {
    const ROWS: &[Refused] = rows! { Refused:
        1_792, EncodeCause::NotConstant, 2_050;
        1_793, EncodeCause::Limit, 0;
    };
    let on = loaded(&rt, rt.alloc(), WIDE)?;
    for row in ROWS {
        is_refused(&rt, &on, row)?;
    }
    Ok(())
}
