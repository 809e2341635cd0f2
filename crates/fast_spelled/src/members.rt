//! The members of a message, a group or an element.

ghost use Rattle.std.specs.Prelude.{◌≡◌, ◌⊎◌, ◌≤◌, ◌<◌, ◌+◌, ◌∷◌, ◌++◌, [], None, Some, MatchResult, IfErr, IfSome, OnOk, length, option_map, map, List, get_or, set};
ghost use Rattle.json.specs.Reads.{token_of};
ghost use Rattle.json.specs.Token.{Token as SpecToken};
ghost use Rattle.json.specs.Tree.{json_tokens, items_tokens, members_tokens};
ghost use Rattle.json.specs.Json.{Json, Items as Listed, Members};
ghost use Rattle.fast_template.specs.Resolved.{instruction_of, list_of};
ghost use Rattle.fast_stream.specs.Nodes.{item_of, items_in, elements_of, nodes_in, nodes_in_elements, nodes_of};
ghost use Rattle.fast_spelled.specs.Spelled.{elements_by, item_by, items_by, json_field, left_out, name_in, presence_in};
ghost use Rattle.fast_spelled.specs.Slots.{filled_first, finished};
ghost use Rattle.fast_spelled.specs.Tokens.{AreFilled, IsRead, Refuses, first_token, slots_of};

use crate::fault::{LineCause, LineFault};
use crate::value::{of_number, of_string};
use fast_stream::Node;
use fast_template::{Flat, Kind, Presence, Scalar};
use json::{Reader, Token};
use std::alloc::{AllocError, Global};

/// What is known while the fields of a message are read.
#[derive(Drop)]
pub(crate) struct Reading<'a> {
    pub(crate) alloc: Global,
    pub(crate) template: u32,
    pub(crate) reader: Reader<'a>,
    /// How many nodes may still come.
    pub(crate) left: usize,
}

impl<'a> Reading<'a> {
    /// A fault at an instruction.
    pub(crate) fn fault(&self, cause: LineCause, instruction: u32) -> LineFault
        ensures { result.cause ≡ cause }
    {
        LineFault {
            cause,
            template: self.template,
            instruction,
            column: self.reader.offset(),
        }
    }

    /// Takes so many nodes of those that may still come.
    fn take_nodes(&mut self, count: usize, instruction: u32) -> Result<(), LineFault>
        ensures same { self.new.reader ≡ self.old.reader }
        ensures left { OnOk result (self.old.left ≡ count + self.new.left) }
        ensures limit { IfErr result (λ f. (f.cause ≡ LineCause.Limit) × (self.old.left < count)) }
    {
        if self.left < count {
            return Err(self.fault(LineCause::Limit, instruction));
        }
        self.left -= count;
        Ok(())
    }

    /// The next token.
    fn token(&mut self, instruction: u32) -> Result<Token<'a>, LineFault>
        ensures shorter { length self.new.reader ≤ length self.old.reader }
        ensures left { self.new.left ≡ self.old.left }
        ensures read { MatchResult result (λ t. self.old.reader ≡ token_of t ∷ self.new.reader)
            (λ f. self.old.reader ≡ []) }
    {
        match self.reader.next() {
            Some(token) => Ok(token),
            None => Err(self.fault(LineCause::Json, instruction)),
        }
    }
}

/// Whether an instruction can be left out.
pub(crate) fn presence_of(flat: &Flat) -> Presence
    ensures { result ≡ presence_in (instruction_of flat.now) }
{
    match flat {
        Flat::Field { presence, .. }
        | Flat::Parts { presence, .. }
        | Flat::Group { presence, .. }
        | Flat::Sequence { presence, .. } => *presence,
    }
}

/// The name of an instruction.
pub(crate) fn name_of(flat: &Flat) -> &str
    ensures { result.now ≡ name_in (instruction_of flat.now) }
{
    match flat {
        Flat::Field { name, .. }
        | Flat::Parts { name, .. }
        | Flat::Group { name, .. }
        | Flat::Sequence { name, .. } => name.as_str(),
    }
}

/// The number of an instruction.
fn number_of(flat: &Flat) -> u32 {
    match flat {
        Flat::Field { number, .. }
        | Flat::Parts { number, .. }
        | Flat::Group { number, .. }
        | Flat::Sequence { number, .. } => *number,
    }
}

/// What stands for what is left out.
fn absent(reading: &Reading<'_>, presence: Presence, number: u32) -> Result<Node, LineFault>
    ensures { MatchResult result (λ n. left_out presence ≡ Some (item_of n))
        (λ f. left_out presence ≡ None) }
{
    match presence {
        Presence::Optional => Ok(Node::Absent),
        Presence::Mandatory => Err(reading.fault(LineCause::Mismatch, number)),
    }
}

/// The value of a field.
fn read_field(
    reading: &Reading<'_>,
    kind: Kind,
    number: u32,
    token: Token<'_>,
) -> Result<Node, LineFault>
    ensures { (j : Json) → token_of token.entry ≡ first_token j → MatchResult result
        (λ n. json_field kind j ≡ Some (item_of n))
        (λ f. (f.cause ≡ LineCause.Memory) ⊎ (json_field kind j ≡ None)) }
{
    let value: Result<Scalar, LineCause> = match token {
        Token::Number(text) => of_number(reading.alloc, kind, text),
        Token::String(text) => of_string(reading.alloc, kind, text),
        _ => Err(LineCause::Mismatch),
    };
    match value {
        Ok(value) => Ok(Node::Value(value)),
        Err(cause) => Err(reading.fault(cause, number)),
    }
}

/// How many slots in front have something. So many had before.
fn filled_in_front(slots: &[Option<Node>], before: usize) -> usize
    requires { AreFilled slots.now before }
    ensures { AreFilled slots.now result }
{
    for place in before..slots.len() {
        if slots[place].is_none() {
            return place;
        }
    }
    slots.len()
}

/// The place of the first instruction of a name that has nothing yet. So many in front have something.
fn place_of(members: &[Flat], slots: &[Option<Node>], front: usize, name: &str) -> Option<usize>
    requires { (length slots.now ≡ length members.now) × AreFilled slots.now front }
    ensures none { result ≡ None → (j : Json)
        → filled_first (list_of members.now) (slots_of slots.now) name.now j ≡ None }
    ensures some { IfSome result (λ place. (place < length members.now)
        × (get_or slots.now place None ≡ None)
        × ((j : Json) (d : Flat) → filled_first (list_of members.now) (slots_of slots.now) name.now j
        ≡ option_map (λ n. set (slots_of slots.now) place (Some n))
        (item_by (instruction_of (get_or members.now place d)) j))) }
{
    for place in front..members.len() {
        if slots[place].is_none() && name == name_of(&members[place]) {
            return Some(place);
        }
    }
    None
}

/// The nodes of these slots: what has none is left out.
fn finish(
    reading: &Reading<'_>,
    members: &[Flat],
    slots: &mut Vec<Option<Node>>,
) -> Result<Vec<Node>, LineFault>
    requires { length slots.now.items ≡ length members.now }
    ensures { MatchResult result
        (λ ns. finished (list_of members.now) (slots_of slots.old.items) ≡ Some (items_in ns.items))
        (λ f. (f.cause ≡ LineCause.Memory)
        ⊎ (finished (list_of members.now) (slots_of slots.old.items) ≡ None)) }
{
    let mut nodes = Vec::with_capacity(reading.alloc, members.len())?;
    for (place, member) in members.iter().enumerate() {
        let node = match slots[place].take() {
            Some(node) => node,
            None => absent(reading, presence_of(member), number_of(member))?,
        };
        match nodes.push(node) {
            Ok(()) => {}
            Err(refused) => return Err(AllocError::from(refused).into()),
        }
    }
    Ok(nodes)
}

/// Puts a node into a slot.
fn put_node(slots: &mut Vec<Option<Node>>, place: usize, node: Node)
    requires { place < length slots.now.items }
    ensures { slots.new.items ≡ set slots.old.items place (Some node) }
{
    slots[place] = Some(node);
}

/// The elements of a sequence, whose bracket is open.
#[cycle(reading)]
fn read_elements(
    reading: &mut Reading<'_>,
    members: &[Flat],
    number: u32,
) -> Result<Vec<Vec<Node>>, LineFault>
    ensures shorter { length reading.new.reader ≤ length reading.old.reader }
    ensures read { (js : Listed) (rest : List SpecToken) → reading.old.reader ≡ items_tokens js ++ rest
        → MatchResult result
        (λ es. IsRead nodes_in_elements reading.old.left
        (elements_by (λ ms. items_by (list_of members.now) ms) js)
        (elements_of (map (λ v. items_in v.items) es.items)) reading.new.left
        × (reading.new.reader ≡ rest))
        (λ f. Refuses nodes_in_elements reading.old.left
        (elements_by (λ ms. items_by (list_of members.now) ms) js) f) }
{
    let mut elements = Vec::new(reading.alloc);
    while !reading.reader.take_end_array() {
        match reading.take_nodes(1, number) {
            Ok(()) => {}
            Err(fault) => return Err(fault),
        }
        let token = match reading.token(number) {
            Ok(token) => token,
            Err(fault) => return Err(fault),
        };
        match token {
            Token::BeginObject => {}
            _ => return Err(reading.fault(LineCause::Mismatch, number)),
        }
        let nodes = match read_members(reading, members, number) {
            Ok(nodes) => nodes,
            Err(fault) => return Err(fault),
        };
        match elements.push(nodes) {
            Ok(()) => {}
            Err(refused) => return Err(AllocError::from(refused).into()),
        }
    }
    Ok(elements)
}

/// What stands for an instruction, whose own node has been taken of those that are left.
#[cycle(reading)]
fn read_node(reading: &mut Reading<'_>, flat: &Flat) -> Result<Node, LineFault>
    ensures shorter { length reading.new.reader ≤ length reading.old.reader }
    ensures read { (j : Json) (rest : List SpecToken) → reading.old.reader ≡ json_tokens j ++ rest
        → MatchResult result
        (λ n. IsRead nodes_of (1 + reading.old.left) (item_by (instruction_of flat.now) j)
        (item_of n) reading.new.left × (reading.new.reader ≡ rest))
        (λ f. Refuses nodes_of (1 + reading.old.left) (item_by (instruction_of flat.now) j) f) }
{
    let number = number_of(flat);
    let token = match reading.token(number) {
        Ok(token) => token,
        Err(fault) => return Err(fault),
    };
    if let Token::Null = token {
        return absent(reading, presence_of(flat), number);
    }
    match flat {
        Flat::Field { whole, .. } => read_field(reading, whole.kind, number, token),
        Flat::Parts { .. } => read_field(reading, Kind::Decimal, number, token),
        Flat::Group { members, .. } => match token {
            Token::BeginObject => match read_members(reading, members, number) {
                Ok(nodes) => Ok(Node::Group(nodes)),
                Err(fault) => Err(fault),
            },
            _ => Err(reading.fault(LineCause::Mismatch, number)),
        },
        Flat::Sequence { members, .. } => match token {
            Token::BeginArray => match read_elements(reading, members, number) {
                Ok(elements) => Ok(Node::Sequence(elements)),
                Err(fault) => Err(fault),
            },
            _ => Err(reading.fault(LineCause::Mismatch, number)),
        },
    }
}

/// The nodes of these instructions, of an object whose brace is open. Members may come in any order. One that is not there
/// is absent. Of instructions of one name the first comes first.
#[cycle(reading)]
pub(crate) fn read_members(
    reading: &mut Reading<'_>,
    members: &[Flat],
    number: u32,
) -> Result<Vec<Node>, LineFault>
    ensures shorter { length reading.new.reader ≤ length reading.old.reader }
    ensures read { (ms : Members) (rest : List SpecToken) → reading.old.reader ≡ members_tokens ms ++ rest
        → MatchResult result
        (λ ns. IsRead nodes_in reading.old.left (items_by (list_of members.now) ms)
        (items_in ns.items) reading.new.left × (reading.new.reader ≡ rest))
        (λ f. Refuses nodes_in reading.old.left (items_by (list_of members.now) ms) f) }
{
    match reading.take_nodes(members.len(), number) {
        Ok(()) => {}
        Err(fault) => return Err(fault),
    }
    let mut slots: Vec<Option<Node>> = Vec::with_capacity(reading.alloc, members.len())?;
    for _ in 0..members.len() {
        match slots.push(None) {
            Ok(()) => {}
            Err(refused) => return Err(AllocError::from(refused).into()),
        }
    }
    let mut front = 0;
    loop {
        let name = match reading.reader.next_key() {
            Ok(Some(name)) => name,
            Ok(None) => break,
            Err(_) => return Err(reading.fault(LineCause::Json, number)),
        };
        match place_of(members, &slots, front, name) {
            None => return Err(reading.fault(LineCause::Member, number)),
            Some(place) => {
                let node = match read_node(reading, &members[place]) {
                    Ok(node) => node,
                    Err(fault) => return Err(fault),
                };
                put_node(&mut slots, place, node);
                front = filled_in_front(&slots, front);
            }
        }
    }
    finish(reading, members, &mut slots)
}
