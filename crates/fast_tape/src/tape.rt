//! Tapes.

ghost use Rattle.std.specs.Prelude.{◌≡◌, ◌≤◌, ◌↔◌, ◌++◌, [], ◌∷◌, IsTrue, drop, length, map, take, vec_len, OnOk, OnErr};
ghost use Rattle.fast_tape.specs.Moved.{moved};

use crate::node::TapeNode;
use std::alloc::{AllocError, Global};

/// Nodes, and the bytes of the strings in them.
#[derive(Drop)]
pub struct Tape {
    pub nodes: Vec<TapeNode>,
    pub bytes: Vec<u8>,
}

// Puts nodes behind others, each moved behind so many bytes.
fn push_moved(nodes: &mut Vec<TapeNode>, others: &[TapeNode], by: u64) -> Result<(), AllocError>
    ensures moved { OnOk result (nodes.new.items ≡ nodes.old.items ++ map (moved by) others.now) }
    ensures front { take (vec_len nodes.old) nodes.new.items ≡ nodes.old.items }
{
    for node in others {
        match node.moved(by) {
            None => return Err(AllocError),
            Some(node) => nodes.push(node)?,
        }
    }
    Ok(())
}

impl Tape {
    /// With no node. Takes no memory.
    pub fn new(alloc: Global) -> Tape
        ensures nodes { result.nodes.items ≡ [] }
        ensures bytes { result.bytes.items ≡ [] }
    {
        Tape {
            nodes: Vec::new(alloc),
            bytes: Vec::new(alloc),
        }
    }

    /// Forgets all nodes and bytes, and keeps their memory.
    #[inline(always)]
    pub fn clear(&mut self)
        ensures nodes { self.new.nodes.items ≡ [] }
        ensures bytes { self.new.bytes.items ≡ [] }
    {
        self.nodes.clear();
        self.bytes.clear();
    }

    /// Puts the nodes and bytes of another behind these.
    ///
    /// # Errors
    ///
    /// Where memory is refused: the nodes and bytes are then the same.
    pub fn append(&mut self, other: &Tape) -> Result<(), AllocError>
        ensures nodes { OnOk result (self.new.nodes.items
            ≡ self.old.nodes.items ++ map (moved (length self.old.bytes.items)) other.now.nodes.items) }
        ensures bytes { OnOk result (self.new.bytes.items ≡ self.old.bytes.items ++ other.now.bytes.items) }
        ensures same_nodes { OnErr result (self.new.nodes.items ≡ self.old.nodes.items) }
        ensures same_bytes { OnErr result (self.new.bytes.items ≡ self.old.bytes.items) }
    {
        let nodes = self.nodes.len();
        let bytes = self.bytes.len();
        self.bytes.extend_from_slice(&other.bytes)?;
        match push_moved(&mut self.nodes, &other.nodes, bytes as u64) {
            Ok(()) => Ok(()),
            Err(AllocError) => {
                self.nodes.truncate(nodes);
                self.bytes.truncate(bytes);
                Err(AllocError)
            }
        }
    }

    /// Whether rooms of so many nodes and so many bytes are enough.
    pub fn fits(&self, nodes: usize, bytes: usize) -> bool
        ensures { IsTrue result ↔ ((length self.now.nodes.items ≤ nodes) × (length self.now.bytes.items ≤ bytes)) }
    {
        self.nodes.len() <= nodes && self.bytes.len() <= bytes
    }

    /// Puts the nodes and the bytes into the front of these rooms, which are long enough.
    pub fn copy_to(&self, nodes: &mut [TapeNode], bytes: &mut [u8])
        requires nodes { length self.now.nodes.items ≤ length nodes.now }
        requires bytes { length self.now.bytes.items ≤ length bytes.now }
        ensures nodes { nodes.new ≡ self.now.nodes.items ++ drop (length self.now.nodes.items) nodes.old }
        ensures bytes { bytes.new ≡ self.now.bytes.items ++ drop (length self.now.bytes.items) bytes.old }
    {
        nodes[..self.nodes.len()].copy_from_slice(&self.nodes);
        bytes[..self.bytes.len()].copy_from_slice(&self.bytes);
    }
}
