//! Laws of tapes, each the contract of a function that does nothing. They speak of the definitions alone.

ghost use Rattle.std.specs.Prelude.{◌≡◌, ◌+◌, ◌++◌, [], ◌∷◌, ℕ, List, length, map};
ghost use Rattle.fast_stream.specs.Nodes.{Content, nodes_in};
ghost use Rattle.fast_tape.specs.Tapes.{IsTape};
ghost use Rattle.fast_tape.specs.Moved.{moved};
ghost use Rattle.fast_tape.specs.declared.node.TapeNode.{TapeNode};

/// A tape is of one list of messages at most, whatever the templates are.
pub fn one_content()
    ensures { (bytes : List ℕ) (messages others : List Content) (nodes : List TapeNode)
        → IsTape bytes messages nodes → IsTape bytes others nodes → messages ≡ others }
{}

/// The tape of a message has one node more than the message has.
pub fn as_many_nodes()
    ensures { (bytes : List ℕ) (message : Content) (nodes : List TapeNode)
        → IsTape bytes (message ∷ []) nodes → length nodes ≡ 1 + nodes_in message.items }
{}

/// A tape stays one of the same messages when bytes are appended.
pub fn more_bytes()
    ensures { (bytes more : List ℕ) (messages : List Content) (nodes : List TapeNode)
        → IsTape bytes messages nodes → IsTape (bytes ++ more) messages nodes }
{}

/// Two tapes are one, once the strings of the second are looked for behind the bytes of the first.
pub fn tapes_join()
    ensures { (bytes more : List ℕ) (messages others : List Content) (nodes behind : List TapeNode)
        → IsTape bytes messages nodes → IsTape more others behind
        → IsTape (bytes ++ more) (messages ++ others) (nodes ++ map (moved (length bytes)) behind) }
{}
