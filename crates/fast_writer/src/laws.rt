//! A law of canonical bytes, the contract of a function that does nothing.

ghost use Rattle.std.specs.Prelude.{ℕ, List};
ghost use Rattle.fast_wire.specs.declared.level.Level.{Level};
ghost use Rattle.fast_template.specs.Resolved.{Resolved};
ghost use Rattle.fast_stream.specs.Nodes.{Content};
ghost use Rattle.fast_stream.specs.Streams.{Carries};
ghost use Rattle.fast_writer.specs.Canonical.{IsCanonical};

/// Canonical bytes carry their messages, at each level.
pub fn canonical_bytes_carry()
    ensures { (level : Level) (set : List Resolved) (messages : List Content) (bytes : List ℕ)
        → IsCanonical set messages bytes → Carries level set bytes messages }
{}
