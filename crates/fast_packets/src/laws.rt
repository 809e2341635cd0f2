//! Laws of recordings, each the contract of a function that does nothing. They speak of the definitions alone, and stand
//! on the laws of streams.

ghost use Rattle.std.specs.Prelude.{◌≡◌, ◌≢◌, ◌⊎◌, ◌↔◌, ◌++◌, ℕ, Bool, List, map};
ghost use Rattle.fast_wire.specs.declared.level.Level.{Level};
ghost use Rattle.fast_wire.specs.Reader.{IsBytes};
ghost use Rattle.fast_template.specs.Resolved.{Resolved};
ghost use Rattle.fast_template.specs.TemplateSets.{IsSound, TemplateList, templates_in};
ghost use Rattle.fast_stream.specs.declared.fault.Cause.TheVariants.{Truncated};
ghost use Rattle.fast_stream.specs.declared.fault.Fault.{Fault};
ghost use Rattle.fast_stream.specs.Nodes.{Content};
ghost use Rattle.fast_packets.specs.Outcomes.{FirstRefusal, Outcome, Outcomes, accepted};
ghost use Rattle.fast_packets.specs.Recordings.{CarriesPackets};

/// A recording carries at most one list of packets.
pub fn one_reading()
    ensures { (level : Level) (set : TemplateList) (bytes : List ℕ) (packets others : List (List Content)) → IsSound set
        → CarriesPackets level (templates_in set) bytes packets → CarriesPackets level (templates_in set) bytes others
        → packets ≡ others }
{}

/// Recordings one behind the other carry the packets of both.
pub fn recordings_join()
    ensures carried { (level : Level) (set : List Resolved) (a b : List ℕ) (packets others : List (List Content))
        → CarriesPackets level set a packets → CarriesPackets level set b others
        → CarriesPackets level set (a ++ b) (packets ++ others) }
{}

/// A recording carries packets or has a first refusal, never both, and one first refusal only.
pub fn carried_or_refused()
    ensures one_of_the_two { (level : Level) (set : TemplateList) (bytes : List ℕ) → IsSound set → IsBytes bytes
        → ((packets : List (List Content)) × CarriesPackets level (templates_in set) bytes packets)
        ⊎ ((number : ℕ) × (fault : Fault) × FirstRefusal level (templates_in set) bytes number fault) }
    ensures not_both { (level : Level) (set : TemplateList) (bytes : List ℕ) (packets : List (List Content)) (number : ℕ)
        (fault : Fault) → IsSound set
        → CarriesPackets level (templates_in set) bytes packets
        → FirstRefusal level (templates_in set) bytes number fault → ⊥ }
    ensures one_refusal { (level : Level) (set : TemplateList) (bytes : List ℕ) (number other : ℕ)
        (fault second : Fault) → IsSound set → FirstRefusal level (templates_in set) bytes number fault
        → FirstRefusal level (templates_in set) bytes other second → (number ≡ other) × (fault ≡ second) }
{}

/// A refusal stays, whatever follows: where bytes are refused for another cause than want of bytes, so are those that they
/// begin.
pub fn refusals_stay()
    ensures { (level : Level) (set : TemplateList) (bytes more : List ℕ) (number : ℕ) (fault : Fault) → IsSound set
        → IsBytes (bytes ++ more) → fault.cause ≢ Truncated
        → FirstRefusal level (templates_in set) bytes number fault
        → FirstRefusal level (templates_in set) (bytes ++ more) number fault }
{}

/// Each recording has one list of outcomes, one for each packet or up to the first refusal, and no other. They are all
/// accepted exactly where it carries their messages.
pub fn outcomes_are_one()
    ensures some { (goes_on : Bool) (level : Level) (set : TemplateList) (at : ℕ) (bytes : List ℕ) → IsSound set
        → IsBytes bytes → (outcomes : List Outcome) × Outcomes goes_on level (templates_in set) at bytes outcomes }
    ensures one { (goes_on : Bool) (level : Level) (set : TemplateList) (at : ℕ) (bytes : List ℕ)
        (outcomes others : List Outcome) → IsSound set
        → Outcomes goes_on level (templates_in set) at bytes outcomes
        → Outcomes goes_on level (templates_in set) at bytes others → outcomes ≡ others }
    ensures accepted { (goes_on : Bool) (level : Level) (set : List Resolved) (at : ℕ) (bytes : List ℕ)
        (packets : List (List Content))
        → CarriesPackets level set bytes packets ↔ Outcomes goes_on level set at bytes (map accepted packets) }
{}
