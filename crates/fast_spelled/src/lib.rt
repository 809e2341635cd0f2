//! Messages of lines: what a line of JSON stands for.
//!
//! [`message_of`] reads one line, as `show --json` writes it or as a person does, for a message of a template set;
//! [`numbered_message_of`] one that says its packet besides, as `show --packets --json` writes it.
#![tactic(auto)]

mod fault;
mod head;
mod line;
mod members;
mod names;
mod number;
mod pieces;
mod shown;
mod value;

ghost use Rattle.std.specs.Prelude.{◌≡◌, ℕ, List, Some, IsUtf8};
ghost use Rattle.fast_template.specs.TemplateSets.{IsSound, TemplateList};
ghost use Rattle.fast_stream.specs.Nodes.{Content};
ghost use Rattle.fast_lines.specs.declared.form.Form.TheVariants.{Json};
ghost use Rattle.fast_lines.specs.Lines.{line_in};
ghost use Rattle.fast_spelled.specs.Spelled.{Spells};
ghost use Rattle.fast_spelled.specs.Within.{IsWithin};

pub use fault::{LineCause, LineFault};
pub use json::Scratch;
pub use line::{message_of, numbered_message_of};
pub use names::names_are_text;

/// The line that `show --json` writes of a message stands for that message.
pub fn lines_spell_their_messages()
    ensures { (set : TemplateList) (m : Content) (line : List ℕ) → IsSound set
        → IsWithin m → IsUtf8 line → line_in Json set m ≡ Some line → Spells set line m }
{}

ghost use Rattle.json.specs.Json.{Members};
ghost use Rattle.fast_template.specs.Resolved.{Instructions};
ghost use Rattle.fast_spelled.specs.Slots.{empty_slots, filled};
ghost use Rattle.fast_spelled.specs.Spelled.{items_by};

/// Members that are put one after the other to the first free instruction of their name stand for what the instructions
/// take in their order.
pub fn members_in_any_order()
    ensures { (is : Instructions) (ms : Members) → filled is (empty_slots is) ms ≡ items_by is ms }
{}

ghost use Rattle.std.specs.List.{AllByRecursion};
ghost use Rattle.fast_lines.specs.Lines.{lines_in};
ghost use Rattle.fast_spelled.specs.Laws.{HasTextLines};
ghost use Rattle.fast_spelled.specs.Spelled.{Spell, lines_of};

/// The lines that `show --json` writes of messages stand for these messages, one for each line, and for no others.
pub fn lines_spell_messages()
    ensures spelled { (set : TemplateList) (ms : List Content) (text : List ℕ) → IsSound set
        → HasTextLines set → AllByRecursion IsWithin ms → lines_in Json set ms ≡ Some text
        → Spell set (lines_of text) ms }
    ensures once { (set : TemplateList) (lines : List (List ℕ)) (ms ns : List Content)
        → Spell set lines ms → Spell set lines ns → ms ≡ ns }
{}

ghost use Rattle.fast_spelled.specs.Laws.{HasTextNames};

/// The lines of a set whose names are UTF-8 are UTF-8.
pub fn lines_are_text()
    ensures { (set : TemplateList) → HasTextNames set → HasTextLines set }
{}

ghost use Rattle.std.specs.Prelude.{◌<◌, ◌^◌};
ghost use Rattle.fast_packets.specs.Numbered.{numbered};
ghost use Rattle.fast_spelled.specs.Numbered.{SpellsIn};

/// The line that `show --packets --json` writes of a message in a packet stands for that message in that packet, and for
/// no other.
pub fn numbered_lines_spell_their_messages()
    ensures spelled { (set : TemplateList) (n : ℕ) (m : Content) (line : List ℕ) → IsSound set
        → IsWithin m → IsUtf8 line → line_in Json set m ≡ Some line → 0 < n → n < 2 ^ 64
        → SpellsIn set (numbered n line) n m }
    ensures once { (set : TemplateList) (line : List ℕ) (n k : ℕ) (m l : Content)
        → SpellsIn set line n m → SpellsIn set line k l → (n ≡ k) × (m ≡ l) }
{}

ghost use Rattle.std.specs.Prelude.{◌++◌, map};
ghost use Rattle.fast_spelled.specs.Numbered.{SpellIn};

/// The lines that `show --packets --json` writes of the messages of a packet stand for these messages in that packet, in
/// front of whatever other lines stand for, and for no others.
pub fn numbered_lines_spell_messages()
    ensures spelled { (set : TemplateList) (n : ℕ) (ms : List Content) (text later : List ℕ)
        (others : List (ℕ × Content)) → IsSound set → HasTextLines set
        → AllByRecursion IsWithin ms → 0 < n → n < 2 ^ 64 → lines_in Json set ms ≡ Some text
        → SpellIn set (lines_of later) others
        → SpellIn set (lines_of (numbered n text ++ later)) (map (λ m. (n, m)) ms ++ others) }
    ensures once { (set : TemplateList) (lines : List (List ℕ)) (ms ns : List (ℕ × Content))
        → SpellIn set lines ms → SpellIn set lines ns → ms ≡ ns }
{}
