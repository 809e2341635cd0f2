//! Tails: FAST 1.1, Field Operators, Tail Operator.

ghost use Rattle.std.specs.Prelude.{◌≡◌, ◌≤◌, length, drop, None, IfOk};
ghost use Rattle.fast_wire.specs.declared.level.Level.TheVariants.{Usual};
ghost use Rattle.fast_dictionary.specs.Dictionary.{entry_of};
ghost use Rattle.fast_wire.specs.Reading.{Gives, GivesAt};
ghost use Rattle.fast_field.specs.Calls.{OrRefused};
ghost use Rattle.fast_field.specs.Bases.{tail_base};
ghost use Rattle.fast_field.specs.Chosen.{CanBeUnits, IsBestTail, IsTail, OnBase};
ghost use Rattle.fast_field.specs.FieldReading.{ended_value, tail_at};
ghost use Rattle.fast_field.specs.Refusals.{tail_refusal};
ghost use Rattle.fast_field.specs.Sent.{IsSent, units_sent};
ghost use Rattle.fast_field.specs.Values.{units_of};

use crate::base::{base_of_tail, base_units, units};
use crate::cut::common_prefix;
use crate::fault::FieldFault;
use crate::pieces::Pieces;
use crate::string::{find_units, sent_behind};
use crate::whole::size_units;
use fast_dictionary::{EntryRef, Spare};
use fast_template::{FieldPart, Kind, Presence, Scalar};
use fast_wire::{Level, Nullable};

/// The base, the tail that was sent in place of its end.
#[tactic(auto, using(crate::proofs::CallSteps::call_steps), unfolding(crate::specs::FieldReading::ended_value))]
fn ended(
    spare: &mut Spare,
    instr: &FieldPart,
    kept: EntryRef,
    tail: &[u8],
) -> Result<Scalar, FieldFault>
    requires { IsSent instr.now.kind tail.now }
    ensures { Gives OrRefused (λ v. v)
        result (ended_value instr.now (entry_of kept.entry)
        (units_sent instr.now.kind tail.now)) }
{
    let base = base_units(base_of_tail(instr, kept)?);
    let left = base.len().saturating_sub(tail.len());
    sent_behind(spare, instr.kind, &base[..left], tail)
}

/// Reads a tail that begins at `at`, and answers the value that it makes, none where it is NULL, and the place after it.
/// Memory only for the value.
#[tactic(auto, using(crate::proofs::CallSteps::call_steps), unfolding(crate::specs::FieldReading::tail_at))]
pub(crate) fn read_tail(
    spare: &mut Spare,
    instr: &FieldPart,
    kept: EntryRef,
    level: Level,
    bytes: &[u8],
    at: usize,
) -> Result<(Option<Scalar>, usize), FieldFault>
    requires { at ≤ length bytes.now }
    ensures place { IfOk result (λ x. (at ≤ x.1) × (x.1 ≤ length bytes.now)) }
    ensures gives { GivesAt OrRefused (tail_at level instr.now (entry_of kept.entry))
        (λ v. v) bytes.now at result }
{
    let (tail, next) = find_units(instr.kind, instr.presence, level, bytes, at)?;
    match tail {
        Nullable::Null => Ok((None, next)),
        Nullable::Value(span) => {
            let tail = &bytes[span.start..span.end];
            Ok((Some(ended(spare, instr, kept, tail)?), next))
        }
    }
}

/// The best tail of a value that is no shorter than its base: the fewest bytes; of these, the shortest. That is
/// what stands behind the longest common front, or one unit more: a nullable ASCII string that is empty or begins
/// with NUL needs a preamble.
fn best_tail<'a>(kind: Kind, presence: Presence, base: &[u8], value: &'a [u8]) -> &'a [u8]
    requires value { CanBeUnits kind value.now }
    requires long { length base.now ≤ length value.now }
    ensures { IsBestTail kind presence base.now value.now result.now }
{
    if value.len() > base.len() {
        return value;
    }
    let prefix = common_prefix(base, value);
    let shortest = &value[prefix..];
    if prefix == 0 {
        return shortest;
    }
    let longer = &value[prefix - 1..];
    let longer_size = size_units(kind, presence, longer);
    let shortest_size = size_units(kind, presence, shortest);
    if longer_size < shortest_size {
        longer
    } else {
        shortest
    }
}

/// What makes a value of the base of a tail, in the fewest bytes.
#[tactic(auto, using(crate::proofs::BaseSteps::base_steps))]
pub(crate) fn tail_of<'a>(instr: &FieldPart, kept: EntryRef, value: &'a Scalar) -> Pieces<'a>
    requires judged { tail_refusal (tail_base instr.now (entry_of kept)) value.now ≡ None }
    requires value { CanBeUnits instr.now.kind (units_of value.now) }
    ensures { OnBase (tail_base instr.now (entry_of kept.entry))
        (λ base. IsTail instr.now.kind instr.now.presence base value.now result) }
{
    let Ok(base) = base_of_tail(instr, kept) else {
        unreachable!()
    };
    Pieces::Tail(best_tail(instr.kind, instr.presence, base_units(base), units(value)))
}
