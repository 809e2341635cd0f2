//! What is judged of a message before its fields are written.

ghost use Rattle.std.specs.Prelude.{◌≡◌, MatchResult, Some};
ghost use Rattle.fast_template.specs.Resolved.{list_of};
ghost use Rattle.fast_template.specs.TemplateSets.{IsSound, templates_in};
ghost use Rattle.fast_field.specs.Calls.{Judges};
ghost use Rattle.fast_stream.specs.Nodes.{content_of, items_in};
ghost use Rattle.fast_stream.specs.Streams.{members_of};
ghost use Rattle.fast_nodes.specs.FirstRefusal.{IsJudged, early_refusal, whole_refusal};

use crate::fault::{EncodeCause, EncodeFault};
use crate::put::refuse;
use crate::shape::all_fit;
use crate::size::left_behind_all;
use fast_stream::{Message, Node};
use fast_template::{Flat, FlatTemplate, TemplateSet};

/// The most nodes of a message.
const NODE_LIMIT: usize = 65_536;

// Whether nodes are of the shape of their instructions, and not too large.
fn judge_whole(members: &[Flat], nodes: &[Node]) -> Result<(), EncodeFault>
    ensures { Judges (whole_refusal (list_of members.now) (items_in nodes.now)) result }
{
    if !all_fit(members, nodes) {
        return Err(refuse(EncodeCause::Mismatch));
    }
    match left_behind_all(nodes, NODE_LIMIT) {
        None => Err(refuse(EncodeCause::Limit)),
        Some(_) => Ok(()),
    }
}

/// The template of a message that is of its shape, and not too large.
///
/// # Errors
///
/// `D9`, `Mismatch` or `Limit`, the first refusal of the message, whatever the entries are.
#[tactic(auto, using(fast_walk::proofs::Serving::found_members))]
pub fn template_for<'a>(
    set: &'a TemplateSet,
    message: &Message,
) -> Result<&'a FlatTemplate, EncodeFault>
    ensures sound { IsSound set.now }
    ensures judged { MatchResult result
        (λ t. IsJudged (templates_in set.now) (content_of message.now) (list_of t.now.members.items))
        (λ f. early_refusal (members_of (templates_in set.now) message.now.template)
        (content_of message.now).items ≡ Some f) }
{
    match set.find(message.template) {
        None => Err(refuse(EncodeCause::D9)),
        Some(template) => {
            judge_whole(&template.members, &message.fields)?;
            Ok(template)
        }
    }
}
