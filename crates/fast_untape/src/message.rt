//! The message that nodes begin with.

ghost use Rattle.std.specs.Prelude.{◌≡◌, ◌∷◌, [], IfErr, IfOk, MatchResult};
ghost use Rattle.fast_template.specs.Resolved.{list_of};
ghost use Rattle.fast_template.specs.TemplateSets.{templates_in};
ghost use Rattle.fast_stream.specs.Nodes.{content_of};
ghost use Rattle.fast_nodes.specs.FirstRefusal.{refused as refused_as};
ghost use Rattle.fast_nodes.specs.declared.fault.EncodeCause.{EncodeCause as CauseOf};
ghost use Rattle.fast_untape.specs.Reading.{BeginWith, IsNotPut, early_of};

use crate::fault::PutFault;
use crate::header::own_nodes;
use crate::read::items_in;
use fast_nodes::{EncodeCause, EncodeFault};
use fast_stream::Message;
use fast_tape::{MESSAGE, TapeNode};
use fast_template::TemplateSet;
use std::alloc::Global;

/// A refusal that names no instruction.
#[inline(always)]
fn refused(cause: EncodeCause) -> PutFault
    ensures { result ≡ PutFault.Refused (refused_as cause) }
{
    PutFault::Refused(EncodeFault {
        cause,
        instruction: 0,
    })
}

/// The message that nodes begin with, by its template, and how many of them it has.
///
/// # Errors
///
/// NoMessage: they do not begin with a message. Refused: `D9` where no template has its identifier, `Mismatch` where it is not
/// of its template's shape, `Memory`.
pub(crate) fn message_at(
    alloc: Global,
    set: &TemplateSet,
    nodes: &[TapeNode],
    bytes: &[u8],
) -> Result<(Message, usize), PutFault>
    ensures { MatchResult result
        (λ x. BeginWith bytes.now nodes.now x.1 (content_of x.0 ∷ []))
        (IsNotPut (early_of (templates_in set.now)) bytes.now nodes.now) }
{
    let Some((first, behind)) = nodes.split_first() else {
        return Err(PutFault::NoMessage);
    };
    if first.number != 0 {
        return Err(PutFault::NoMessage);
    }
    let Some(own) = own_nodes(MESSAGE, first, behind) else {
        return Err(PutFault::NoMessage);
    };
    let Some(template) = set.find(first.instruction) else {
        return Err(refused(EncodeCause::D9));
    };
    match items_in(alloc, &template.members, own, bytes) {
        Err(_) => Err(refused(EncodeCause::Memory)),
        Ok(None) => Err(refused(EncodeCause::Mismatch)),
        Ok(Some(fields)) => Ok((
            Message {
                template: first.instruction,
                fields,
            },
            own.len() + 1,
        )),
    }
}
