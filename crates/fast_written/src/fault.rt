//! Why templates are refused.

ghost use Rattle.std.specs.Prelude.{◌≡◌};
ghost use Rattle.fast_written.specs.CauseNames.{name_of};
ghost use Rattle.fast_written.specs.LoadFaults.{want_of_memory as want_of_memory_of};

use std::{error, fmt};
use thiserror::Error;

/// Which check of a load failed.
#[derive(Clone, Copy, Debug, PartialEq, Eq)]
pub enum LoadCause {
    /// The text is not of the JSON profile, or a name is not one.
    S1,
    /// The operator does not apply to the type.
    S2,
    /// The initial value cannot be converted to the type.
    S3,
    /// A constant without an initial value.
    S4,
    /// A mandatory default without an initial value.
    S5,
    /// A reference names no template.
    D8,
    /// An earlier template has the name.
    DuplicateName,
    /// An earlier template has the identifier.
    DuplicateId,
    /// References lead from a template back to itself.
    Cycle,
    /// Groups and sequences nest in more than 8 levels.
    TooDeep,
    /// More than 65,535 templates, or instructions after references are replaced.
    TooMany,
    /// Memory was refused.
    Memory,
}

impl LoadCause {
    /// The cause as a word.
    pub fn name(self) -> &'static str
        ensures { result.now ≡ name_of self }
    {
        match self {
            LoadCause::S1 => "S1",
            LoadCause::S2 => "S2",
            LoadCause::S3 => "S3",
            LoadCause::S4 => "S4",
            LoadCause::S5 => "S5",
            LoadCause::D8 => "D8",
            LoadCause::DuplicateName => "DuplicateName",
            LoadCause::DuplicateId => "DuplicateId",
            LoadCause::Cycle => "Cycle",
            LoadCause::TooDeep => "TooDeep",
            LoadCause::TooMany => "TooMany",
            LoadCause::Memory => "Memory",
        }
    }
}

impl fmt::Display for LoadCause {
    fn fmt<W: fmt::Write>(&self, f: &mut fmt::Formatter<W>) -> fmt::Result {
        f.write_str(self.name())
    }
}

impl error::Error for LoadCause {}

/// The first check of a load that failed, and where.
#[derive(Clone, Copy, Debug, PartialEq, Eq, Error)]
#[error("{cause} template={template} instruction={instruction}")]
pub struct LoadFault {
    pub cause: LoadCause,
    /// The template's place in the list, from 1; 0 for the text as a whole.
    pub template: u32,
    /// The number of the instruction as written, from 1, depth first; 0 for the template itself.
    pub instruction: u32,
}

/// The fault of a load whose memory was refused.
pub fn want_of_memory() -> LoadFault
    ensures { result ≡ want_of_memory_of }
{
    fault_at(LoadCause::Memory, 0, 0)
}

/// A fault and its place.
pub fn fault_at(cause: LoadCause, template: u32, instruction: u32) -> LoadFault
    ensures { result ≡ record { cause = cause; template = template; instruction = instruction } }
{
    LoadFault {
        cause,
        template,
        instruction,
    }
}
