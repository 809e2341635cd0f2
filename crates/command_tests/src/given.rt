//! How a stream is given to a command.

use crate::base::*;
use fast_io::ScriptInput;

/// A command, the form of its lines, a stream in a mode, how much of it one read gives, which read fails, and how many
/// reads there may be.
#[derive(Clone, Copy)]
pub(crate) struct Given<'a> {
    pub(crate) command: Command,
    pub(crate) form: Form,
    pub(crate) mode: Mode,
    pub(crate) stream: &'a [u8],
    step: usize,
    failing: u64,
    pub(crate) turns: u64,
}

/// A stream that is shown in steps of one size, at least of a byte.
pub(crate) fn in_mode(mode: Mode, stream: &[u8], step: usize) -> Given<'_> {
    Given {
        command: Command::Show,
        form: Form::Text,
        mode,
        stream,
        step: step.max(1),
        failing: 0,
        turns: 100_000,
    }
}

/// The same of a plain stream.
pub(crate) fn plainly(stream: &[u8], step: usize) -> Given<'_> {
    in_mode(PLAIN, stream, step)
}

/// The same of a stream as a mode has it.
pub(crate) fn moded(stream: &InMode, step: usize) -> Given<'_> {
    in_mode(stream.mode, &stream.stream, step)
}

impl<'a> Given<'a> {
    pub(crate) fn to(self, command: Command) -> Given<'a> {
        Given { command, ..self }
    }

    /// Where the read with this number fails.
    pub(crate) fn failing(self, failing: u64) -> Given<'a> {
        Given { failing, ..self }
    }

    pub(crate) fn turns(self, turns: u64) -> Given<'a> {
        Given { turns, ..self }
    }

    pub(crate) fn reader(self) -> ScriptInput<'a> {
        ScriptInput::new(self.stream, self.step.max(1), self.failing)
    }
}
