//! What most tests here need.

pub(crate) use crate::given::{Given, in_mode, plainly};
pub(crate) use crate::granted::Answer;
pub(crate) use crate::same::same;
pub(crate) use crate::streams::{At, counted, made_of, makes};
pub(crate) use crate::strict::told;
pub(crate) use crate::worked::{loaded, worked};
pub(crate) use fast_canon::CanonFault;
pub(crate) use fast_command::{Command, Form};
pub(crate) use fast_decoder::Mode;
pub(crate) use fast_io::{Counted, ScriptOutput};
pub(crate) use fast_stream::Cause;
pub(crate) use std::alloc::{AllocError, Global};
pub(crate) use std::process::Abort;
pub(crate) use std::test::Fail;
pub(crate) use stream_rows::long::{MANY, stream_of};
pub(crate) use stream_rows::modes::{InMode, PLAIN};
pub(crate) use stream_rows::quotes::{QUOTE, TWO_SHORT};
pub(crate) use template_tests::loaded::Loaded;
pub(crate) use template_tests::texts::WORKED;
pub(crate) use test_rows::{Tried, rows};
