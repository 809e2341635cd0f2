//! What most tests here need.

pub(crate) use crate::decoding::steps::Step::Feed;
pub(crate) use crate::decoding::steps::{Want, follow};
pub(crate) use crate::decoding::streams::agrees;
pub(crate) use crate::granted::granted;
pub(crate) use crate::same::same;
pub(crate) use crate::slots::slots_of;
pub(crate) use crate::worked::{loaded, worked};
pub(crate) use fast_dictionary::{Entries, MapEntries};
pub(crate) use fast_stream::Cause::{
    BlockEnd, D2, D4, D5, D6, D7, D9, D12, Limit, R1, R2, R6, R7, R8, R9, Read, Truncated, Turns,
};
pub(crate) use fast_stream::{Fault, Message, Node};
pub(crate) use fast_template::Scalar;
pub(crate) use std::alloc::{AllocError, Global};
pub(crate) use std::process::Abort;
pub(crate) use stream_rows::ends::End;
pub(crate) use stream_rows::ends::End::{At, Whole};
pub(crate) use stream_rows::modes::PLAIN;
pub(crate) use stream_rows::quotes::quote;
pub(crate) use template_tests::loaded::Loaded;
pub(crate) use test_rows::{Tried, list, rows};
