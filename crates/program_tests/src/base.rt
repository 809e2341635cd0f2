//! What most tests here need.

pub(crate) use crate::same::same_of;
pub(crate) use crate::serving::devices::{After, STREAM, TEMPLATES};
pub(crate) use crate::serving::programs::{CASE, Case, Row, Templates, over, rows_are_served};
pub(crate) use std::alloc::Global;
pub(crate) use std::process::Abort;
pub(crate) use test_rows::{Tried, list, rows};
