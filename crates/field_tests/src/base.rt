//! What most tests here need.

pub(crate) use crate::same::same;
pub(crate) use std::alloc::{AllocError, Global};
pub(crate) use std::process::Abort;
pub(crate) use test_rows::{Tried, rows};
