//! What most tests here need.

pub(crate) use crate::building::members_of;
pub(crate) use crate::loads::{Wanted, loaded};
pub(crate) use crate::same::same;
pub(crate) use fast_build::{Load, LoadCause};
pub(crate) use fast_template::{FieldPart, Flat, Kind, Operator, Presence, Scalar, TemplateSet};
pub(crate) use std::alloc::Global;
pub(crate) use std::process::Abort;
pub(crate) use test_rows::{Tried, rows};
