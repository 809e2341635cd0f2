//! The tests of fast_template and fast_load, and template texts and generated fields for the tests above.
#![tactic(auto)]

#[cfg(test)]
mod base;
#[cfg(test)]
mod building;
pub mod generated;
pub mod growths;
#[cfg(test)]
mod json;
#[cfg(test)]
mod large;
pub mod loaded;
#[cfg(test)]
mod loads;
#[cfg(test)]
mod same;
pub mod texts;
#[cfg(test)]
mod values;
#[cfg(test)]
mod worked;
