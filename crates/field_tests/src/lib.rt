//! The tests of fast_dictionary, fast_field and fast_take.
#![tactic(auto)]

#[cfg(test)]
mod base;
#[cfg(test)]
mod entries;
#[cfg(test)]
mod fields;
#[cfg(test)]
mod general;
#[cfg(test)]
mod judged;
#[cfg(test)]
mod passed;
#[cfg(test)]
mod reading;
#[cfg(test)]
mod relaying;
#[cfg(test)]
mod same;
#[cfg(test)]
mod taken;
#[cfg(test)]
mod takes;
#[cfg(test)]
mod ways;
#[cfg(test)]
mod writing;
