//! The tests of fast_decoder, fast_encoder and fast_writer.
#![tactic(auto)]

#[cfg(test)]
mod base;
#[cfg(test)]
mod decoding;
#[cfg(test)]
mod encoding;
#[cfg(test)]
mod granted;
#[cfg(test)]
mod same;
#[cfg(test)]
mod slots;
#[cfg(test)]
mod worked;
