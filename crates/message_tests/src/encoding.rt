//! Messages that are encoded, and streams that are read and written at once.

mod extremes;
mod messages;
mod relaying;
mod ways;
