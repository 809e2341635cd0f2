//! Recordings of packets on their way through an output.
//!
//! [`show_packets`], [`check_packets`] and [`canonicalise_packets`] read a recording to its end; `specs/Calls` says what is
//! answered, `specs/Recorded` what is written and told. [`take_packet`] reads one packet by a machine that stays from packet to
//! packet, and writes what a [`PacketOutput`] makes of it (`specs/Packets`). [`read_packet_size`] reads the size before it.
#![tactic(auto)]

mod begin;
mod calls;
mod entries;
mod fault;
mod halt;
mod handing;
mod mode;
mod nowhere;
mod output;
mod packet;
mod packet_lines;
mod relay;
mod settle;
mod size;
mod summary;
mod told;
mod touched;

pub use calls::{canonicalise_packets, check_packets, show_packets};
pub use entries::PacketEntries;
pub use fault::{PacketFault, RecordingFault};
pub use mode::PacketMode;
pub use output::PacketOutput;
pub use packet::{Taken, take_packet};
pub use packet_lines::PacketLines;
pub use size::read_packet_size;
pub use summary::RecordingSummary;
pub use told::push_refused_line;
