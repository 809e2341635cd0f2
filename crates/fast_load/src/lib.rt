//! Template sets from templates as they are written.
//!
//! The definitions stand in `specs/`: how a written template becomes a resolved one (`FlatLists`), which check of a load
//! fails first (`LoadChecks`) and what loading a text answers (`JsonLoads`). Written templates stand in `fast_written`,
//! the sets in `fast_template`, and the calls that users make in `fast_build`.
#![tactic(auto)]

mod build;
mod checks;
mod duplicates;
mod extents;
mod flat_lists;
mod id_places;
mod in_order;
mod initials;
mod links;
mod load;
mod names;
mod numbers;
mod operators;
mod references;
mod settle;
mod slots;
mod surroundings;
mod take_apart;
mod walk;

pub use load::load_written;
