//! What C keeps between calls, and the handle that it keeps it by.
#![tactic(auto)]

mod handle;
mod kept;
mod lease;
mod lent;
mod loan;
mod parts;
mod shared;

pub use handle::Handle;
pub use kept::{Kept, set_in};
pub use lent::{Lent, Wanted};
pub use loan::Loan;
pub use shared::SharedSet;
