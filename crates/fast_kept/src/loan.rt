//! What borrows a template set, as contracts see it.

ghost use Rattle.fast_kept.specs.Leasing.{IsLent};
ghost use Rattle.fast_kept.specs.Returning.{ReturnsAtRooms};
ghost use Rattle.std.specs.Prelude.{IfOk};

use crate::lease::Lease;
use crate::lent::{Lent, Wanted};
use crate::shared::SharedSet;
use fast_tape::TapeNode;
use std::alloc::{AllocError, Global};
use std::marker::Model;

/// What borrows a template set, and a share of the set, which is freed with the last of them. A contract sees what borrows it.
#[derive(Drop)]
pub struct Loan {
    lease: Lease,
}

impl Model for Loan {
    ghost use Rattle.std.specs.Prelude.{Option};
    ghost use Rattle.fast_kept.specs.declared.lent.Lent.{Lent as LentOf};
    ghost use Rattle.fast_kept.specs.Lending.{value_coded};

    ghost Value = { Option LentOf };

    ghost coded = { value_coded };

    ghost view = { λ l. l.lease.value };
}

impl Loan {
    /// What is wanted of a set, over this share of it.
    ///
    /// # Errors
    ///
    /// Where memory is refused.
    pub fn new(alloc: Global, set: SharedSet, wanted: &Wanted) -> Result<Loan, AllocError>
        ensures { IfOk result (λ loan. IsLent set wanted.now loan) }
    {
        let lease = Lease::new(alloc, set, wanted)?;
        Ok(Loan { lease })
    }

    /// Does this with what borrows the set, and with two rooms for what comes out of it.
    pub fn with<T, F: FnOnce(&mut Option<Lent<'_>>, &mut [TapeNode], &mut [u8]) -> T>(
        &mut self,
        nodes: &mut [TapeNode],
        bytes: &mut [u8],
        work: F,
    ) -> T
        requires { F.IsAlwaysCallable work }
        ensures { ReturnsAtRooms F.FnOnce work self.old nodes.old bytes.old result self.new nodes.new bytes.new }
    {
        self.lease.with(nodes, bytes, work)
    }
}
