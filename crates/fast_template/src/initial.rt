//! Initial values.

ghost use Rattle.std.specs.Prelude.{◌≡◌, IfOk};

use fast_value::Scalar;
use std::alloc::{AllocError, Global};
use std::marker::Model;
use std::sync::Arc;

/// An initial value. A contract sees the value.
///
/// Copies share it, so that a text of many units lies in memory once, however many templates refer to the one with its
/// instruction.
#[derive(Debug, Drop)]
pub struct Initial {
    value: Arc<Scalar>,
}

impl Model for Initial {
    ghost use Rattle.fast_value.specs.declared.scalar.Scalar.{Scalar as ScalarOf};

    ghost Value = { ScalarOf };

    ghost view = { λ i. i.value.value };
}

impl Initial {
    /// An initial value of its own.
    ///
    /// # Errors
    ///
    /// Where memory is refused.
    pub fn of(alloc: Global, value: Scalar) -> Result<Initial, AllocError>
        ensures { IfOk result (λ initial. initial ≡ value) }
    {
        let value = Arc::new(alloc, value)?;
        Ok(Initial { value })
    }

    /// The value.
    #[inline(always)]
    pub fn value(&self) -> &Scalar
        ensures { result.now ≡ self.now }
    {
        self.value.as_ref()
    }

    /// The same initial value once more: both share the value.
    ///
    /// # Errors
    ///
    /// Where there are too many copies already to be counted.
    pub fn copy(&self) -> Result<Initial, AllocError>
        ensures { IfOk result (λ other. other ≡ self.now) }
    {
        let value = self.value.clone()?;
        Ok(Initial { value })
    }
}
