//! A template set with several owners.

ghost use Rattle.std.specs.Prelude.{◌≡◌, IfOk};

use fast_template::TemplateSet;
use std::alloc::{AllocError, Global};
use std::marker::Model;
use std::sync::Arc;

/// A share of a template set, which is freed with the last of them. A contract sees the set.
#[derive(Drop)]
pub struct SharedSet {
    set: Arc<TemplateSet>,
}

impl Model for SharedSet {
    ghost use Rattle.fast_template.specs.TemplateSets.{TemplateList};
    ghost use Rattle.fast_template.specs.contracts.set.TemplateSet as sets;

    ghost Value = { TemplateList };

    ghost coded = { sets.the_row.coded };

    ghost view = { λ s. s.set.value };
}

impl SharedSet {
    /// The only share of a set.
    ///
    /// # Errors
    ///
    /// Where memory is refused.
    pub fn of(alloc: Global, set: TemplateSet) -> Result<SharedSet, AllocError>
        ensures { IfOk result (λ shared. shared ≡ set) }
    {
        let set = Arc::new(alloc, set)?;
        Ok(SharedSet { set })
    }

    /// The set.
    pub fn set(&self) -> &TemplateSet
        ensures { result.now ≡ self.now }
    {
        self.set.as_ref()
    }

    /// Another share of the set.
    ///
    /// # Errors
    ///
    /// Where there are too many shares already to be counted.
    pub fn share(&self) -> Result<SharedSet, AllocError>
        ensures { IfOk result (λ other. other ≡ self.now) }
    {
        let set = self.set.clone()?;
        Ok(SharedSet { set })
    }
}
