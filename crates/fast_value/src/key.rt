//! Names of entries in dictionaries.

ghost use Rattle.std.specs.Prelude.{◌≡◌, IfOk, Some, nat_eq, refl, string_bytes};
ghost use Rattle.std.specs.Cmp.{partial_equiv_from_equiv};
ghost use Rattle.std.specs.Cmp.Lexicographic.{nat_list_cmp_total, nat_list_eq_equiv, pointwise, slice_cmp, texts_po, texts_ties};
ghost use Rattle.std.specs.Ordering.{nat_cmp};

use crate::kind::Part;
use std::alloc::{AllocError, Global};
use std::cmp::Ordering;
use std::marker::Model;
use std::sync::Arc;

/// A name of a template, a field, a key, a dictionary or a type. A contract sees its bytes.
///
/// Copies of a name share its text.
#[derive(Debug, Drop)]
pub struct Name {
    // none: the empty name, which takes no memory
    text: Option<Arc<String>>,
}

impl Model for Name {
    ghost use Rattle.std.specs.Prelude.{[], List, ℕ, string_bytes};
    ghost use Rattle.std.specs.Option.{option_map_or};

    ghost Value = { List ℕ };

    ghost view = { λ n. option_map_or (λ t. string_bytes t.value) n.text [] };
}

impl Name {
    ghost use Rattle.std.specs.Prelude.{[]};

    /// The name without a byte. Takes no memory.
    pub fn empty() -> Name
        ensures { result ≡ [] }
    {
        Self { text: None }
    }

    /// The name that a text is.
    ///
    /// # Errors
    ///
    /// Where memory is refused.
    pub fn of(alloc: Global, text: &str) -> Result<Name, AllocError>
        ensures { IfOk result (λ name. name ≡ text.now) }
    {
        let text = Arc::new(alloc, String::from_str(alloc, text)?)?;
        Ok(Name { text: Some(text) })
    }

    /// The name as text.
    pub fn as_str(&self) -> &str
        ensures { result.now ≡ self.now }
    {
        match &self.text {
            Some(text) => text.as_str(),
            None => "",
        }
    }

    /// The same name once more, of the same text.
    ///
    /// # Errors
    ///
    /// Where there are too many copies already to be counted.
    pub fn copy(&self) -> Result<Name, AllocError>
        ensures { IfOk result (λ other. other ≡ self.now) }
    {
        match &self.text {
            Some(text) => {
                let text = text.clone()?;
                Ok(Name { text: Some(text) })
            }
            None => Ok(Name::empty()),
        }
    }
}

impl PartialEq for Name {
    ghost eq = { pointwise nat_eq };

    ghost laws = { partial_equiv_from_equiv nat_list_eq_equiv };

    fn eq(&self, other: &Name) -> bool {
        self.as_str() == other.as_str()
    }
}

impl Eq for Name {
    ghost laws = { nat_list_eq_equiv };
}

impl PartialOrd for Name {
    ghost partial_cmp = { λ a b. Some (slice_cmp nat_cmp a b) };

    ghost laws = { texts_po };

    fn partial_cmp(&self, other: &Name) -> Option<Ordering> {
        Some(self.cmp(other))
    }
}

impl Ord for Name {
    ghost cmp = { slice_cmp nat_cmp };

    ghost total = { nat_list_cmp_total };

    ghost matches_partial_cmp = { λ a b. refl };

    ghost matches_eq = { texts_ties };

    fn cmp(&self, other: &Name) -> Ordering {
        self.as_str().cmp(other.as_str())
    }
}

/// The dictionary that an entry is in.
#[derive(Debug, PartialEq, Eq, PartialOrd, Ord, Drop)]
pub enum Scope {
    /// The one that all templates share.
    Global,
    /// That of the template in which the instruction was written: its place in the list of templates, from 1.
    Template(u32),
    /// That of an application type.
    Typed(Name),
    /// One that a user named.
    User(Name),
}

impl Scope {
    /// The same scope once more.
    ///
    /// # Errors
    ///
    /// Where a name has too many copies already to be counted.
    pub fn copy(&self) -> Result<Scope, AllocError>
        ensures { IfOk result (λ other. other ≡ self.now) }
    {
        match self {
            Scope::Global => Ok(Scope::Global),
            Scope::Template(place) => Ok(Scope::Template(*place)),
            Scope::Typed(name) => Ok(Scope::Typed(name.copy()?)),
            Scope::User(name) => Ok(Scope::User(name.copy()?)),
        }
    }
}

/// What an entry is found by. Keys are ordered by slot, then scope, name and part.
///
/// In one template set two keys have the same slot exactly if their scope, name and part are the same.
#[derive(Debug, PartialEq, Eq, Drop)]
pub struct Key {
    /// A number of its own in its template set, from 0.
    pub slot: u32,
    pub scope: Scope,
    /// The key that was given, or else the field's name. Empty for the template identifier.
    pub name: Name,
    /// Other than `Whole` where the key is internal, as that of an exponent or of a length without a name.
    pub part: Part,
}

impl Key {
    /// The same key once more, of the same texts.
    ///
    /// # Errors
    ///
    /// Where a name has too many copies already to be counted.
    pub fn copy(&self) -> Result<Key, AllocError>
        ensures { IfOk result (λ other. other ≡ self.now) }
    {
        Ok(Key {
            slot: self.slot,
            scope: self.scope.copy()?,
            name: self.name.copy()?,
            part: self.part,
        })
    }
}

impl Key {
    ghost use Rattle.std.specs.Ordering.{ordering_then};
    ghost use Rattle.fast_value.specs.Key.{part_number, scope_numbers};

    // How two keys of one slot compare: by scope, then name and part.
    fn cmp_behind_slot(&self, other: &Key) -> Ordering
        ensures { result ≡ ordering_then (slice_cmp nat_cmp (scope_numbers self.now.scope)
            (scope_numbers other.now.scope)) (ordering_then
            (slice_cmp nat_cmp self.now.name other.now.name) (nat_cmp (part_number self.now.part)
            (part_number other.now.part))) }
    {
        self.scope
            .cmp(&other.scope)
            .then(self.name.cmp(&other.name))
            .then(self.part.cmp(&other.part))
    }
}

impl PartialOrd for Key {
    ghost use Rattle.std.specs.Prelude.{Some, refl};
    ghost use Rattle.std.specs.Cmp.{partial_order_from_agreeing_total};
    ghost use Rattle.fast_value.specs.Key.{key_cmp, key_cmp-total, key_eq_ties};

    ghost partial_cmp = { λ a b. Some (key_cmp a b) };

    ghost laws = { partial_order_from_agreeing_total key_cmp key_cmp-total
        (λ a b. refl) key_eq_ties };

    fn partial_cmp(&self, other: &Key) -> Option<Ordering> {
        Some(self.cmp(other))
    }
}

impl Ord for Key {
    ghost use Rattle.std.specs.Prelude.{refl};
    ghost use Rattle.fast_value.specs.Key.{key_cmp, key_cmp-total, key_eq_ties};

    ghost cmp = { key_cmp };

    ghost total = { key_cmp-total };

    ghost matches_partial_cmp = { λ a b. refl };

    ghost matches_eq = { key_eq_ties };

    fn cmp(&self, other: &Key) -> Ordering {
        match self.slot.cmp(&other.slot) {
            Ordering::Equal => self.cmp_behind_slot(other),
            order => order,
        }
    }
}
