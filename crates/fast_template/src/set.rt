//! Sets of resolved templates.

ghost use Rattle.std.specs.Prelude.{◌≡◌, option_map};
ghost use Rattle.fast_template.specs.TemplateSets.{template_of};

use crate::resolved::FlatTemplate;
use std::collections::BTreeMap;
use std::marker::Model;

/// Resolved templates.
///
/// Each set is free of references, typed, numbered and within the limits, and has a slot for each
/// key.
#[derive(Debug, Drop)]
pub struct TemplateSet {
    templates: Vec<FlatTemplate>,
    slots: u32,
    // the place of the template of each identifier
    places: BTreeMap<u32, u32>,
}

impl Model for TemplateSet {
    ghost use Rattle.std.specs.Coded.{codes};
    ghost use Rattle.fast_template.specs.contracts.resolved.Flat as flat;
    ghost use Rattle.fast_template.specs.TemplateSets.{TemplateList, IsSound};
    ghost use Rattle.fast_template.specs.Places.{FindsAll};

    ghost Value = { TemplateList };

    ghost coded = { Prim.hlevel (codes, flat.the_row.coded) };

    ghost view = { λ s. record { templates = s.templates.items; slots = s.slots } };

    ghost invariant = { λ s. IsSound (record { templates = s.templates.items; slots = s.slots })
        × FindsAll s.places s.templates.items };
}

impl TemplateSet {
    ghost use Rattle.std.specs.Prelude.{map};
    ghost use Rattle.fast_template.specs.Places.{FindsAll};
    ghost use Rattle.fast_template.specs.Resolved.{resolved_of};
    ghost use Rattle.fast_template.specs.TemplateSets.{AreSound, IsSound};

    /// A set of these templates, with so many slots and the places of their identifiers.
    ///
    /// It is for `fast_load`, which makes sets from templates as they are written.
    pub fn of(templates: Vec<FlatTemplate>, slots: u32, places: BTreeMap<u32, u32>) -> TemplateSet
        requires sound { AreSound (map resolved_of templates.items) slots }
        requires places { FindsAll places templates.items }
        ensures { result ≡ record { templates = templates.items; slots = slots } }
    {
        TemplateSet {
            templates,
            slots,
            places,
        }
    }

    /// The templates, in their order.
    pub fn templates(&self) -> &[FlatTemplate]
        ensures value { result.now ≡ self.now.templates }
        ensures sound { IsSound self.now }
    {
        &self.templates
    }

    /// The template of an identifier.
    pub fn find(&self, id: u32) -> Option<&FlatTemplate>
        ensures value { option_map (λ t. t.now) result ≡ template_of id self.now }
        ensures sound { IsSound self.now }
    {
        match self.places.get(&id) {
            Some(place) => self.templates.get(*place as usize),
            None => None,
        }
    }

    /// The name of the template of an identifier.
    pub fn name(&self, id: u32) -> Option<&str>
        ensures value { option_map (λ s. s.now) result ≡ option_map (λ t. t.name)
            (template_of id self.now) }
        ensures sound { IsSound self.now }
    {
        match self.find(id) {
            Some(template) => Some(template.name.as_str()),
            None => None,
        }
    }

    /// How many slots the keys of this set have: one more than the greatest.
    pub fn slots(&self) -> u32
        ensures value { result ≡ self.now.slots }
        ensures sound { IsSound self.now }
    {
        self.slots
    }
}
