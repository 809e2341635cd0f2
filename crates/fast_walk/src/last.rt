//! The templates that were named last.

ghost use Rattle.std.specs.Prelude.{◌≡◌, option_map};
ghost use Rattle.fast_template.specs.TemplateSets.{template_of};
ghost use Rattle.fast_walk.specs.Found.{AreFound, IsFound};

use fast_template::{FlatTemplate, TemplateSet};

/// How many templates are kept.
const KEPT: usize = 8;

/// An identifier, and what a set has under it.
#[derive(Clone, Copy)]
pub(crate) struct Found<'a> {
    id: u32,
    template: Option<&'a FlatTemplate>,
}

/// What a set was asked for last, and answered: a template that is named again is mostly not looked up. Each identifier has one
/// place.
#[derive(Drop)]
pub(crate) struct Last<'a> {
    found: [Found<'a>; KEPT],
}

impl<'a> Last<'a> {
    /// Before a stream.
    pub(crate) fn new(set: &'a TemplateSet) -> Last<'a>
        ensures { AreFound set.now result.found }
    {
        let none = Found {
            id: 0,
            template: set.find(0),
        };
        Last {
            found: [none; KEPT],
        }
    }

    /// The template of an identifier.
    #[inline(always)]
    pub(crate) fn find(&mut self, set: &'a TemplateSet, id: u32) -> Option<&'a FlatTemplate>
        requires { AreFound set.now self.now.found }
        ensures value { option_map (λ t. t.now) result ≡ template_of id set.now }
        ensures found { AreFound set.now self.new.found }
    {
        let found = &mut self.found[..];
        let place = id as usize % KEPT;
        if found[place].id != id {
            found[place] = Found {
                id,
                template: set.find(id),
            };
        }
        found[place].template
    }
}
