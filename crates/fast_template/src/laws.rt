//! Laws of template sets, each the contract of a function that does nothing.

ghost use Rattle.std.specs.Prelude.{◌≡◌, Contains};
ghost use Rattle.fast_value.specs.declared.key.Key as key;
ghost use Rattle.fast_template.specs.TemplateSets.{IsSound, TemplateList, keys_in};

/// Two keys of one set with the same slot are equal.
pub fn a_slot_has_one_key()
    ensures { (set : TemplateList) (k l : key.Key) → IsSound set → Contains (keys_in set) k
        → Contains (keys_in set) l → k.slot ≡ l.slot → k ≡ l }
{}
