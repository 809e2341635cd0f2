//! Whether to remove units at the end of a base is the best cut, and what is put there no longer than need be. Both are told
//! of bytes as they stand, and no value is made: of an ASCII string they are an entity, of another one the units themselves.

ghost use Rattle.std.specs.Prelude.{◌≡◌, ◌≤◌, ◌<◌, ◌++◌, true, length, take};
ghost use Rattle.fast_wire.specs.Entity.{IsEntity, groups};
ghost use Rattle.fast_field.specs.CommonParts.{IsLongestPrefix, IsLongestSuffix, SharesEnd};

// ---- Characters of an entity

/// Whether the first of the characters that are put behind so many of a text is not the one that is there.
#[tactic(auto, using(crate::proofs::CutsAtEnd::prefix_found, crate::proofs::CutsAtEnd::no_equal))]
#[inline(always)]
pub fn begins_otherwise(base: &[u8], kept: usize, form: &[u8]) -> bool
    requires kept { kept < length base.now }
    requires entity { IsEntity form.now }
    ensures { result ≡ true
        → IsLongestPrefix base.now (take kept base.now ++ groups form.now) kept }
{
    base[kept] != form[0] % 128
}

/// Whether a text has no more in common with its first units and others behind them than these first units.
#[tactic(auto, using(crate::proofs::CutsAtEnd::prefix_whole))]
#[inline(always)]
pub fn agrees_no_further(base: &[u8], kept: usize, form: &[u8]) -> bool
    requires kept { kept ≤ length base.now }
    requires entity { IsEntity form.now }
    ensures { result ≡ true
        → IsLongestPrefix base.now (take kept base.now ++ groups form.now) kept }
{
    kept >= base.len() || begins_otherwise(base, kept, form)
}

/// Whether it ends otherwise than these do.
#[tactic(auto, using(crate::proofs::CutsAtEnd::suffix_found, crate::proofs::CutsAtEnd::no_equal))]
#[inline(always)]
fn ends_otherwise(base: &[u8], kept: usize, form: &[u8]) -> bool
    requires kept { kept ≤ length base.now }
    requires entity { IsEntity form.now }
    ensures { result ≡ true
        → IsLongestSuffix base.now (take kept base.now ++ groups form.now) 0 }
{
    base.is_empty() || base[base.len() - 1] != form[form.len() - 1] % 128
}

/// Whether a removal at the end, to so many units, takes no more bytes than one in front: no fewer are kept than a text
/// has in common with what it becomes at its end. This is so where as many are put there as are removed, and no more.
#[inline(always)]
pub fn is_cut_at_end(base: &[u8], kept: usize, form: &[u8]) -> bool
    requires kept { kept ≤ length base.now }
    requires entity { IsEntity form.now }
    requires prefix { IsLongestPrefix base.now (take kept base.now ++ groups form.now) kept }
    ensures { result ≡ true
        → SharesEnd base.now (take kept base.now ++ groups form.now) kept }
{
    if kept < base.len() && form.len() == base.len() - kept && form.len() <= kept {
        true
    } else {
        ends_otherwise(base, kept, form)
    }
}

// ---- Units as they are

/// Whether bytes put behind so many units of a base have some, and the base does not go on as they do.
#[tactic(auto, using(crate::proofs::CutsAtEnd::prefix_stays, crate::proofs::CutsAtEnd::prefix_whole, crate::proofs::CutsAtEnd::no_equal))]
#[inline(always)]
pub fn goes_on_otherwise(base: &[u8], kept: usize, part: &[u8]) -> bool
    requires { kept ≤ length base.now }
    ensures some { result ≡ true → 0 < length part.now }
    ensures prefix { result ≡ true
        → IsLongestPrefix base.now (take kept base.now ++ part.now) kept }
{
    !part.is_empty() && (kept >= base.len() || base[kept] != part[0])
}

/// Whether a base ends otherwise than bytes put behind so many units of it.
#[tactic(auto, using(crate::proofs::CutsAtEnd::suffix_stays, crate::proofs::CutsAtEnd::no_equal))]
#[inline(always)]
fn vector_ends_otherwise(base: &[u8], kept: usize, part: &[u8]) -> bool
    requires kept { kept ≤ length base.now }
    requires some { 0 < length part.now }
    ensures { result ≡ true
        → IsLongestSuffix base.now (take kept base.now ++ part.now) 0 }
{
    base.is_empty() || base[base.len() - 1] != part[part.len() - 1]
}

/// As `is_cut_at_end`, of bytes that are the units themselves.
#[tactic(auto, using(crate::proofs::CutsAtEnd::few_shared))]
#[inline(always)]
pub fn is_vector_cut_at_end(base: &[u8], kept: usize, part: &[u8]) -> bool
    requires kept { kept ≤ length base.now }
    requires some { 0 < length part.now }
    requires prefix { IsLongestPrefix base.now (take kept base.now ++ part.now) kept }
    ensures { result ≡ true → SharesEnd base.now (take kept base.now ++ part.now) kept }
{
    if kept < base.len() && part.len() == base.len() - kept && part.len() <= kept {
        true
    } else {
        vector_ends_otherwise(base, kept, part)
    }
}
