//! The bytes of a map.

ghost use Rattle.std.specs.Prelude.{◌≡◌, ◌≤◌, ◌<◌, ◌*◌, ◌+◌, ◌-◌, ℕ, length, slice_index_or};
ghost use Rattle.fast_wire.specs.Entity.{IsEntity};
ghost use Rattle.fast_draft.specs.Mending.{Clears, CutsMap, IsUsedUpTo, ClearsBehind};

/// The bit of a map's last byte.
pub(crate) const STOP: u8 = 128;

/// Clears a bit of a map, the most significant of the first byte's seven first.
pub(crate) fn clear_bit(map: &mut [u8], index: usize)
    requires { index < 7 * length map.now }
    ensures { Clears index map.old map.new }
{
    let place = index / 7;
    let weight = 1u8 << (6 - index % 7);
    let byte = map[place];
    if byte / weight % 2 == 1 {
        map[place] = byte - weight;
    }
}

/// How many groups of so many are needed: those up to the last that is not 0, and one at least.
fn needed(map: &[u8], most: usize) -> usize
    requires some { 0 < most }
    requires within { most ≤ length map.now }
    ensures { IsUsedUpTo map.now most result }
{
    for i in (1..most).rev() {
        if map[i] != 0 {
            return i + 1;
        }
    }
    1
}

/// Makes the bits behind so many 0 in the group where those end, and answers how many groups those reach.
fn clear_behind(map: &mut [u8], asked: usize) -> usize
    requires some { 0 < length map.now }
    requires few { length map.now ≤ 256 }
    requires asked { asked ≤ 7 * length map.now }
    ensures { ClearsBehind asked map.old map.new result }
{
    if asked < 7 * map.len() {
        let last = asked / 7;
        let byte = map[last];
        map[last] = byte - byte % (128 >> (asked % 7));
        return last + 1;
    }
    map.len()
}

/// Makes the front of a map the shortest map of so many of its bits, and answers how many bytes that has.
pub(crate) fn cut_map(map: &mut [u8], asked: usize) -> usize
    requires entity { IsEntity map.now }
    requires few { length map.now ≤ 256 }
    requires asked { asked ≤ 7 * length map.now }
    ensures { CutsMap asked map.old map.new result }
{
    let size = map.len();
    map[size - 1] -= STOP;
    let most = clear_behind(map, asked);
    let used = needed(map, most);
    map[used - 1] += STOP;
    used
}
