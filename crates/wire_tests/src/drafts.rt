//! A message whose maps are mended where they were read.

use crate::same::same;
use fast_draft::Draft;
use std::alloc::AllocError;

#[test]
fn segments_end_mended(rt: HostRuntime) -> Result<(), AllocError> {
    let mut draft = Draft::new(rt.alloc());
    for _ in 0..2 {
        // bits 1 0 1 0 0 0 0: the third is needless
        draft.begin(&[0xD0])?;
        draft.is_sound();
        draft.push(0x81)?;
        draft.pass(2);
        draft.clear();
        // all bits are 1, and one was asked for
        draft.enter(&[0xFF])?;
        draft.append(&[1, 2], 0, 2)?;
        draft.pass(1);
        draft.leave();
        // no map of its own
        draft.enter(&[])?;
        draft.push(3)?;
        draft.pass(1);
        draft.clear();
        draft.leave();
        // a group that no one asked for, and elements in turn
        draft.enter(&[0x40, 0x81])?;
        draft.pass(1);
        draft.push(8)?;
        draft.go_on(&[])?;
        draft.push(7)?;
        draft.go_on(&[0x80])?;
        draft.push(9)?;
        draft.leave();
        draft.push(0x22)?;
        draft.finish();
    }
    same(
        &rt,
        draft.ended(),
        &[
            0xC0, 0x81, 0xC0, 1, 2, 3, 0xC0, 8, 7, 0x80, 9, 0x22, 0xC0, 0x81, 0xC0, 1, 2, 3, 0xC0,
            8, 7, 0x80, 9, 0x22,
        ],
    );
    Ok(())
}

#[test]
fn long_maps_end_mended(rt: HostRuntime) -> Result<(), AllocError> {
    let mut draft = Draft::new(rt.alloc());
    // the last bit that is 1 is the nineteenth
    draft.begin(&[0x01, 0x00, 0x84])?;
    draft.pass(19);
    draft.push(5)?;
    draft.finish();
    // the same where that was not asked for
    draft.begin(&[0x01, 0x00, 0x84])?;
    draft.pass(18);
    draft.push(6)?;
    draft.finish();
    // a group of zeros behind the bits asked for
    draft.begin(&[0x40, 0x80])?;
    draft.pass(9);
    draft.append_slice(&[7, 8])?;
    draft.finish();
    // the eighth bit is needless, and the third group was not asked for
    draft.begin(&[0x40, 0x41, 0xC0])?;
    draft.pass(7);
    draft.clear();
    draft.pass(6);
    draft.append(&[0; 40], 1, 2)?;
    draft.append(&[9; 40], 0, 17)?;
    draft.finish();
    // no more bits than the map has
    draft.begin(&[0xFF])?;
    draft.pass(100);
    draft.clear();
    draft.finish();
    same(
        &rt,
        draft.ended(),
        &[
            0x01, 0x00, 0x84, 5, 0x81, 6, 0xC0, 7, 8, 0x40, 0x81, 0, 9, 9, 9, 9, 9, 9, 9, 9, 9, 9,
            9, 9, 9, 9, 9, 9, 9, 0xFF,
        ],
    );
    Ok(())
}

#[test]
fn what_is_open_outlasts_what_ended(rt: HostRuntime) -> Result<(), AllocError> {
    let mut draft = Draft::new(rt.alloc());
    draft.begin(&[0x80])?;
    draft.append_slice(&[1, 2, 3])?;
    draft.finish();
    draft.begin(&[0xFF])?;
    draft.pass(1);
    draft.push(4)?;
    draft.enter(&[0xE0])?;
    draft.push(5)?;
    same(&rt, draft.ended(), &[0x80, 1, 2, 3]);
    draft.forget_ended();
    same(&rt, draft.ended(), &[]);
    // the maps are mended where they stand now
    draft.pass(1);
    draft.clear();
    draft.leave();
    draft.push(6)?;
    // nothing ended meanwhile
    draft.forget_ended();
    draft.finish();
    same(&rt, draft.ended(), &[0xC0, 4, 0xC0, 5, 6]);
    // one that is begun and not ended is no part of them
    draft.begin(&[0x80])?;
    draft.push(7)?;
    draft.begin(&[0x81])?;
    draft.push(8)?;
    same(&rt, draft.ended(), &[0xC0, 4, 0xC0, 5, 6]);
    draft.pass(7);
    draft.finish();
    same(&rt, draft.ended(), &[0xC0, 4, 0xC0, 5, 6, 0x81, 8]);
    Ok(())
}
