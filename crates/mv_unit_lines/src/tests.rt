//! Worked lines, and a name or a number for each type.

use crate::{PictureState, Reference, push_list_line, push_picture_line, push_unit_line};
use mv_units::UnitHead;
use std::test::Fail;

#[test]
fn units_and_pictures_are_shown(rt: HostRuntime) -> Result<(), Fail> {
    let mut out = Vec::new(rt.alloc());
    let rows = [
        (0, 0, 0, false),
        (9, 1, 0, false),
        (20, 0, 1, true),
        (21, 5, 6, false),
        (31, 0, 0, false),
        (40, 63, 2, true),
        (41, 0, 0, false),
    ];
    for (kind, layer, tid, stray) in rows {
        push_unit_line(&mut out, 12, 345, UnitHead { kind, layer, tid }, stray)?;
    }
    push_picture_line(&mut out, Some(-3), PictureState::Start)?;
    push_picture_line(&mut out, Some(8), PictureState::Decoded)?;
    push_picture_line(&mut out, None, PictureState::Skipped)?;
    let two = [
        Reference { layer: 1, count: 0 },
        Reference {
            layer: 0,
            count: -1,
        },
    ];
    push_list_line(&mut out, 0, &two)?;
    push_list_line(&mut out, 1, &two[..1])?;
    push_list_line(&mut out, 1, &[])?;
    let want = b"unit 12 at 345: layer 0 tid 0 TRAIL_N\n\
unit 12 at 345: layer 1 tid 0 RASL_R\n\
unit 12 at 345: layer 0 tid 1 IDR_N_LP stray\n\
unit 12 at 345: layer 5 tid 6 CRA\n\
unit 12 at 345: layer 0 tid 0 TYPE_31\n\
unit 12 at 345: layer 63 tid 2 SUFFIX_SEI stray\n\
unit 12 at 345: layer 0 tid 0 TYPE_41\n\
\x20 picture count=-3 state=start\n\
\x20 picture count=8 state=decoded\n\
\x20 picture count=none state=skipped\n\
\x20 list0=1:0,0:-1\n\
\x20 list1=1:0\n\
\x20 list1=\n";
    assert_eq!(rt; out.as_slice(), want.as_slice());
    Ok(())
}
