ghost use Rattle.std.specs.Prelude.{◌≤◌};

use crate::{Latest, LayerPictures};
use mv_common::Format;
use mv_dpb::Keep;
use mv_rps::PocAsk;
use mv_sets::SpsSet;
use mv_sps::read_sps;
use std::alloc::Global;
use std::rc::Rc;
use std::test::Fail;

// The payload of a sequence parameter set of pictures of 64 by 64 samples.
static SPS: &[u8] = &[
    1, 1, 96, 0, 0, 0, 144, 0, 0, 0, 0, 0, 93, 160, 32, 129, 5, 254, 188, 32, 128,
];

fn sps(alloc: Global) -> Result<Rc<SpsSet>, Fail> {
    let value = read_sps(alloc, 0, 0, SPS)?;
    let mut payload = Vec::new(alloc);
    payload.extend_from_slice(SPS)?;
    Ok(Rc::new(
        alloc,
        SpsSet {
            layer: 0,
            payload,
            value,
        },
    )?)
}

// A start of layer 0.
fn start(lsb: u32) -> PocAsk
    ensures some { 1 ≤ result.max_lsb }
    ensures few { result.max_lsb ≤ 65536 }
{
    PocAsk {
        layer: 0,
        kind: 19,
        tid: 0,
        start: true,
        lsb: Some(lsb),
        max_lsb: 16,
        base: None,
    }
}

fn latest(alloc: Global, au: u64) -> Result<Latest, Fail> {
    let format = Format {
        width: 64,
        height: 64,
        chroma: 1,
        luma_depth: 8,
        chroma_depth: 8,
    };
    Ok(Latest {
        au,
        sps: sps(alloc)?,
        format,
    })
}

fn is_picture(found: Option<(i32, &Rc<i64>)>, count: i32) -> bool {
    found.is_some_and(|(told, picture)| told == count && **picture == count as i64)
}

#[test]
fn pictures_come_and_go(rt: HostRuntime) -> Result<(), Fail> {
    let mut layer = LayerPictures::new(rt.alloc())?;
    assert!(rt; layer.count(&start(5)) == Ok(5));
    layer.decode(true, &[], latest(rt.alloc(), 7)?);
    assert!(rt; layer.picture().is_none());
    layer.finish(5, 7, Rc::new(rt.alloc(), 5)?);
    let keep = [Keep {
        place: 0,
        long: true,
    }];
    assert!(rt; is_picture(layer.referred(&keep, 0), 5));
    assert!(rt; layer.referred(&keep, 1).is_none());
    assert!(rt; layer.here(7).is_some_and(|latest| latest.au == 7));
    assert!(rt; layer.here(8).is_none());
    let other = sps(rt.alloc())?;
    assert!(rt; !layer.has_other_sps(&other));
    layer.decode(false, &keep, latest(rt.alloc(), 8)?);
    layer.finish(6, 8, Rc::new(rt.alloc(), 6)?);
    assert!(rt; is_picture(layer.picture(), 6));
    layer.forget();
    assert!(rt; layer.picture().is_none());
    Ok(())
}
