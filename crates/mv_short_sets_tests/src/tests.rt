ghost use Rattle.std.specs.Prelude.{◌≡◌, ◌≤◌, length, IfOk};
ghost use Rattle.mv_short_sets.specs.ShortSet.{ValidSets};

use mv_bits::{BitReader, BitWriter};
use mv_fields::{Fault, Limit, Printer};
use mv_short_sets::*;
use std::alloc::Global;
use std::test::Fail;

// Set `idx` of `num` sets, behind the sets before it.
struct Coded {
    earlier: &'static [u8],
    set: &'static [u8],
    idx: u8,
    num: u8,
}

// The first `count` of `num` sets.
fn sets_of(
    alloc: Global,
    bits: &mut BitReader,
    count: u8,
    num: u8,
) -> Result<Vec<ShortSet>, Fault<Limit>>
    requires within { count ≤ num }
    requires few { num ≤ 64 }
    ensures all { IfOk result (λ v. length v.items ≡ count) }
    ensures valid { IfOk result (λ v. ValidSets num v.items) }
{
    let mut sets = Vec::new(alloc);
    for idx in 0..count {
        let args = ShortArgs {
            idx,
            num,
            earlier: sets.as_slice(),
        };
        let set = ShortSet::read(alloc, bits, &args)?;
        sets.push(set)?;
    }
    Ok(sets)
}

// A set's deltas, what is written of it with trailing bits, and its lines.
fn again(alloc: Global, coded: &Coded) -> Result<(Vec<Delta>, Vec<u8>, Printer), Fault<Limit>>
    requires within { coded.now.idx ≤ coded.now.num }
    requires few { coded.now.num ≤ 64 }
{
    let sets = sets_of(
        alloc,
        &mut BitReader::new(coded.earlier),
        coded.idx,
        coded.num,
    )?;
    let args = ShortArgs {
        idx: coded.idx,
        num: coded.num,
        earlier: sets.as_slice(),
    };
    let set = ShortSet::read(alloc, &mut BitReader::new(coded.set), &args)?;
    let mut out = BitWriter::new(alloc);
    set.write(&mut out, &args)?;
    out.trailing()?;
    let mut lines = Printer::lines(alloc);
    set.print(&mut lines, &args)?;
    Ok((set.deltas(alloc, &args)?, out.into_bytes(), lines))
}

// The sets before: one of -1 and -2; behind it one of -5; one of 16 pictures before, from -1 to -16.
static SETS: [(Coded, &[(i32, bool)]); 7] = [
    // Coded directly: two before, one after.
    (
        Coded {
            earlier: &[],
            set: &[0x6B, 0x47, 0x80],
            idx: 0,
            num: 1,
        },
        &[(-1, true), (-3, false), (3, true)],
    ),
    // Predicted from set 0 with a delta of 1, and of -1.
    (
        Coded {
            earlier: &[0x7F],
            set: &[0xBE],
            idx: 1,
            num: 2,
        },
        &[(-1, true), (1, true)],
    ),
    (
        Coded {
            earlier: &[0x7F],
            set: &[0xFE],
            idx: 1,
            num: 2,
        },
        &[(-1, true), (-2, true), (-3, true)],
    ),
    // use_delta_flag 0 leaves one out, used_by_curr_pic_flag 0 keeps one for later pictures.
    (
        Coded {
            earlier: &[0x7F],
            set: &[0xE5, 0x80],
            idx: 1,
            num: 2,
        },
        &[(-1, false), (-3, true)],
    ),
    // The set of a slice header, predicted from set 0 and from set 1, and coded directly.
    (
        Coded {
            earlier: &[0x7F, 0x29, 0x60],
            set: &[0xAF, 0xC0],
            idx: 2,
            num: 2,
        },
        &[(-1, true), (-2, true), (-3, true)],
    ),
    (
        Coded {
            earlier: &[0x7F, 0x29, 0x60],
            set: &[0xFE],
            idx: 2,
            num: 2,
        },
        &[(-1, true), (-6, true)],
    ),
    (
        Coded {
            earlier: &[0x7F, 0x29, 0x60],
            set: &[0x70],
            idx: 2,
            num: 2,
        },
        &[],
    ),
];

#[test]
fn deltas_of_sets(rt: HostRuntime) -> Result<(), Fail> {
    for (coded, deltas) in &SETS {
        assert!(rt; coded.idx <= coded.num && coded.num <= 64);
        let (found, written, _) = again(rt.alloc(), coded)?;
        assert_eq!(rt; found.len(), deltas.len(), "of {:?}", coded.set);
        for (one, wanted) in found.iter().zip(*deltas) {
            assert_eq!(rt; (one.delta, one.used), *wanted, "of {:?}", coded.set);
        }
        assert_eq!(rt; written.as_slice(), coded.set);
    }
    Ok(())
}

static LIMITS: [(Coded, Option<Fault<Limit>>); 13] = [
    // 17 pictures before, and 16 before with one after.
    (
        Coded {
            earlier: &[],
            set: &[0x09, 0x60],
            idx: 0,
            num: 1,
        },
        Some(Fault::Breaks(Limit)),
    ),
    (
        Coded {
            earlier: &[],
            set: &[0x08, 0xA8],
            idx: 0,
            num: 1,
        },
        Some(Fault::Breaks(Limit)),
    ),
    // delta_poc_s0_minus1 and delta_poc_s1_minus1 32767 and 32768.
    (
        Coded {
            earlier: &[],
            set: &[0x50, 0x00, 0x10, 0x00, 0x18],
            idx: 0,
            num: 1,
        },
        None,
    ),
    (
        Coded {
            earlier: &[],
            set: &[0x50, 0x00, 0x10, 0x00, 0x38],
            idx: 0,
            num: 1,
        },
        Some(Fault::Breaks(Limit)),
    ),
    (
        Coded {
            earlier: &[],
            set: &[0xA0, 0x00, 0x10, 0x00, 0x18],
            idx: 0,
            num: 1,
        },
        None,
    ),
    (
        Coded {
            earlier: &[],
            set: &[0xA0, 0x00, 0x10, 0x00, 0x38],
            idx: 0,
            num: 1,
        },
        Some(Fault::Breaks(Limit)),
    ),
    // abs_delta_rps_minus1 32767 and 32768.
    (
        Coded {
            earlier: &[0x7F],
            set: &[0x80, 0x00, 0x40, 0x00, 0x78],
            idx: 1,
            num: 2,
        },
        None,
    ),
    (
        Coded {
            earlier: &[0x7F],
            set: &[0x80, 0x00, 0x40, 0x00, 0xF8],
            idx: 1,
            num: 2,
        },
        Some(Fault::Breaks(Limit)),
    ),
    // delta_idx_minus1 1 of set 1.
    (
        Coded {
            earlier: &[0x7F],
            set: &[0xA7, 0xC0],
            idx: 1,
            num: 1,
        },
        Some(Fault::Breaks(Limit)),
    ),
    // 17 deltas, and 16 of 17 candidates.
    (
        Coded {
            earlier: &[0x08, 0xFF, 0xFF, 0xFF, 0xFF, 0xC0],
            set: &[0xFF, 0xFF, 0xF8],
            idx: 1,
            num: 2,
        },
        Some(Fault::Breaks(Limit)),
    ),
    (
        Coded {
            earlier: &[0x08, 0xFF, 0xFF, 0xFF, 0xFF, 0xC0],
            set: &[0xFF, 0xFF, 0xE4],
            idx: 1,
            num: 2,
        },
        None,
    ),
    // Bits that end in a delta of a picture, and in that of a reference set.
    (
        Coded {
            earlier: &[],
            set: &[0x60],
            idx: 0,
            num: 1,
        },
        Some(Fault::NoBits),
    ),
    (
        Coded {
            earlier: &[0x7F],
            set: &[0xC0, 0x00],
            idx: 1,
            num: 2,
        },
        Some(Fault::NoBits),
    ),
];

#[test]
fn limits_of_sets(rt: HostRuntime) {
    for (coded, fault) in &LIMITS {
        assert!(rt; coded.idx <= coded.num && coded.num <= 64);
        let answer = again(rt.alloc(), coded).err();
        assert!(rt; answer == *fault, "of {:?}", coded.set);
    }
}

#[test]
fn lines_of_sets(rt: HostRuntime) -> Result<(), Fail> {
    let rows = [
        (
            &SETS[0].0,
            "  num_negative_pics=2\n  num_positive_pics=1\n  delta_poc_s0_minus1[0]=0\n  used_by_curr_pic_s0_flag[0]=1\n  \
             delta_poc_s0_minus1[1]=1\n  used_by_curr_pic_s0_flag[1]=0\n  delta_poc_s1_minus1[0]=2\n  \
             used_by_curr_pic_s1_flag[0]=1\n",
        ),
        (
            &SETS[3].0,
            "  inter_ref_pic_set_prediction_flag=1\n  delta_rps_sign=1\n  abs_delta_rps_minus1=0\n  \
             used_by_curr_pic_flag[0]=0\n  use_delta_flag[0]=0\n  used_by_curr_pic_flag[1]=1\n  \
             used_by_curr_pic_flag[2]=0\n  use_delta_flag[2]=1\n",
        ),
    ];
    for (coded, lines) in rows {
        assert!(rt; coded.idx <= coded.num && coded.num <= 64);
        let (_, _, printed) = again(rt.alloc(), coded)?;
        assert_eq!(rt; printed.text(), lines.as_bytes());
    }
    Ok(())
}
