//! Structures that are read, refused, written again, and shown field by field and member by member.

ghost use Rattle.std.specs.Prelude.{◌≤◌};

use crate::field_tests as rows;
use crate::field_tests::Row;
use mv_bits::{BitReader, BitWriter};
use mv_common::*;
use mv_fields::{Fault, Limit, Printer};
use std::alloc::{AllocError, Global};
use std::process::Abort;
use std::test::Fail;

// Bytes, and the text of their lines.
#[derive(Drop)]
struct Wanted {
    bytes: Vec<u8>,
    text: Vec<u8>,
}

// What became of a value that was read: its bits, its lines, and its members.
#[derive(Drop)]
struct Told {
    bits: BitWriter,
    lines: Printer,
    value: String,
}

// What fields spell: their bits, with trailing bits, and the text that shows them. Each stands on a line of its own: its bits, and
// behind a blank the line that shows it.
fn spelled(alloc: Global, fields: &str) -> Result<Wanted, AllocError> {
    let mut bits = BitWriter::new(alloc);
    let mut text = Vec::new(alloc);
    let mut shown = false;
    for c in fields.as_bytes() {
        match *c {
            b'\n' => {
                text.push(b'\n')?;
                shown = false;
            }
            b' ' => {
                text.extend_from_slice(b"  ")?;
                shown = true;
            }
            c if shown => text.push(c)?,
            c => bits.u(1, u64::from(c == b'1'))?,
        }
    }
    bits.trailing()?;
    Ok(Wanted {
        bytes: bits.into_bytes(),
        text,
    })
}

// What was written, with trailing bits, what was printed, and the members are those of the row.
fn holds(rt: &impl Abort, wanted: &Wanted, row: Row, told: Told) -> Result<(), Fail> {
    let mut bits = told.bits;
    bits.trailing()?;
    assert_eq!(rt; bits.into_bytes().as_slice(), wanted.bytes.as_slice());
    assert_eq!(rt; told.lines.text(), wanted.text.as_slice());
    assert_eq!(rt; told.value.as_str(), row.value);
    Ok(())
}

fn profile_tier_told(alloc: Global, bytes: &[u8], args: &ProfileArgs) -> Result<Told, Fault<Limit>>
    requires { args.now.subs ≤ 6 }
{
    let value = ProfileTier::read(alloc, &mut BitReader::new(bytes), args)?;
    let mut bits = BitWriter::new(alloc);
    value.write(&mut bits, args)?;
    let mut lines = Printer::lines(alloc);
    value.print(&mut lines, args)?;
    Ok(Told {
        bits,
        lines,
        value: format!(in alloc; "{value:?}")?,
    })
}

fn hrd_told(alloc: Global, bytes: &[u8], args: &HrdArgs) -> Result<Told, Fault<Limit>>
    requires { args.now.subs ≤ 6 }
{
    let value = Hrd::read(alloc, &mut BitReader::new(bytes), args)?;
    let mut bits = BitWriter::new(alloc);
    value.write(&mut bits, args)?;
    let mut lines = Printer::lines(alloc);
    value.print(&mut lines, args)?;
    Ok(Told {
        bits,
        lines,
        value: format!(in alloc; "{value:?}")?,
    })
}

fn vui_told(alloc: Global, bytes: &[u8], args: &VuiArgs) -> Result<Told, Fault<Limit>>
    requires { args.now.subs ≤ 6 }
{
    let value = Vui::read(alloc, &mut BitReader::new(bytes), args)?;
    let mut bits = BitWriter::new(alloc);
    value.write(&mut bits, args)?;
    let mut lines = Printer::lines(alloc);
    value.print(&mut lines, args)?;
    Ok(Told {
        bits,
        lines,
        value: format!(in alloc; "{value:?}")?,
    })
}

fn profile_tier_holds(
    rt: &impl Abort,
    alloc: Global,
    row: Row,
    args: &ProfileArgs,
    bytes: &[u8],
) -> Result<(), Fail>
    requires { args.now.subs ≤ 6 }
{
    let wanted = spelled(alloc, row.fields)?;
    assert_eq!(rt; wanted.bytes.as_slice(), bytes);
    let told = profile_tier_told(alloc, &wanted.bytes, args)?;
    holds(rt, &wanted, row, told)
}

fn hrd_holds(rt: &impl Abort, alloc: Global, row: Row, args: &HrdArgs) -> Result<(), Fail>
    requires { args.now.subs ≤ 6 }
{
    let wanted = spelled(alloc, row.fields)?;
    let told = hrd_told(alloc, &wanted.bytes, args)?;
    holds(rt, &wanted, row, told)
}

fn vui_holds(rt: &impl Abort, alloc: Global, row: Row, subs: u8) -> Result<(), Fail>
    requires { subs ≤ 6 }
{
    let wanted = spelled(alloc, row.fields)?;
    let told = vui_told(alloc, &wanted.bytes, &VuiArgs { subs })?;
    holds(rt, &wanted, row, told)
}

#[test]
fn profile_and_level(rt: HostRuntime) -> Result<(), Fail> {
    let bytes = [0x01, 0x60, 0, 0, 0, 0x90, 0, 0, 0, 0, 0, 0x1E, 0x80];
    let args = ProfileArgs {
        present: true,
        subs: 0,
    };
    profile_tier_holds(&rt, rt.alloc(), rows::profile_and_level(), &args, &bytes)
}

#[test]
fn sub_layer_profile_and_level(rt: HostRuntime) -> Result<(), Fail> {
    let bytes = [
        93, 0x90, 0, 0x01, 0x60, 0, 0, 0, 0x90, 0, 0, 0, 0, 0, 60, 0x80,
    ];
    let args = ProfileArgs {
        present: false,
        subs: 2,
    };
    let row = rows::sub_layer_profile_and_level();
    profile_tier_holds(&rt, rt.alloc(), row, &args, &bytes)
}

const COMMON: HrdArgs = HrdArgs {
    common: true,
    subs: 0,
    nal: false,
    vcl: false,
    sub_pic: false,
};

#[test]
fn hrds(rt: HostRuntime) -> Result<(), Fail> {
    hrd_holds(&rt, rt.alloc(), rows::shortest_hrd(), &COMMON)?;
    hrd_holds(&rt, rt.alloc(), rows::whole_hrd(), &COMMON)
}

#[test]
fn hrd_by_flags_before(rt: HostRuntime) -> Result<(), Fail> {
    let args = HrdArgs {
        common: false,
        subs: 0,
        nal: true,
        vcl: false,
        sub_pic: false,
    };
    hrd_holds(&rt, rt.alloc(), rows::hrd_by_flags_before(), &args)
}

// 0011 and the code of 32 or 31, cut bits, and no bits. A reader that refused stands where it stood.
#[test]
fn hrd_faults(rt: HostRuntime) {
    let rows: [(&[u8], Option<Fault<Limit>>, Option<u64>); 4] = [
        (&[0x30, 0x42], Some(Fault::Breaks(Limit)), Some(3)),
        (&[0x30, 0x40], None, None),
        (&[0x30], Some(Fault::NoBits), Some(3)),
        (&[], Some(Fault::NoBits), None),
    ];
    for (bytes, fault, next) in rows {
        let mut bits = BitReader::new(bytes);
        let answer = Hrd::read(rt.alloc(), &mut bits, &COMMON).err();
        assert_eq!(rt; (answer, bits.u(4).ok()), (fault, next));
    }
}

#[test]
fn vuis(rt: HostRuntime) -> Result<(), Fail> {
    vui_holds(&rt, rt.alloc(), rows::empty_vui(), 0)?;
    vui_holds(&rt, rt.alloc(), rows::whole_vui(), 0)?;
    vui_holds(&rt, rt.alloc(), rows::encoder_vui(), 0)?;
    vui_holds(&rt, rt.alloc(), rows::encoder_hrd(), 1)
}
