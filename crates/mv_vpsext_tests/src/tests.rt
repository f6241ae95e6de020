//! Extensions that are read, written again and shown, and the output layer sets that they describe.

ghost use Rattle.std.specs.Prelude.{◌≡◌, ◌%◌, [], ◌∷◌, length, IfOk, OnOk};
ghost use Rattle.mv_syntax.specs.Table.{Valid};
ghost use Rattle.mv_vpsext.specs.Args.{AreVpsArgs};
ghost use Rattle.mv_vpsext.specs.VpsExt.{vps_extension};

use crate::field_tests::*;
use mv_bits::{BitReader, BitWriter};
use mv_fields::Printer;
use mv_layers::{LayerSet, Ols};
use mv_rules::ReadFault;
use mv_vpsext::*;
use std::alloc::{AllocError, Global};
use std::test::Fail;

// The extension of a stream of two views, vps_extension2_flag and the trailing bits.
static TWO_VIEWS: &[u8] = &[
    0x5D, 0x20, 0x00, 0x04, 0x59, 0x70, 0x60, 0x20, 0x00, 0x00, 0x09, 0x00, 0x00, 0x00, 0x00, 0x00,
    0x05, 0xD8, 0xD0, 0x04, 0x00, 0x04, 0x0A, 0x00, 0x89, 0x7D, 0x20,
];

fn layer_set(alloc: Global, flags: &[u8]) -> Result<LayerSet, AllocError>
    ensures { IfOk result (λ s. s ≡ flags.now) }
{
    Ok(LayerSet {
        layer_id_included_flag: Vec::from_slice(alloc, flags)?,
    })
}

// Layer set 1 has both layers.
fn two_view_sets(alloc: Global) -> Result<Vec<LayerSet>, AllocError>
    ensures { IfOk result (λ v. v.items ≡ (1 ∷ 1 ∷ []) ∷ []) }
{
    let mut sets = Vec::new(alloc);
    sets.push(layer_set(alloc, &[1, 1])?)?;
    Ok(sets)
}

// Two layers.
fn two_views(sets: &[LayerSet]) -> VpsArgs<'_>
    requires { sets.now ≡ (1 ∷ 1 ∷ []) ∷ [] }
    ensures { AreVpsArgs result }
{
    VpsArgs {
        vps_max_layers_minus1: 1,
        vps_max_sub_layers_minus1: 0,
        vps_max_layer_id: 1,
        vps_num_layer_sets_minus1: 1,
        layer_id_included_flag: sets,
    }
}

// Layer set 1 has layers 0 and 2, and layer set 2 has 0, 2, 3 and 5.
fn diamond_sets(alloc: Global) -> Result<Vec<LayerSet>, AllocError>
    ensures { IfOk result (λ v. v.items ≡ (1 ∷ 0 ∷ 1 ∷ 0 ∷ 0 ∷ 0 ∷ []) ∷ (1 ∷ 0 ∷ 1 ∷ 1 ∷ 0 ∷ 1 ∷ []) ∷ []) }
{
    let mut sets = Vec::new(alloc);
    sets.push(layer_set(alloc, &[1, 0, 1, 0, 0, 0])?)?;
    sets.push(layer_set(alloc, &[1, 0, 1, 1, 0, 1])?)?;
    Ok(sets)
}

// Four layers.
fn diamond(sets: &[LayerSet]) -> VpsArgs<'_>
    requires { sets.now ≡ (1 ∷ 0 ∷ 1 ∷ 0 ∷ 0 ∷ 0 ∷ []) ∷ (1 ∷ 0 ∷ 1 ∷ 1 ∷ 0 ∷ 1 ∷ []) ∷ [] }
    ensures { AreVpsArgs result }
{
    VpsArgs {
        vps_max_layers_minus1: 3,
        vps_max_sub_layers_minus1: 1,
        vps_max_layer_id: 5,
        vps_num_layer_sets_minus1: 2,
        layer_id_included_flag: sets,
    }
}

// What fields spell: their payload, with trailing bits, and the text that shows them. Each stands on a line of its own: its bits,
// and behind a blank, where a line shows it, that line.
fn spelled(alloc: Global, fields: &str) -> Result<(Vec<u8>, Vec<u8>), AllocError> {
    let mut bits = BitWriter::new(alloc);
    let mut text = Vec::new(alloc);
    let mut shown = false;
    for c in fields.as_bytes() {
        match *c {
            b'\n' => {
                if shown {
                    text.push(b'\n')?;
                }
                shown = false;
            }
            b' ' => {
                text.extend_from_slice(b"  ")?;
                shown = true;
            }
            c if shown => text.push(c)?,
            c => bits.u(1, u64::from(c == b'1'))?,
        }
    }
    bits.trailing()?;
    Ok((bits.into_bytes(), text))
}

#[test]
fn fields_spell_two_views(rt: HostRuntime) -> Result<(), Fail> {
    let (payload, _text) = spelled(rt.alloc(), two_view_fields())?;
    assert_eq!(rt; payload.as_slice(), TWO_VIEWS);
    Ok(())
}

// Puts vps_extension2_flag, 0, and trailing bits.
fn put_ending(out: &mut BitWriter) -> Result<(), AllocError>
    ensures { OnOk result (length out.new % 8 ≡ 0) }
{
    out.u(1, 0)?;
    out.trailing()
}

// Whether the extension is written as these bytes, with vps_extension2_flag and trailing bits behind it.
fn is_written(alloc: Global, value: &VpsExt, args: &VpsArgs, bytes: &[u8]) -> bool
    requires args { AreVpsArgs args.now }
    requires valid { Valid (vps_extension args.now) value.now }
{
    let mut out = BitWriter::new(alloc);
    if value.write(&mut out, args).is_err() {
        return false;
    }
    match put_ending(&mut out) {
        Ok(()) => out.into_bytes().as_slice() == bytes,
        Err(_) => false,
    }
}

// Whether the extension is shown as this text.
fn is_shown(alloc: Global, value: &VpsExt, args: &VpsArgs, text: &[u8]) -> bool
    requires args { AreVpsArgs args.now }
    requires valid { Valid (vps_extension args.now) value.now }
{
    let mut out = Printer::lines(alloc);
    match value.print(&mut out, args) {
        Ok(()) => out.text() == text,
        Err(_) => false,
    }
}

// An output layer set: its layers, outputs, necessary layers and reorder number.
type SetRow = (&'static [u8], &'static [u8], &'static [u8], Option<u8>);

fn is_set(set: &Ols, row: &SetRow) -> bool {
    set.layers.as_slice() == row.0
        && set.outputs.as_slice() == row.1
        && set.necessary.as_slice() == row.2
        && set.reorder == row.3
}

fn are_sets(sets: &[Ols], rows: &[SetRow]) -> bool {
    sets.len() == rows.len() && sets.iter().zip(rows).all(|(set, row)| is_set(set, row))
}

// Whether what is read is written as it stands, whether it is shown as this text, and whether it describes these output layer sets;
// or why it isn't read. The tests read here alone, since the check of a function takes long at each place where it lets go of an
// extension.
fn comes_back(
    alloc: Global,
    args: &VpsArgs,
    bytes: &[u8],
    text: &[u8],
    rows: &[SetRow],
) -> Result<[bool; 3], ReadFault>
    requires { AreVpsArgs args.now }
{
    let mut bits = BitReader::new(bytes);
    match VpsExt::read(alloc, &mut bits, args) {
        Ok((value, derived)) => Ok([
            is_written(alloc, &value, args, bytes),
            is_shown(alloc, &value, args, text),
            are_sets(&derived.sets, rows),
        ]),
        Err(fault) => Err(fault),
    }
}

static TWO_SETS: &[SetRow] = &[
    (&[0], &[0], &[0], None),
    (&[0, 1], &[0, 1], &[0, 1], Some(0)),
];

#[test]
fn two_views_come_back(rt: HostRuntime) -> Result<(), Fail> {
    let sets = two_view_sets(rt.alloc())?;
    let args = two_views(&sets);
    let (payload, text) = spelled(rt.alloc(), two_view_fields())?;
    assert_eq!(rt;
        comes_back(rt.alloc(), &args, &payload, &text, TWO_SETS),
        Ok([true, true, true])
    );
    Ok(())
}

static FOUR_SETS: &[SetRow] = &[
    (&[0], &[0], &[0], None),
    (&[0, 2], &[2], &[0, 2], Some(2)),
    (&[0, 2, 3, 5], &[5], &[0, 2, 3, 5], Some(3)),
    (&[0, 2, 3, 5], &[2], &[0, 2], Some(4)),
];

#[test]
fn a_diamond_comes_back(rt: HostRuntime) -> Result<(), Fail> {
    let sets = diamond_sets(rt.alloc())?;
    let args = diamond(&sets);
    let (payload, text) = spelled(rt.alloc(), diamond_fields())?;
    assert_eq!(rt;
        comes_back(rt.alloc(), &args, &payload, &text, FOUR_SETS),
        Ok([true, true, true])
    );
    Ok(())
}
