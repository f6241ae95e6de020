ghost use Rattle.std.specs.Prelude.{◌≡◌, ℕ, ◌≤◌, [], get_or, length, IfOk};

use super::*;
use std::alloc::{AllocError, Global};
use std::test::Fail;

// Four layers, of which the last refers to the two before it, and these to the first, and a fifth that refers to none.
static IDS: &[u8] = &[0, 2, 3, 5, 9];

static VIEW_ORDERS: &[u8] = &[0, 2, 1, 3, 4];

static VIEW_IDS: &[u16] = &[7, 4, 9, 2, 1];

static FLAGS: &[&[u8]] = &[&[1], &[1, 0], &[0, 1, 1], &[0, 0, 0, 0]];

// A layer: its nuh_layer_id, view order index and view identifier, its direct reference layers, and it with all its reference
// layers.
type LayerRow = (u8, u8, u32, &'static [u8], &'static [u8]);

static LAYERS: &[LayerRow] = &[
    (0, 0, 7, &[], &[0]),
    (2, 2, 9, &[0], &[0, 2]),
    (3, 1, 4, &[0], &[0, 3]),
    (5, 3, 2, &[2, 3], &[0, 2, 3, 5]),
    (9, 4, 1, &[], &[9]),
];

fn dependencies(alloc: Global) -> Result<Vec<LayerDependencies>, AllocError> {
    let mut all = Vec::new(alloc);
    for row in FLAGS {
        let direct_dependency_flag = Vec::from_slice(alloc, row)?;
        all.push(LayerDependencies {
            direct_dependency_flag,
        })?;
    }
    Ok(all)
}

fn five_layers(alloc: Global) -> Result<Vec<LayerInfo>, AllocError> {
    let view_id_val = Some(Vec::from_slice(alloc, VIEW_IDS)?);
    let direct_dependency_flag = dependencies(alloc)?;
    let coded = CodedLayers {
        layer_id_in_nuh: IDS,
        view_order_index: VIEW_ORDERS,
        view_id_val: &view_id_val,
        direct_dependency_flag: &direct_dependency_flag,
    };
    layer_infos(alloc, &coded)
}

fn is_layer(layer: &LayerInfo, row: &LayerRow) -> bool {
    layer.layer == row.0
        && layer.view_order == row.1
        && layer.view_id == row.2
        && layer.directs.as_slice() == row.3
        && layer.closure.as_slice() == row.4
}

fn are_layers(layers: &[LayerInfo], rows: &[LayerRow]) -> bool {
    layers.len() == rows.len()
        && layers
            .iter()
            .zip(rows)
            .all(|(layer, row)| is_layer(layer, row))
}

#[test]
fn layers_are_derived(rt: HostRuntime) -> Result<(), Fail> {
    let layers = five_layers(rt.alloc())?;
    assert!(rt; are_layers(&layers, LAYERS));
    assert_eq!(rt; layer_index(&layers, 5), Some(3));
    assert!(rt; layer_index(&layers, 4).is_none());
    assert!(rt; layer_named(&layers, 9).is_some());
    assert_eq!(rt; independent_layers(&layers), 2);
    Ok(())
}

// A layer set by its flags, and which rules it breaks: it lacks layer 0, it lacks a reference, it has an unknown layer.
type RuleRow = (&'static [u8], bool, bool, bool);

static RULES: &[RuleRow] = &[
    (&[1, 0, 1, 1, 0, 1], false, false, false),
    (&[1, 0, 0, 0, 0, 0, 0, 0, 0, 1], false, false, false),
    (&[0, 0, 0, 0, 0, 0, 0, 0, 0, 1], true, false, false),
    (&[1, 0, 0, 1, 0, 1], false, true, false),
    (&[1, 1], false, false, true),
    (&[0, 1, 1], true, true, true),
];

fn layer_set(alloc: Global, flags: &[u8]) -> Result<LayerSet, AllocError>
    ensures { IfOk result (λ s. s ≡ flags.now) }
{
    Ok(LayerSet {
        layer_id_included_flag: Vec::from_slice(alloc, flags)?,
    })
}

fn breaks_as(alloc: Global, layers: &[LayerInfo], row: &RuleRow) -> Result<bool, AllocError> {
    let sets = vec![in alloc; layer_set(alloc, &[1])?, layer_set(alloc, row.0)?]?;
    Ok(
        any_lacks_base(&sets) == row.1
            && any_not_closed(layers, &sets) == row.2
            && any_has_unknown(alloc, layers, &sets)? == row.3,
    )
}

#[test]
fn rules_are_tried(rt: HostRuntime) -> Result<(), Fail> {
    let layers = five_layers(rt.alloc())?;
    for row in RULES {
        assert!(rt; breaks_as(rt.alloc(), &layers, row)?);
    }
    Ok(())
}

// An output layer set: its number, its own layer set less 1, its flags and the kind without flags; then its layers, outputs and
// necessary layers. Layer set 1 has layers 0 and 2, layer set 2 all but the last.
type SetRow = (
    usize,
    Option<u8>,
    Option<&'static [u8]>,
    u8,
    &'static [u8],
    &'static [u8],
    &'static [u8],
);

static SETS: &[SetRow] = &[
    (0, None, None, 0, &[0], &[0], &[0]),
    (1, None, None, 0, &[0, 2], &[0, 2], &[0, 2]),
    (2, None, None, 1, &[0, 2, 3, 5], &[5], &[0, 2, 3, 5]),
    (
        2,
        None,
        Some(&[0, 1, 0, 0]),
        2,
        &[0, 2, 3, 5],
        &[2],
        &[0, 2],
    ),
    (
        3,
        Some(1),
        Some(&[0, 0, 1, 0]),
        0,
        &[0, 2, 3, 5],
        &[3],
        &[0, 3],
    ),
    (4, Some(0), Some(&[0, 0]), 0, &[0, 2], &[], &[]),
];

fn two_sets(alloc: Global) -> Result<Vec<LayerSet>, AllocError>
    ensures { IfOk result (λ v. (k : ℕ) → length (get_or v.items k []) ≤ 63) }
{
    let mut sets = Vec::new(alloc);
    sets.push(layer_set(alloc, &[1, 0, 1, 0, 0, 0])?)?;
    sets.push(layer_set(alloc, &[1, 0, 1, 1, 0, 1])?)?;
    Ok(sets)
}

fn ols(alloc: Global, infos: &[LayerInfo], row: &SetRow) -> Result<OlsLayers, AllocError> {
    let sets = two_sets(alloc)?;
    let layers = ols_layers(alloc, &sets, row.0, row.1)?;
    let flags = match row.2 {
        Some(flags) => Some(Vec::from_slice(alloc, flags)?),
        None => None,
    };
    let outputs = ols_outputs(alloc, &layers, &flags, row.3)?;
    ols_of(alloc, infos, layers, outputs)
}

fn is_set(set: &OlsLayers, row: &SetRow) -> bool {
    set.layers.as_slice() == row.4
        && set.outputs.as_slice() == row.5
        && set.necessary.as_slice() == row.6
}

#[test]
fn output_layer_sets_are_derived(rt: HostRuntime) -> Result<(), Fail> {
    let layers = five_layers(rt.alloc())?;
    for row in SETS {
        let set = ols(rt.alloc(), &layers, row)?;
        assert!(rt; is_set(&set, row));
    }
    Ok(())
}

// A set without outputs keeps layer 0.
#[test]
fn layers_are_kept(rt: HostRuntime) -> Result<(), Fail> {
    let layers = five_layers(rt.alloc())?;
    let set = Ols::new(ols(rt.alloc(), &layers, &SETS[4])?, Some(2));
    assert!(rt; set.keeps(0) && !set.keeps(2) && set.keeps(3) && !set.keeps(5));
    assert_eq!(rt; set.reorder, Some(2));
    let none = Ols::new(ols(rt.alloc(), &layers, &SETS[5])?, None);
    assert!(rt; none.keeps(0) && !none.keeps(2));
    Ok(())
}

#[test]
fn absent_fields_have_values(rt: HostRuntime) -> Result<(), Fail> {
    let coded = Some(Vec::from_slice(rt.alloc(), &[2, 4])?);
    assert_eq!(rt; sub_layers_at(6, &coded, 1), 4);
    assert_eq!(rt; sub_layers_at(6, &None, 1), 6);
    assert_eq!(rt; rep_format_at(5, &coded, 2), 4);
    assert_eq!(rt; rep_format_at(1, &None, 2), 1);
    assert_eq!(rt; rep_format_at(1, &coded, 0), 0);
    assert_eq!(rt; poc_lsb_not_present_at(&[None, Some(1)], 2), 1);
    assert_eq!(rt; poc_lsb_not_present_at(&[None, Some(1)], 1), 0);
    Ok(())
}
