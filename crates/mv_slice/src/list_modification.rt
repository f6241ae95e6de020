//! ref_pic_lists_modification (7.3.6.2): read, and printed.

ghost use Rattle.std.specs.Prelude.{◌≡◌, ◌≤◌, OnOk};
ghost use Rattle.mv_syntax.specs.Table.{Valid};
ghost use Rattle.mv_syntax.specs.Printed.{printed};
ghost use Rattle.mv_fields.specs.Reading.{ReadsBy};
ghost use Rattle.mv_slice.specs.ListModification.{list_modification};

use crate::active_entries::ActiveEntries;
use mv_bits::BitReader;
use mv_fields::{Fault, Printer, clog2, coded_set, u8_if, u8s_if};
use mv_rules::Rule;
use std::alloc::{AllocError, Global};
use std::marker::Model;

/// ref_pic_lists_modification (7.3.6.2).
#[derive(Debug, Drop)]
pub struct ListModification {
    pub ref_pic_list_modification_flag_l0: Option<u8>,
    pub list_entry_l0: Option<Vec<u8>>,
    pub ref_pic_list_modification_flag_l1: Option<u8>,
    pub list_entry_l1: Option<Vec<u8>>,
}

impl Model for ListModification {
    ghost use Rattle.std.specs.Prelude.{option_map};
    ghost use Rattle.mv_slice.specs.ListModification.{ListModificationValue};

    ghost Value = { ListModificationValue };

    ghost view = { λ s. record {
      ref_pic_list_modification_flag_l0 = s.ref_pic_list_modification_flag_l0;
      list_entry_l0 = option_map (λ v. v.items) s.list_entry_l0;
      ref_pic_list_modification_flag_l1 = s.ref_pic_list_modification_flag_l1;
      list_entry_l1 = option_map (λ v. v.items) s.list_entry_l1;
    } };
}

/// The modification of both lists. An entry, which names one of at most 256 pictures, has at most 8 bits.
#[tactic(auto, unfolding(crate::specs::ListModification::list_modification))]
pub(crate) fn list_modification_of(
    alloc: Global,
    bits: &mut BitReader,
    present: bool,
    b: bool,
    num_pic_total_curr: u32,
    active: ActiveEntries,
) -> Result<ListModification, Fault<Rule>>
    requires { num_pic_total_curr ≤ 256 }
    ensures { ReadsBy (list_modification present b num_pic_total_curr active.l0 active.l1) bits.old bits.new result }
{
    let width = clog2(num_pic_total_curr, 8);
    let flag_l0 = u8_if(bits, present, 1)?;
    let list_entry_l0 = u8s_if(alloc, bits, coded_set(flag_l0), active.l0, width)?;
    let flag_l1 = u8_if(bits, present && b, 1)?;
    let list_entry_l1 = u8s_if(alloc, bits, coded_set(flag_l1), active.l1, width)?;
    Ok(ListModification {
        ref_pic_list_modification_flag_l0: flag_l0,
        list_entry_l0,
        ref_pic_list_modification_flag_l1: flag_l1,
        list_entry_l1,
    })
}

#[tactic(auto, unfolding(crate::specs::ListModification::list_modification))]
pub(crate) fn print_list_modification(
    out: &mut Printer,
    v: &ListModification,
    present: bool,
    b: bool,
    num_pic_total_curr: u32,
    active: ActiveEntries,
) -> Result<(), AllocError>
    requires few { num_pic_total_curr ≤ 256 }
    requires valid { Valid (list_modification present b num_pic_total_curr active.l0 active.l1) v.now }
    ensures { OnOk result (out.new ≡ printed (list_modification present b num_pic_total_curr active.l0 active.l1) v.now out.old) }
{
    let width = clog2(num_pic_total_curr, 8);
    let of_l0 = coded_set(v.ref_pic_list_modification_flag_l0);
    let of_l1 = coded_set(v.ref_pic_list_modification_flag_l1);
    out.flag_if(
        present,
        "ref_pic_list_modification_flag_l0",
        v.ref_pic_list_modification_flag_l0,
    )?;
    out.u8s_if(
        of_l0,
        "list_entry_l0",
        0,
        active.l0,
        width,
        &v.list_entry_l0,
    )?;
    out.flag_if(
        present && b,
        "ref_pic_list_modification_flag_l1",
        v.ref_pic_list_modification_flag_l1,
    )?;
    out.u8s_if(
        of_l1,
        "list_entry_l1",
        0,
        active.l1,
        width,
        &v.list_entry_l1,
    )
}
