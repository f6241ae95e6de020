//! The lines of a unit, of a picture and of its reference picture lists.

ghost use Rattle.std.specs.Prelude.{◌≡◌, ◌++◌, ◌<◌, OnOk};
ghost use Rattle.mv_unit_lines.specs.Lines.{count_text, head_text, list_line, others_text, picture_line, place_text, reference_text, references_text, state_name, stray_text, unit_line};

use crate::lines::{PictureState, Reference};
use crate::names::push_type;
use crate::text::{push, push_number};
use mv_units::UnitHead;
use std::alloc::AllocError;

/// Appends the line of a unit: its number and the byte at which it stands, from 0 on, and its head (7.3.1.2). A stray is a unit
/// whose layer the video parameter set hasn't.
///
/// `AllocError` where memory runs out.
#[tactic(auto, unfolding(crate::specs::Lines::unit_line))]
pub fn push_unit_line(
    out: &mut Vec<u8>,
    unit: u64,
    byte: u64,
    head: UnitHead,
    stray: bool,
) -> Result<(), AllocError>
    ensures { OnOk result (out.new.items ≡ out.old.items ++ unit_line unit byte head stray) }
{
    push_place(out, unit, byte)?;
    push_head(out, head)?;
    push_stray(out, stray)?;
    push(out, "\n")
}

fn push_place(out: &mut Vec<u8>, unit: u64, byte: u64) -> Result<(), AllocError>
    ensures { OnOk result (out.new.items ≡ out.old.items ++ place_text unit byte) }
{
    push(out, "unit ")?;
    push_number(out, unit)?;
    push(out, " at ")?;
    push_number(out, byte)?;
    push(out, ": ")
}

fn push_head(out: &mut Vec<u8>, head: UnitHead) -> Result<(), AllocError>
    ensures { OnOk result (out.new.items ≡ out.old.items ++ head_text head) }
{
    push(out, "layer ")?;
    push_number(out, head.layer)?;
    push(out, " tid ")?;
    push_number(out, head.tid)?;
    push(out, " ")?;
    push_type(out, head.kind)
}

fn push_stray(out: &mut Vec<u8>, stray: bool) -> Result<(), AllocError>
    ensures { OnOk result (out.new.items ≡ out.old.items ++ stray_text stray) }
{
    if !stray {
        return Ok(());
    }
    push(out, " stray")
}

/// Appends the line of a picture: its PicOrderCntVal, or `None` where it has none, and what became of it.
///
/// `AllocError` where memory runs out.
#[tactic(auto, unfolding(crate::specs::Lines::picture_line))]
pub fn push_picture_line(
    out: &mut Vec<u8>,
    count: Option<i32>,
    state: PictureState,
) -> Result<(), AllocError>
    ensures { OnOk result (out.new.items ≡ out.old.items ++ picture_line count state) }
{
    push(out, "  picture count=")?;
    push_count(out, count)?;
    push(out, " state=")?;
    push_state(out, state)?;
    push(out, "\n")
}

fn push_count(out: &mut Vec<u8>, count: Option<i32>) -> Result<(), AllocError>
    ensures { OnOk result (out.new.items ≡ out.old.items ++ count_text count) }
{
    match count {
        Some(count) => push_number(out, count),
        None => push(out, "none"),
    }
}

fn push_state(out: &mut Vec<u8>, state: PictureState) -> Result<(), AllocError>
    ensures { OnOk result (out.new.items ≡ out.old.items ++ state_name state) }
{
    match state {
        PictureState::Start => push(out, "start"),
        PictureState::Decoded => push(out, "decoded"),
        PictureState::Skipped => push(out, "skipped"),
    }
}

/// Appends the line of reference picture list 0 or 1 of a segment (8.3.4): the layer and the PicOrderCntVal of each entry.
///
/// `AllocError` where memory runs out.
#[tactic(auto, unfolding(crate::specs::Lines::list_line))]
pub fn push_list_line(
    out: &mut Vec<u8>,
    list: u8,
    references: &[Reference],
) -> Result<(), AllocError>
    requires { list < 2 }
    ensures { OnOk result (out.new.items ≡ out.old.items ++ list_line list references.now) }
{
    push(out, "  list")?;
    push_number(out, list)?;
    push(out, "=")?;
    push_references(out, references)?;
    push(out, "\n")
}

fn push_references(out: &mut Vec<u8>, references: &[Reference]) -> Result<(), AllocError>
    ensures { OnOk result (out.new.items ≡ out.old.items ++ references_text references.now) }
{
    match references {
        [] => Ok(()),
        [first, more @ ..] => {
            push_reference(out, *first)?;
            push_others(out, more)
        }
    }
}

fn push_others(out: &mut Vec<u8>, references: &[Reference]) -> Result<(), AllocError>
    ensures { OnOk result (out.new.items ≡ out.old.items ++ others_text references.now) }
{
    for reference in references {
        push(out, ",")?;
        push_reference(out, *reference)?;
    }
    Ok(())
}

fn push_reference(out: &mut Vec<u8>, reference: Reference) -> Result<(), AllocError>
    ensures { OnOk result (out.new.items ≡ out.old.items ++ reference_text reference) }
{
    push_number(out, reference.layer)?;
    push(out, ":")?;
    push_number(out, reference.count)
}
