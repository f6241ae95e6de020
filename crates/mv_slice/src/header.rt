//! The header of a slice segment at the head of its payload: read, and written.

ghost use Rattle.std.specs.Prelude.{◌≡◌, ◌≤◌, ◌<◌, ◌*◌, ◌%◌, ◌^◌, ◌++◌, [], Ok, Err, length, IfOk, OnOk, OnErr};
ghost use Rattle.mv_rules.specs.declared.rule.Rule.TheVariants.{SliceSyntax};
ghost use Rattle.mv_syntax.specs.Bits.{short, byte_bits, trailing_bits};
ghost use Rattle.mv_syntax.specs.Cursor.{place};
ghost use Rattle.mv_syntax.specs.Table.{Valid, Cut, bits_of};
ghost use Rattle.mv_syntax.specs.inner.Reader.{behind};
ghost use Rattle.mv_syntax.specs.Lines.{lines as lines_of, text_of};
ghost use Rattle.mv_syntax.specs.Printed.{lines};
ghost use Rattle.mv_fields.specs.Reading.{ReadsBy, ReadsWhole};
ghost use Rattle.mv_fields.specs.Output.{IsText, text_in};
ghost use Rattle.mv_slice.specs.Context.{Fits};
ghost use Rattle.mv_slice.specs.Header.{BeginsWith, ReadsStart};
ghost use Rattle.mv_slice.specs.Slice.{slice_header};

use crate::context::SliceContext;
use crate::slice::{SliceHead, fields_of, print_fields};
use mv_bits::{BitReader, NoBits};
use mv_fields::{Fault, Printer};
use mv_rules::{ReadFault, Rule};
use mv_units::UnitHead;
use std::alloc::{AllocError, Global};

/// A header that was read.
#[derive(Debug, Drop)]
pub struct SliceRead {
    pub head: SliceHead,
    /// How many bytes it has, with its alignment: the slice segment's data follow.
    pub bytes: u32,
}

/// Takes the alignment, byte_alignment() (7.3.2.12): a one bit, and zeros up to the end of the byte.
fn take_alignment(bits: &mut BitReader) -> Result<(), NoBits>
    requires within { length bits.old.left ≤ bits.old.total }
    requires few { place bits.old < 2 ^ 64 }
    requires bytes { bits.old.total % 8 ≡ 0 }
    ensures there { OnOk result (behind (trailing_bits (place bits.old)) bits.old.left ≡ Ok bits.new.left) }
    ensures total { OnOk result (bits.new.total ≡ bits.old.total) }
    ensures whole { OnOk result (length bits.new.left % 8 ≡ 0) }
    ensures not_there { OnErr result (behind (trailing_bits (place bits.old)) bits.old.left ≡ Err short) }
{
    let zeros = 7 - (bits.place() % 8) as u8;
    let value = bits.u(zeros + 1)?;
    if value != 1 << zeros {
        return Err(NoBits);
    }
    Ok(())
}

/// Reads a whole header, with its alignment, from the first bit on.
#[tactic(auto, unfolding(crate::specs::Slice::slice_header))]
fn header_of(
    alloc: Global,
    bits: &mut BitReader,
    ctx: &SliceContext,
    nal_unit_type: u8,
) -> Result<SliceHead, Fault<Rule>>
    requires fits { Fits ctx.now }
    requires first { bits.old.total ≡ length bits.old.left }
    requires bytes { bits.old.total % 8 ≡ 0 }
    ensures fills { ReadsBy (slice_header ctx.now nal_unit_type) bits.old bits.new result }
    ensures whole { OnOk result (length bits.new.left % 8 ≡ 0) }
{
    let head = fields_of(alloc, bits, ctx, nal_unit_type)?;
    take_alignment(bits)?;
    Ok(head)
}

/// Reads the header of a slice segment from the first bytes of the segment's payload (7.3.6.1, F.7.3.6.1). What is answered is so
/// whatever bytes follow.
///
/// `None` where no header stands there and no rule is broken: it goes on behind these bytes, or never comes. `Refused` with the
/// first rule that a field breaks, all fields before it being read: `CrossLayerBla` where cross_layer_bla_flag is 1, `SliceSyntax`
/// where a field is past its limit. `Memory` where memory runs out.
pub fn read_slice_start(
    alloc: Global,
    ctx: &SliceContext,
    head: UnitHead,
    bytes: &[u8],
) -> Result<Option<SliceRead>, ReadFault>
    requires fits { Fits ctx.now }
    requires layer { head.layer ≡ ctx.now.layer }
    ensures { ReadsStart (slice_header ctx.now head.kind) (byte_bits bytes.now) result }
{
    let mut bits = BitReader::new(bytes);
    match header_of(alloc, &mut bits, ctx, head.kind) {
        Ok(header) => Ok(Some(SliceRead {
            head: header,
            bytes: (bits.place() / 8) as u32,
        })),
        Err(Fault::NoBits) => Ok(None),
        Err(Fault::Breaks(rule)) => Err(ReadFault::Refused(rule)),
        Err(Fault::Memory) => Err(ReadFault::Memory),
    }
}

/// Reads the header of a slice segment at the head of the segment's payload (7.3.6.1, F.7.3.6.1).
///
/// `Refused` with the first rule that a field breaks, all fields before it being read: `CrossLayerBla` where
/// cross_layer_bla_flag is 1, `SliceSyntax` where a field is past its limit; with `SliceSyntax` too where no rule is broken
/// and the payload doesn't begin with a header. `Memory` where memory runs out.
pub fn read_slice(
    alloc: Global,
    ctx: &SliceContext,
    head: UnitHead,
    payload: &[u8],
) -> Result<SliceRead, ReadFault>
    requires fits { Fits ctx.now }
    requires layer { head.layer ≡ ctx.now.layer }
    ensures { ReadsWhole (BeginsWith (slice_header ctx.now head.kind) (byte_bits payload.now)) (Cut (slice_header ctx.now head.kind) (byte_bits payload.now)) SliceSyntax result }
{
    match read_slice_start(alloc, ctx, head, payload) {
        Ok(Some(read)) => Ok(read),
        Ok(None) => Err(ReadFault::Refused(Rule::SliceSyntax)),
        Err(fault) => Err(fault),
    }
}

/// The header of a slice segment, with its alignment (7.3.6.1, F.7.3.6.1).
///
/// `AllocError` where memory runs out.
#[tactic(auto, unfolding(crate::specs::Slice::slice_header))]
pub fn write_slice(
    alloc: Global,
    ctx: &SliceContext,
    head: UnitHead,
    value: &SliceHead,
) -> Result<Vec<u8>, AllocError>
    requires fits { Fits ctx.now }
    requires layer { head.layer ≡ ctx.now.layer }
    requires valid { Valid (slice_header ctx.now head.kind) value.now }
    ensures { IfOk result (λ bytes. byte_bits bytes.items ≡ bits_of (slice_header ctx.now head.kind) value.now) }
{
    let mut out = Printer::bits(alloc);
    print_fields(alloc, &mut out, ctx, head.kind, value)?;
    out.end(&None)?;
    Ok(out.into_bytes())
}

/// Appends the lines of a slice segment header to a text: one for each coded field, in coded order.
///
/// `AllocError` where memory runs out.
#[tactic(auto, unfolding(crate::specs::Slice::slice_header))]
pub fn show_slice(
    alloc: Global,
    out: &mut Printer,
    ctx: &SliceContext,
    head: UnitHead,
    value: &SliceHead,
) -> Result<(), AllocError>
    requires fits { Fits ctx.now }
    requires layer { head.layer ≡ ctx.now.layer }
    requires text { IsText out.old }
    requires valid { Valid (slice_header ctx.now head.kind) value.now }
    ensures { OnOk result (out.new ≡ lines (text_in out.old ++ text_of (lines_of (slice_header ctx.now head.kind) value.now)) []) }
{
    print_fields(alloc, out, ctx, head.kind, value)
}
