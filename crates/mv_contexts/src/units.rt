//! Slice segment headers, from the bytes of their units.

ghost use Rattle.std.specs.Prelude.{◌≡◌, Some, false, true, drop, take, Ok, option_map, IfOk, IfErr};
ghost use Rattle.mv_units.specs.Escapes.{payload};
ghost use Rattle.mv_syntax.specs.Bits.{byte_bits};
ghost use Rattle.mv_syntax.specs.Table.{Valid};
ghost use Rattle.mv_slice.specs.Context.{Fits};
ghost use Rattle.mv_slice.specs.Header.{ReadsStart};
ghost use Rattle.mv_slice.specs.Opening.{opening};
ghost use Rattle.mv_slice.specs.Peek.{peek};
ghost use Rattle.mv_slice.specs.Slice.{slice_header};
ghost use Rattle.mv_pictures.specs.Items.{opening_of};
ghost use Rattle.mv_pictures.specs.Kinds.{is_slice_kind};
ghost use Rattle.mv_contexts.specs.Units.{header_in, IsWhy, IsWhyNoOpening, PeeksUnit};

use memchr::memmem;
use mv_bytestream::unescape;
use mv_rules::{ReadFault, Rule};
use mv_slice::{SliceContext, SliceHead, SlicePeek, SliceRead, peek_slice, read_slice_start};
use mv_units::UnitHead;
use std::alloc::Global;

/// The first fields of a header end in so many bytes of its unit.
const PEEKED: usize = 16;

/// Nearly every header ends in so many bytes of its unit.
const USUAL: usize = 128;

/// An emulation_prevention_three_byte behind the two zero bytes that it stands behind (7.3.1.1).
const PREVENTED: [u8; 3] = [0, 0, 3];

// Whether these bytes may have an emulation_prevention_three_byte. Where they have none, the payload is what stands behind the
// head.
fn has_prevented(unit: &[u8]) -> bool
    ensures { result ≡ false → payload unit.now ≡ drop 2 unit.now }
{
    match memmem::find(unit, &PREVENTED) {
        Some(_) => true,
        None => false,
    }
}

// What stands behind the head.
fn behind_head(unit: &[u8]) -> &[u8]
    ensures { result.now ≡ drop 2 unit.now }
{
    if unit.len() < 2 { &[] } else { &unit[2..] }
}

// At most so many first bytes.
fn first_bytes(unit: &[u8], most: usize) -> &[u8]
    ensures { result.now ≡ take most unit.now }
{
    if unit.len() <= most {
        unit
    } else {
        &unit[..most]
    }
}

// The first fields, from the first bytes of a unit.
fn peek_start(alloc: Global, head: UnitHead, start: &[u8]) -> Result<SlicePeek, ReadFault>
    ensures { PeeksUnit (opening head.kind) (byte_bits (payload start.now)) result }
{
    if !has_prevented(start) {
        return peek(head, behind_head(start));
    }
    match unescape(alloc, start) {
        Ok(payload) => peek(head, &payload),
        Err(_) => Err(ReadFault::Memory),
    }
}

// The first fields, from a payload.
fn peek(head: UnitHead, payload: &[u8]) -> Result<SlicePeek, ReadFault>
    ensures { PeeksUnit (opening head.kind) (byte_bits payload.now) result }
{
    match peek_slice(head, payload) {
        Ok(peek) => Ok(peek),
        Err(rule) => Err(ReadFault::Refused(rule)),
    }
}

/// The first fields of the header of a slice unit (7.3.6.1), up to the id of its picture parameter set, from the unit's bytes.
///
/// `Refused` with `SliceSyntax` where these fields can't be read, or the id is above 63. `Memory` where memory runs out: none is
/// taken where they end in the first 16 bytes of the unit, and these have no emulation_prevention_three_byte.
pub fn peek_unit(alloc: Global, head: UnitHead, unit: &[u8]) -> Result<SlicePeek, ReadFault>
    requires slice { is_slice_kind head.kind ≡ true }
    ensures fields { IfOk result (λ told. option_map peek (opening_of head unit.now) ≡ Some told) }
    ensures refused { IfErr result (IsWhyNoOpening (opening_of head unit.now)) }
{
    match peek_start(alloc, head, first_bytes(unit, PEEKED)) {
        Err(ReadFault::Refused(_)) => peek_start(alloc, head, unit),
        answer => answer,
    }
}

// The header, from the first bytes of a unit, if it ends there.
fn read_start(
    alloc: Global,
    ctx: &SliceContext,
    head: UnitHead,
    start: &[u8],
) -> Result<Option<SliceRead>, ReadFault>
    requires fits { Fits ctx.now }
    requires layer { head.layer ≡ ctx.now.layer }
    ensures { ReadsStart (slice_header ctx.now head.kind) (byte_bits (payload start.now)) result }
{
    if !has_prevented(start) {
        return read_slice_start(alloc, ctx, head, behind_head(start));
    }
    match unescape(alloc, start) {
        Ok(payload) => read_slice_start(alloc, ctx, head, &payload),
        Err(_) => Err(ReadFault::Memory),
    }
}

// The header, from all bytes of a unit.
fn read_whole(
    alloc: Global,
    ctx: &SliceContext,
    head: UnitHead,
    unit: &[u8],
) -> Result<SliceHead, ReadFault>
    requires fits { Fits ctx.now }
    requires layer { head.layer ≡ ctx.now.layer }
    ensures header { IfOk result (λ h. header_in ctx.now head unit.now ≡ Ok h) }
    ensures valid { IfOk result (λ h. Valid (slice_header ctx.now head.kind) h) }
    ensures refused { IfErr result (IsWhy (header_in ctx.now head unit.now)) }
{
    match read_start(alloc, ctx, head, unit) {
        Ok(Some(read)) => Ok(read.head),
        Ok(None) => Err(ReadFault::Refused(Rule::SliceSyntax)),
        Err(fault) => Err(fault),
    }
}

/// The header of a slice unit (7.3.6.1, F.7.3.6.1), from the unit's bytes.
///
/// `Refused` with the first rule that a field breaks, all fields before it being read: `CrossLayerBla` where
/// cross_layer_bla_flag is 1, `SliceSyntax` where a field is past its limit; with `SliceSyntax` too where no rule is broken and the
/// unit's payload doesn't begin with a header. `Memory` where memory runs out: beyond what the header's own fields take, none is
/// taken where the header ends in the first 128 bytes of the unit, and these have no emulation_prevention_three_byte.
pub fn read_unit(
    alloc: Global,
    ctx: &SliceContext,
    head: UnitHead,
    unit: &[u8],
) -> Result<SliceHead, ReadFault>
    requires fits { Fits ctx.now }
    requires layer { head.layer ≡ ctx.now.layer }
    ensures header { IfOk result (λ h. header_in ctx.now head unit.now ≡ Ok h) }
    ensures valid { IfOk result (λ h. Valid (slice_header ctx.now head.kind) h) }
    ensures refused { IfErr result (IsWhy (header_in ctx.now head unit.now)) }
{
    match read_start(alloc, ctx, head, first_bytes(unit, USUAL)) {
        Ok(Some(read)) => Ok(read.head),
        Ok(None) => read_whole(alloc, ctx, head, unit),
        Err(fault) => Err(fault),
    }
}
