//! The payload of a video parameter set: read, written and shown.

ghost use Rattle.std.specs.Prelude.{◌≡◌, ◌≤◌, [], ◌++◌, length, IfOk, OnOk};
ghost use Rattle.mv_syntax.specs.Bits.{byte_bits};
ghost use Rattle.mv_syntax.specs.Lines.{text_of};
ghost use Rattle.mv_syntax.specs.Payload.{ReadsPayload, CutPayload, payload_bits, payload_lines};
ghost use Rattle.mv_syntax.specs.inner.PayloadReader.{read_payload};
ghost use Rattle.mv_syntax.specs.Printed.{lines};
ghost use Rattle.mv_syntax.specs.inner.Filling.{FillsPayload};
ghost use Rattle.mv_rules.specs.declared.rule.Rule.TheVariants.{VpsSyntax};
ghost use Rattle.mv_fields.specs.Faults.{means};
ghost use Rattle.mv_fields.specs.Output.{IsText, text_in};
ghost use Rattle.mv_fields.specs.Reading.{ReadsWhole};
ghost use Rattle.mv_vps.specs.Base.{args_of};
ghost use Rattle.mv_vps.specs.Vps.{vps, has_tail, described, ValidVps};

use crate::extension::has_vui;
use crate::vps::{Vps, fields_of, print_fields};
use mv_bits::BitReader;
use mv_fields::{Fault, MAX_BYTES, Printer, coded_set, payload_end_of};
use mv_rules::{ReadFault, Rule};
use std::alloc::{AllocError, Global};

// Whether a tail stands behind the fields.
fn has_tail(value: &Vps) -> bool
    ensures { result ≡ has_tail value.now.coded.0 }
{
    has_vui(&value.extension) || coded_set(value.vps_extension2_flag)
}

fn payload_of(alloc: Global, payload: &[u8]) -> Result<Vps, Fault<Rule>>
    ensures fills { FillsPayload (λ v. v.coded) means result (read_payload vps (byte_bits payload.now)) }
    ensures derived { IfOk result (λ v. v.derived ≡ described (args_of v.coded.0.base) v.coded.0.extension) }
{
    if payload.len() > MAX_BYTES {
        return Err(Fault::Breaks(Rule::VpsLimit));
    }
    let mut bits = BitReader::new(payload);
    let mut value = match fields_of(alloc, &mut bits) {
        Ok(value) => value,
        Err(fault) => return Err(fault),
    };
    let tailed = has_tail(&value);
    match payload_end_of(alloc, &mut bits, tailed) {
        Ok(tail) => {
            value.tail = tail;
            Ok(value)
        }
        Err(fault) => Err(fault),
    }
}

/// Reads the payload of a video parameter set (7.3.2.1, F.7.3.2.1), the bytes behind the unit's head without emulation
/// prevention. What it answers is valid: its layers and output layer sets are derived.
///
/// `Refused` with the first rule that a field breaks, all fields before it being read, or that is broken at a point between
/// fields: `VpsLimit` where the payload has over 65,536 bytes or a field is past its limit, `ExternalBase` at the two flags of
/// the base layer, and in the extension each other rule of video parameter sets at what it names; with `VpsSyntax` where no
/// rule is broken and the bytes are no video parameter set. `Memory` where memory runs out.
pub fn read_vps(alloc: Global, payload: &[u8]) -> Result<Vps, ReadFault>
    ensures coded { ReadsWhole (λ v. ReadsPayload vps (byte_bits payload.now) v.coded) (CutPayload vps (byte_bits payload.now)) VpsSyntax result }
    ensures valid { IfOk result (λ v. ValidVps v) }
{
    match payload_of(alloc, payload) {
        Ok(value) => Ok(value),
        Err(fault) => Err(fault.refusal(Rule::VpsSyntax)),
    }
}

/// The payload of a video parameter set (7.3.2.1, F.7.3.2.1), as `read_vps` reads it.
///
/// `AllocError` where memory runs out.
pub fn write_vps(alloc: Global, value: &Vps) -> Result<Vec<u8>, AllocError>
    requires { ValidVps value.now }
    ensures { IfOk result (λ bytes. byte_bits bytes.items ≡ payload_bits vps value.now.coded) }
{
    let mut out = Printer::bits(alloc);
    print_fields(&mut out, value)?;
    out.end(&value.tail)?;
    Ok(out.into_bytes())
}

/// Shows a video parameter set: appends the line of each coded field, in coded order, and of the tail, where it has one, its
/// number of bits.
///
/// `AllocError` where memory runs out.
pub fn show_vps(out: &mut Printer, value: &Vps) -> Result<(), AllocError>
    requires text { IsText out.old }
    requires valid { ValidVps value.now }
    ensures { OnOk result (out.new ≡ lines (text_in out.old ++ text_of (payload_lines vps value.now.coded)) []) }
{
    print_fields(out, value)?;
    out.end(&value.tail)?;
    Ok(())
}
