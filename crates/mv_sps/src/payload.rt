//! The payload of a sequence parameter set: read, written and shown.

ghost use Rattle.std.specs.Prelude.{◌≡◌, ◌≤◌, [], ◌++◌, IfOk, OnOk};
ghost use Rattle.mv_syntax.specs.Bits.{byte_bits};
ghost use Rattle.mv_syntax.specs.Lines.{text_of};
ghost use Rattle.mv_syntax.specs.Payload.{ValidPayload, ReadsPayload, CutPayload, payload_bits, payload_lines};
ghost use Rattle.mv_syntax.specs.inner.PayloadReader.{read_payload};
ghost use Rattle.mv_syntax.specs.Printed.{lines};
ghost use Rattle.mv_syntax.specs.inner.Filling.{FillsPayload};
ghost use Rattle.mv_rules.specs.declared.rule.Rule.TheVariants.{SpsSyntax};
ghost use Rattle.mv_fields.specs.Faults.{means};
ghost use Rattle.mv_fields.specs.Output.{IsText, text_in};
ghost use Rattle.mv_fields.specs.Reading.{ReadsWhole};
ghost use Rattle.mv_sps.specs.Sps.{has_tail, sps_payload};

use crate::sps::{Sps, fields_of, print_fields};
use mv_bits::BitReader;
use mv_fields::{Fault, MAX_BYTES, Printer, payload_end_of};
use mv_rules::{ReadFault, Rule};
use std::alloc::{AllocError, Global};

// Whether a tail stands behind the fields.
fn has_tail(value: &Sps) -> bool
    ensures { result ≡ has_tail value.now.0 }
{
    value.extension.sps_extension_4bits.unwrap_or(0) > 0
}

fn payload_of(
    alloc: Global,
    layer: u8,
    vps_sub_layers: u8,
    payload: &[u8],
) -> Result<Sps, Fault<Rule>>
    requires { vps_sub_layers ≤ 6 }
    ensures { FillsPayload (λ v. v) means result (read_payload (sps_payload layer vps_sub_layers) (byte_bits payload.now)) }
{
    if payload.len() > MAX_BYTES {
        return Err(Fault::Breaks(Rule::SpsLimit));
    }
    let mut bits = BitReader::new(payload);
    let mut value = match fields_of(alloc, &mut bits, layer, vps_sub_layers) {
        Ok(value) => value,
        Err(fault) => return Err(fault),
    };
    let tailed = has_tail(&value);
    match payload_end_of(alloc, &mut bits, tailed) {
        Ok(tail) => {
            value.tail = tail;
            Ok(value)
        }
        Err(fault) => Err(fault),
    }
}

/// Reads the payload of a sequence parameter set, the bytes behind the unit's head without emulation prevention (7.3.2.2.1,
/// F.7.3.2.2.1). `layer` is the unit's nuh_layer_id, `vps_sub_layers` the vps_max_sub_layers_minus1 of the VPS.
///
/// `Refused` with the rule that cuts the payload: that of the first field that breaks one, or the limit rule where the
/// payload has more than 65,536 bytes; `SpsSyntax` where no value reads and no rule cuts. `Memory` where memory runs out.
pub fn read_sps(
    alloc: Global,
    layer: u8,
    vps_sub_layers: u8,
    payload: &[u8],
) -> Result<Sps, ReadFault>
    requires { vps_sub_layers ≤ 6 }
    ensures { ReadsWhole (ReadsPayload (sps_payload layer vps_sub_layers) (byte_bits payload.now)) (CutPayload (sps_payload layer vps_sub_layers) (byte_bits payload.now)) SpsSyntax result }
{
    match payload_of(alloc, layer, vps_sub_layers, payload) {
        Ok(value) => Ok(value),
        Err(fault) => Err(fault.refusal(Rule::SpsSyntax)),
    }
}

/// The payload of a sequence parameter set, as `read_sps` reads it.
///
/// `AllocError` where memory runs out.
pub fn write_sps(
    alloc: Global,
    layer: u8,
    vps_sub_layers: u8,
    sps: &Sps,
) -> Result<Vec<u8>, AllocError>
    requires subs { vps_sub_layers ≤ 6 }
    requires valid { ValidPayload (sps_payload layer vps_sub_layers) sps.now }
    ensures { IfOk result (λ bytes. byte_bits bytes.items ≡ payload_bits (sps_payload layer vps_sub_layers) sps.now) }
{
    let mut out = Printer::bits(alloc);
    print_fields(&mut out, sps, layer, vps_sub_layers)?;
    out.end(&sps.tail)?;
    Ok(out.into_bytes())
}

/// Shows a sequence parameter set: appends the line of each coded field, in coded order, and of the tail, where it has one,
/// its number of bits.
///
/// `AllocError` where memory runs out.
pub fn show_sps(
    out: &mut Printer,
    layer: u8,
    vps_sub_layers: u8,
    sps: &Sps,
) -> Result<(), AllocError>
    requires text { IsText out.old }
    requires subs { vps_sub_layers ≤ 6 }
    requires valid { ValidPayload (sps_payload layer vps_sub_layers) sps.now }
    ensures { OnOk result (out.new ≡ lines (text_in out.old ++ text_of (payload_lines (sps_payload layer vps_sub_layers) sps.now)) []) }
{
    print_fields(out, sps, layer, vps_sub_layers)?;
    out.end(&sps.tail)?;
    Ok(())
}
