//! The payload of a picture parameter set: read, written and shown.

ghost use Rattle.std.specs.Prelude.{◌≡◌, [], ◌++◌, IfOk, OnOk};
ghost use Rattle.mv_syntax.specs.Bits.{byte_bits};
ghost use Rattle.mv_syntax.specs.Lines.{text_of};
ghost use Rattle.mv_syntax.specs.Payload.{ValidPayload, ReadsPayload, CutPayload, payload_bits, payload_lines};
ghost use Rattle.mv_syntax.specs.inner.PayloadReader.{read_payload};
ghost use Rattle.mv_syntax.specs.Printed.{lines};
ghost use Rattle.mv_syntax.specs.inner.Filling.{FillsPayload};
ghost use Rattle.mv_rules.specs.declared.rule.Rule.TheVariants.{PpsSyntax};
ghost use Rattle.mv_fields.specs.Faults.{means};
ghost use Rattle.mv_fields.specs.Output.{IsText, text_in};
ghost use Rattle.mv_fields.specs.Reading.{ReadsWhole};
ghost use Rattle.mv_pps.specs.Pps.{pps, has_tail};

use crate::extension::PpsExtension;
use crate::pps::{Pps, fields_of, print_fields};
use mv_bits::BitReader;
use mv_fields::{Fault, MAX_BYTES, Printer, payload_end_of};
use mv_rules::{ReadFault, Rule};
use std::alloc::{AllocError, Global};

// Whether a tail stands behind the fields.
fn has_tail(extension: Option<PpsExtension>) -> bool
    ensures { result ≡ has_tail extension }
{
    match extension {
        Some(extension) => extension.pps_extension_4bits > 0,
        None => false,
    }
}

fn payload_of(alloc: Global, payload: &[u8]) -> Result<Pps, Fault<Rule>>
    ensures { FillsPayload (λ v. v) means result (read_payload pps (byte_bits payload.now)) }
{
    if payload.len() > MAX_BYTES {
        return Err(Fault::Breaks(Rule::PpsLimit));
    }
    let mut bits = BitReader::new(payload);
    let value = match fields_of(alloc, &mut bits) {
        Ok(value) => value,
        Err(fault) => return Err(fault),
    };
    match payload_end_of(alloc, &mut bits, has_tail(value.extension)) {
        Ok(tail) => Ok(Pps { tail, ..value }),
        Err(fault) => Err(fault),
    }
}

/// Reads the payload of a picture parameter set (7.3.2.3.1, F.7.3.2.3.1).
///
/// `Refused` with the first rule that a field breaks, all fields before it being read: `PpsLimit` where the payload has
/// over 65,536 bytes or a field is past its limit, and `PpsRange`, `Pps3d`, `PpsScc`, `PocReset`, `LocationOffsets` or
/// `ColourMapping` at the field that each names; with `PpsSyntax` where no rule is broken and the bytes are no picture
/// parameter set. `Memory` where memory runs out.
pub fn read_pps(alloc: Global, payload: &[u8]) -> Result<Pps, ReadFault>
    ensures { ReadsWhole (ReadsPayload pps (byte_bits payload.now)) (CutPayload pps (byte_bits payload.now)) PpsSyntax result }
{
    match payload_of(alloc, payload) {
        Ok(value) => Ok(value),
        Err(fault) => Err(fault.refusal(Rule::PpsSyntax)),
    }
}

/// The payload of a picture parameter set (7.3.2.3.1, F.7.3.2.3.1).
///
/// `AllocError` where memory runs out.
pub fn write_pps(alloc: Global, value: &Pps) -> Result<Vec<u8>, AllocError>
    requires { ValidPayload pps value.now }
    ensures { IfOk result (λ bytes. byte_bits bytes.items ≡ payload_bits pps value.now) }
{
    let mut out = Printer::bits(alloc);
    print_fields(&mut out, value)?;
    out.end(&value.tail)?;
    Ok(out.into_bytes())
}

/// Shows a picture parameter set: appends the line of each coded field, in coded order, and of the tail, where it has one,
/// its number of bits.
///
/// `AllocError` where memory runs out.
pub fn show_pps(out: &mut Printer, value: &Pps) -> Result<(), AllocError>
    requires text { IsText out.old }
    requires valid { ValidPayload pps value.now }
    ensures { OnOk result (out.new ≡ lines (text_in out.old ++ text_of (payload_lines pps value.now)) []) }
{
    print_fields(out, value)?;
    out.end(&value.tail)?;
    Ok(())
}
