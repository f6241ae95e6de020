//! Units put into a byte stream.
#![tactic(auto)]

ghost use Rattle.std.specs.Prelude.{◌∷◌, [], OnOk, OnErr};
ghost use Rattle.mv_units.specs.Framing.{frame as framed};
ghost use Rattle.mv_io.specs.Faults.{HasCause};
ghost use Rattle.mv_io.specs.Sink.{Appends, AppendsPrefix};

use mv_io::{Sink, SinkFailed, write_all};

/// What stands before a unit: zero_byte and start_code_prefix_one_3bytes (Annex B, B.2.2).
const LONG_CODE: [u8; 4] = [0, 0, 0, 1];

/// Writes a unit as a part of a byte stream: the four bytes `00 00 00 01`, and then the unit's bytes
/// (Annex B, B.2.2).
///
/// # Errors
///
/// `SinkFailed` where a write failed, so only where the sink's count of faults rose in this call. Then
/// the sink took the bytes before the failed write, and not all.
pub fn frame<K: Sink>(sink: &mut K, unit: &[u8]) -> Result<(), SinkFailed>
    ensures all { OnOk result (Appends (K.state sink.old).taken (K.state sink.new).taken (framed (unit.now ∷ []))) }
    ensures failed { OnErr result (AppendsPrefix (K.state sink.old).taken (K.state sink.new).taken (framed (unit.now ∷ []))) }
    ensures cause { HasCause (K.state sink.old).faults (K.state sink.new).faults result }
{
    match write_all(sink, &LONG_CODE) {
        Ok(()) => write_all(sink, unit),
        Err(failed) => Err(failed),
    }
}
