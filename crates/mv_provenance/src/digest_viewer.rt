//! Output pictures as lines on a sink.

ghost use Rattle.std.specs.Prelude.{◌≡◌, OnOk, OnErr};
ghost use Rattle.mv_io.specs.Faults.{HasCause};
ghost use Rattle.mv_io.specs.Sink.{Appends, AppendsPrefix};
ghost use Rattle.mv_provenance.specs.Lines.{line};

use crate::bound::Digest2;
use crate::digest::Digest32;
use crate::line::line_of;
use mv_dpb::Shown;
use mv_io::{Sink, write_all};
use mv_rebuild::{ViewFailed, Viewer};

/// Writes a line on a sink for each picture that it is shown: `pic SEQUENCE COUNT LAYER DIGEST`, the digest in 64 lower case
/// digits, and a newline (this project's profile). It has put out just what the sink tells as taken, and its faults are the
/// sink's.
#[derive(Drop)]
pub struct DigestViewer<'a, K: Sink> {
    sink: &'a mut K,
}

impl<'a, K: Sink> DigestViewer<'a, K> {
    /// A viewer that writes on `sink`.
    pub fn new(sink: &'a mut K) -> DigestViewer<'a, K>
        ensures same_sink { result.sink.ghost_name ≡ sink.entry.ghost_name }
        ensures unchanged { result.sink.now ≡ sink.old }
    {
        DigestViewer { sink }
    }
}

impl<K: Sink> Viewer<Digest32> for DigestViewer<'_, K> {
    ghost use Rattle.mv_provenance.specs.Showing.{lines_on};

    ghost viewing = { lines_on (λ viewer. K.state viewer.sink.now) (λ viewer. viewer.sink.ghost_name) (λ pic. pic.bytes) };

    /// Writes the picture's line.
    fn show(&mut self, shown: &Shown, pic: &Digest32) -> Result<(), ViewFailed> {
        put(self.sink, shown, &pic.bytes)
    }
}

impl<K: Sink> Viewer<Digest2> for DigestViewer<'_, K> {
    ghost use Rattle.mv_provenance.specs.Showing.{lines_on};

    ghost viewing = { lines_on (λ viewer. K.state viewer.sink.now) (λ viewer. viewer.sink.ghost_name) (λ pic. pic.bytes) };

    /// Writes the picture's line.
    fn show(&mut self, shown: &Shown, pic: &Digest2) -> Result<(), ViewFailed> {
        put(self.sink, shown, &pic.bytes)
    }
}

// Writes a picture's line.
fn put<K: Sink>(sink: &mut K, shown: &Shown, digest: &[u8; 32]) -> Result<(), ViewFailed>
    ensures all { OnOk result (Appends (K.state sink.old).taken (K.state sink.new).taken (line shown.now digest.now)) }
    ensures failed { OnErr result (AppendsPrefix (K.state sink.old).taken (K.state sink.new).taken (line shown.now digest.now)) }
    ensures cause { HasCause (K.state sink.old).faults (K.state sink.new).faults result }
{
    match write_all(sink, line_of(shown, digest).as_slice()) {
        Ok(()) => Ok(()),
        Err(_) => Err(ViewFailed),
    }
}
