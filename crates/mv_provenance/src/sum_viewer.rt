//! Output pictures as the digest of their lines.

ghost use Rattle.std.specs.Prelude.{◌≡◌, ℕ, List, []};
ghost use Rattle.mv_provenance.specs.Message.{digest_of};
ghost use Rattle.mv_provenance.specs.Showing.{Sums};

use crate::bound::Digest2;
use crate::digest::Digest32;
use crate::line::line_of;
use crate::message::Message;
use mv_dpb::Shown;
use mv_rebuild::{ViewFailed, Viewer};

/// Puts a line for each picture that it is shown, as `DigestViewer` writes it, into a SHA-256. It never fails.
#[derive(Drop)]
pub struct SumViewer {
    lines: Message,
}

impl SumViewer {
    /// A viewer that was shown no picture.
    pub fn new() -> SumViewer
        ensures empty { Sums result [] }
    {
        SumViewer {
            lines: Message::new(),
        }
    }

    /// The SHA-256 of all lines, or 32 zero bytes where they have 2^61 bytes or more.
    pub fn finish(self) -> [u8; 32]
        ensures digest { (text : List ℕ) → Sums self text → result ≡ digest_of text }
    {
        self.lines.finish()
    }
}

impl Viewer<Digest32> for SumViewer {
    ghost use Rattle.mv_provenance.specs.Showing.{lines_summed};

    ghost viewing = { lines_summed (λ pic. pic.bytes) };

    /// Adds the picture's line. It never fails.
    fn show(&mut self, shown: &Shown, pic: &Digest32) -> Result<(), ViewFailed> {
        self.lines.add(line_of(shown, &pic.bytes).as_slice());
        Ok(())
    }
}

impl Viewer<Digest2> for SumViewer {
    ghost use Rattle.mv_provenance.specs.Showing.{lines_summed};

    ghost viewing = { lines_summed (λ pic. pic.bytes) };

    /// Adds the picture's line. It never fails.
    fn show(&mut self, shown: &Shown, pic: &Digest2) -> Result<(), ViewFailed> {
        self.lines.add(line_of(shown, &pic.bytes).as_slice());
        Ok(())
    }
}
