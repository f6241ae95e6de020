//! To whom output pictures are shown.

ghost use Rattle.std.specs.Prelude.{◌≡◌, ℕ, List};
ghost use Rattle.mv_io.specs.Faults.{HasCause};
ghost use Rattle.mv_dpb.specs.declared.shown.Shown.{Shown};
ghost use Rattle.mv_rebuild.specs.Viewing.{Shows, Viewing};

use mv_dpb::Shown;

/// A picture couldn't be shown, by a fault of the viewer itself.
#[derive(Clone, Copy, Debug, PartialEq, Eq)]
pub struct ViewFailed;

/// Is shown the output pictures of a stream, one after another, in output order.
pub trait Viewer<P> {
    // What it puts out of a picture, which lists of numbers it may have put out, how often it failed, a count that never
    // falls, and by what it is known.
    ghost viewing: { Viewing Self P };

    /// Shows a picture.
    ///
    /// # Errors
    ///
    /// `ViewFailed`, only where the viewer's count of faults rose in this call. The first of what it puts out of the picture was
    /// put out.
    fn show(&mut self, shown: &Shown, pic: &P) -> Result<(), ViewFailed>
        ensures shows { (before : List ℕ) → viewing.puts self.old before → Shows viewing self.new before (viewing.text shown.now pic.now) result }
        ensures cause { HasCause (viewing.faults self.old) (viewing.faults self.new) result }
        ensures same { viewing.name self.new ≡ viewing.name self.old };
}

/// Sees nothing, and never fails.
#[derive(Clone, Copy, Debug)]
pub struct NoViewer;

impl<P> Viewer<P> for NoViewer {
    ghost use Rattle.mv_rebuild.specs.Viewing.{no_viewing};

    ghost viewing = { no_viewing };

    fn show(&mut self, _shown: &Shown, _pic: &P) -> Result<(), ViewFailed> {
        Ok(())
    }
}
