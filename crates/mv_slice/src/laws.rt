//! Laws of the table, as the contract of a function with nothing to do.

ghost use Rattle.std.specs.Prelude.{ℕ, ◌+◌, ◌*◌, ◌≤◌, Bool, List, length};
ghost use Rattle.mv_syntax.specs.Table.{Reads};
ghost use Rattle.mv_syntax.specs.Laws.{ExactlyOne, RoundTrips, Prefixes};
ghost use Rattle.mv_slice.specs.Context.{SliceContextValue, Fits};
ghost use Rattle.mv_slice.specs.declared.slice.SliceHead.{SliceHead};
ghost use Rattle.mv_slice.specs.Slice.{slice_header};

/// Of any bits exactly one holds: they begin with one slice segment header (7.3.6.1, F.7.3.6.1), one rule cuts them, or
/// neither. What was written reads back before any bits, and what reads writes back the same bits. A header that reads, or is
/// cut, in the first bits of a payload reads, or is cut, in the whole alike. It has at most 264,686 bytes.
pub fn slice_laws()
    ensures exactly_one { (ctx : SliceContextValue) (nal_unit_type : ℕ) (b : List Bool) → ExactlyOne (slice_header ctx nal_unit_type) b }
    ensures round_trips { (ctx : SliceContextValue) (nal_unit_type : ℕ) → RoundTrips (slice_header ctx nal_unit_type) }
    ensures prefixes { (ctx : SliceContextValue) (nal_unit_type : ℕ) (b more : List Bool) → Prefixes (slice_header ctx nal_unit_type) b more }
    ensures short { (ctx : SliceContextValue) (nal_unit_type : ℕ) (b : List Bool) (v : SliceHead) (rest : List Bool) → Fits ctx → Reads (slice_header ctx nal_unit_type) b v rest → length b ≤ length rest + 8 * 264686 }
{}
