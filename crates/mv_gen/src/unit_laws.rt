//! Laws of the units of a stream. Each function has an empty body, and its contract is the law.

ghost use Rattle.std.specs.Prelude.{◌≡◌, true, None, All, map};
ghost use Rattle.mv_units.specs.Framing.{IsFramable, frame};
ghost use Rattle.mv_units.specs.Rules.{unit_rule};
ghost use Rattle.mv_units.specs.Shown.{refusal_shown};
ghost use Rattle.mv_units.specs.Units.{NalUnit, units};
ghost use Rattle.mv_gen.specs.Units.{gen_units};

/// Each unit of a stream breaks no rule on its own bytes: it has a head and at most 2^24 bytes, and holds no bytes that may
/// stand nowhere in a unit (7.4.2). A byte stream carries it unchanged (Annex B): it holds no start code prefix, and its last
/// byte isn't zero.
pub fn units_are_clean(number: u64, count: u32)
    ensures rules { All (λ u. unit_rule u ≡ None) (gen_units number count) }
    ensures framable { All IsFramable (gen_units number count) }
{}

/// A stream that was framed is split again into its units, and no refusal of the bytes of a unit is shown (Annex B).
pub fn a_stream_is_split_again(number: u64, count: u32)
    ensures units { map (λ (u : NalUnit). u.bytes) (units (frame (gen_units number count))) ≡ gen_units number count }
    ensures shown { refusal_shown true (frame (gen_units number count)) ≡ None }
{}
