//! Laws of what `pack` and `unpack` accept and write. Each function has an empty body, and its contract is the law.
#![tactic(auto)]

ghost use Rattle.std.specs.Prelude.{◌≡◌, ℕ, Bool, List, All, None, map};
ghost use Rattle.std.specs.Option.{option_map};
ghost use Rattle.mv_units.specs.Framing.{frame};
ghost use Rattle.mv_units.specs.Units.{NalUnit, units};
ghost use Rattle.mv_judging.specs.Event.{event, refused_at, seen};
ghost use Rattle.mv_judging.specs.Format.{Format, byte_stream};
ghost use Rattle.mv_prefixed.specs.Form.{length_form};
ghost use Rattle.mv_prefixed.specs.LenForm.{IsPlain, lenform};
ghost use Rattle.mv_prefixed.specs.Reading.{len_units};
ghost use Rattle.mv_lenform.specs.Carrying.{nobody, text};
ghost use Rattle.mv_lenform.specs.declared.carrier.Target.{Target};

/// What both calls refuse (this project's profile): what the form of their input shows, and nothing else. So `unpack`
/// accepts exactly the forms of plain units.
pub fn nobody_objects()
    ensures seen { (f : Format) (ended : Bool) (s : List ℕ) → seen f nobody ended s ≡ option_map refused_at (f.shown ended s) }
    ensures form { (us : List (List ℕ)) → All IsPlain us → event length_form nobody (lenform us) ≡ None }
    ensures only { (s : List ℕ) → event length_form nobody s ≡ None →
        All IsPlain (map (λ (u : NalUnit). u.bytes) (len_units s)) × (s ≡ lenform (map (λ (u : NalUnit). u.bytes) (len_units s))) }
{}

/// What `pack` writes of a byte stream that it accepts, `unpack` accepts, and writes the framed units of the stream.
pub fn packed_streams_are_unpacked()
    ensures accepted { (s : List ℕ) → event byte_stream nobody s ≡ None →
        event length_form nobody (text Target.Prefixed (units s)) ≡ None }
    ensures framed { (s : List ℕ) → event byte_stream nobody s ≡ None →
        text Target.Framed (len_units (text Target.Prefixed (units s))) ≡ frame (map (λ (u : NalUnit). u.bytes) (units s)) }
{}

/// What `unpack` writes of a string that it accepts, `pack` accepts, and writes that string.
pub fn unpacked_strings_are_packed()
    ensures accepted { (s : List ℕ) → event length_form nobody s ≡ None →
        event byte_stream nobody (text Target.Framed (len_units s)) ≡ None }
    ensures same { (s : List ℕ) → event length_form nobody s ≡ None →
        text Target.Prefixed (units (text Target.Framed (len_units s))) ≡ s }
{}
