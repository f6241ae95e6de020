//! What the calls tell of the pictures of a stream, as the contracts of functions with nothing to do.

ghost use Rattle.std.specs.Prelude.{◌≡◌, ◌≤◌, ℕ, Bool, true, false, not, List, length, map};
ghost use Rattle.std.specs.List.{filter};
ghost use Rattle.std.specs.Option.{IfSome};
ghost use Rattle.mv_slice.specs.declared.slice.SliceFull.{SliceFull};
ghost use Rattle.mv_slice.specs.Context.{SliceContextValue, Fits};
ghost use Rattle.mv_pictures.specs.Facts.{Fact};
ghost use Rattle.mv_pictures.specs.Judged.{Judged, layer, vps_at};
ghost use Rattle.mv_pictures.specs.Layers.{view};
ghost use Rattle.mv_pictures.specs.Lists.{full_lists};
ghost use Rattle.mv_pictures.specs.Look.{Look, look};
ghost use Rattle.mv_pictures.specs.PictureRules as rules;
ghost use Rattle.mv_pictures.specs.References.{inter_layer, is_zero_side};
ghost use Rattle.mv_pictures.specs.SliceFields.{num_pic_total_curr};
ghost use Rattle.mv_pictures.specs.Starts.{is_decoded};
ghost use Rattle.mv_pictures.specs.Terms.{Term};
ghost use Rattle.mv_reflists.specs.declared.sizes.Sizes.{Sizes};
ghost use Rattle.mv_reflists.specs.InterLayer.{inter_layer_sets, missing_inter_layer};
ghost use Rattle.mv_reflists.specs.Lists.{lists};
ghost use Rattle.mv_reflists.specs.Rules.{list_entry, no_refs, collocated};
ghost use Rattle.mv_reflists.specs.Segment.{active_l0, active_l1, list_entry_l0, list_entry_l1};
ghost use Rattle.mv_reflists.specs.Sizes.{tags};
ghost use Rattle.mv_reflists.specs.Stands.{IsSegment, actives};

/// Of a slice segment of a stream, `build_lists` fills the lists that the definitions of pictures give it, from the counts of its
/// picture's references; and where its picture is decoded it breaks the same rules.
pub fn list_laws()
    ensures lists { (p : Fact) (ctx : SliceContextValue) (full : SliceFull) (sizes : Sizes) → IsSegment p ctx full → full_lists (tags sizes) p ≡ lists sizes ctx full }
    ensures list_entry { (l : Look) (p : Fact) (ctx : SliceContextValue) (full : SliceFull) → IsSegment p ctx full → rules.is_of_decoded l p ≡ true → rules.list_entry l p ≡ list_entry (num_pic_total_curr p) full }
    ensures no_refs { (l : Look) (p : Fact) (ctx : SliceContextValue) (full : SliceFull) → IsSegment p ctx full → rules.is_of_decoded l p ≡ true → rules.no_refs l p ≡ no_refs (num_pic_total_curr p) full }
    ensures collocated { (l : Look) (p : Fact) (ctx : SliceContextValue) (full : SliceFull) → IsSegment p ctx full → rules.is_of_decoded l p ≡ true → rules.collocated l p ≡ collocated ctx full }
{}

/// Where its context fits, it meets the conditions of the call.
pub fn condition_laws()
    ensures active_l0 { (p : Fact) (ctx : SliceContextValue) (full : SliceFull) → IsSegment p ctx full → Fits ctx → active_l0 ctx full ≤ 15 }
    ensures active_l1 { (p : Fact) (ctx : SliceContextValue) (full : SliceFull) → IsSegment p ctx full → Fits ctx → active_l1 ctx full ≤ 15 }
    ensures entries_l0 { (p : Fact) (ctx : SliceContextValue) (full : SliceFull) → IsSegment p ctx full → IfSome (list_entry_l0 full) (λ entries. length entries ≡ active_l0 ctx full) }
    ensures entries_l1 { (p : Fact) (ctx : SliceContextValue) (full : SliceFull) → IsSegment p ctx full → IfSome (list_entry_l1 full) (λ entries. length entries ≡ active_l1 ctx full) }
{}

/// From the active reference layers of a picture, `inter_layer` refuses exactly where the rule on decoded pictures does, and
/// else gives the layers of its inter-layer reference pictures, those of the first set and those of the second.
pub fn inter_layer_laws()
    ensures missing { (past : List Judged) (p : Fact) → is_decoded (look past p) p ≡ true → rules.missing_inter_layer (look past p) p ≡ missing_inter_layer (actives past p) }
    ensures zero { (past : List Judged) (p : Fact) → missing_inter_layer (actives past p) ≡ false
        → (inter_layer_sets (view (vps_at p) (layer p)) (view (vps_at p) 0) (actives past p)).zero ≡ map (λ (r : Judged × Term). layer r.0.fact) (filter (λ (r : Judged × Term). is_zero_side p r.0) (inter_layer (look past p) p)) }
    ensures one { (past : List Judged) (p : Fact) → missing_inter_layer (actives past p) ≡ false
        → (inter_layer_sets (view (vps_at p) (layer p)) (view (vps_at p) 0) (actives past p)).one ≡ map (λ (r : Judged × Term). layer r.0.fact) (filter (λ (r : Judged × Term). not (is_zero_side p r.0)) (inter_layer (look past p) p)) }
{}
