//! How a picture is rebuilt.

ghost use Rattle.std.specs.Prelude.{◌≡◌, ◌≤◌, ◌^◌, ◌++◌, ◌∷◌, [], length, List, IfOk, OnOk};
ghost use Rattle.mv_rebuild.specs.Parts.{Making, Part, started, referred, segmented};

use std::alloc::{AllocError, Global};

/// What a picture is begun with: where it stands in the stream, and the payloads of its parameter sets.
#[derive(Clone, Copy, Debug)]
pub struct PicStart<'a> {
    /// nuh_layer_id.
    pub layer: u8,
    /// ViewId of its layer.
    pub view: u32,
    /// PicOrderCntVal.
    pub count: i32,
    /// The payload of its video parameter set.
    pub vps: &'a [u8],
    /// The payload of its sequence parameter set.
    pub sps: &'a [u8],
    /// The payload of its picture parameter set.
    pub pps: &'a [u8],
}

/// The part of its reference picture set, or of its inter-layer set, in which a picture has a reference (8.3.2, F.8.1.6).
#[derive(Clone, Copy, Debug, PartialEq, Eq)]
pub enum RefKind {
    /// RefPicSetStCurrBefore.
    Before,
    /// RefPicSetStCurrAfter.
    After,
    /// RefPicSetLtCurr.
    Long,
    /// RefPicSetInterLayer0.
    InterZero,
    /// RefPicSetInterLayer1.
    InterOne,
}

/// Rebuilds pictures, each from its parts in order: what it is begun with, each of its references, and each of its slice segments.
pub trait Rebuild {
    /// A picture in the making.
    type Work: Drop;
    /// A picture.
    type Pic: Drop;

    // Which parts a picture in the making stands for, and which picture they give.
    ghost meaning: { Self → Making Self.Work Self.Pic };

    /// Begins a picture.
    ///
    /// `AllocError` where memory runs out.
    fn start(&self, alloc: Global, at: &PicStart<'_>) -> Result<Self::Work, AllocError>
        requires vps { length at.now.vps.now ≤ 65536 }
        requires sps { length at.now.sps.now ≤ 65536 }
        requires pps { length at.now.pps.now ≤ 65536 }
        ensures begun { IfOk result (λ work. (meaning self.now).stands work (started at.now ∷ [])) };

    /// Adds a reference, of a part of the picture's reference picture set or inter-layer set.
    ///
    /// `AllocError` where memory runs out.
    fn refer(
        &self,
        alloc: Global,
        work: &mut Self::Work,
        kind: RefKind,
        pic: &Self::Pic,
    ) -> Result<(), AllocError>
        ensures added { (parts : List (Part Self.Pic)) → (meaning self.now).stands work.old parts → OnOk result ((meaning self.now).stands work.new (parts ++ referred kind pic.now ∷ [])) };

    /// Adds a slice segment: its whole unit, and its reference picture lists, which are places among the references from 0 on.
    ///
    /// `AllocError` where memory runs out.
    fn slice(
        &self,
        alloc: Global,
        work: &mut Self::Work,
        unit: &[u8],
        list0: &[u8],
        list1: &[u8],
    ) -> Result<(), AllocError>
        requires unit { length unit.now ≤ 2 ^ 24 }
        requires list0 { length list0.now ≤ 15 }
        requires list1 { length list1.now ≤ 15 }
        ensures added { (parts : List (Part Self.Pic)) → (meaning self.now).stands work.old parts → OnOk result ((meaning self.now).stands work.new (parts ++ segmented unit.now list0.now list1.now ∷ [])) };

    /// The picture.
    ///
    /// `AllocError` where memory runs out.
    fn finish(&self, alloc: Global, work: Self::Work) -> Result<Self::Pic, AllocError>
        ensures made { (parts : List (Part Self.Pic)) → (meaning self.now).stands work parts → IfOk result (λ pic. pic ≡ (meaning self.now).picture parts) };
}

/// Makes nothing of pictures.
#[derive(Clone, Copy, Debug)]
pub struct NoPictures;

impl Rebuild for NoPictures {
    ghost use Rattle.mv_rebuild.specs.Parts.{no_pictures};

    type Work = ();

    type Pic = ();

    ghost meaning = { λ _. no_pictures };

    fn start(&self, _alloc: Global, _at: &PicStart<'_>) -> Result<(), AllocError> {
        Ok(())
    }

    fn refer(
        &self,
        _alloc: Global,
        _work: &mut (),
        _kind: RefKind,
        _pic: &(),
    ) -> Result<(), AllocError> {
        Ok(())
    }

    fn slice(
        &self,
        _alloc: Global,
        _work: &mut (),
        _unit: &[u8],
        _list0: &[u8],
        _list1: &[u8],
    ) -> Result<(), AllocError> {
        Ok(())
    }

    fn finish(&self, _alloc: Global, _work: ()) -> Result<(), AllocError> {
        Ok(())
    }
}
