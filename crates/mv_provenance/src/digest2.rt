//! Digests of format 2.

ghost use Rattle.std.specs.Prelude.{◌≡◌, ◌≤◌, ◌^◌, ℕ, List, [], ◌∷◌, ◌++◌, length, IsOk, IfOk, OnOk};
ghost use Rattle.mv_rebuild.specs.Parts.{Part, referred, segmented, start_of, started, tag_of};
ghost use Rattle.mv_provenance.specs.Formats.{mark_of, reference_bytes2, start_bytes2};
ghost use Rattle.mv_provenance.specs.Message.{Fed, digest_of};

use crate::bound::{Bound2, Digest2};
use crate::message::Message;
use crate::parts::{add_segment, add_sets, kind_byte};
use mv_rebuild::{PicStart, Rebuild, RefKind};
use std::alloc::{AllocError, Global};

/// Makes of each picture its digest of format 2 (this project's profile), which binds in its view, and of each reference the
/// view, the count and the mark as a reference that isn't a short-term one.
#[derive(Clone, Copy, Debug)]
pub struct DigestRebuild2;

impl Rebuild for DigestRebuild2 {
    ghost use Rattle.mv_provenance.specs.Making.{making2, picture2};

    type Work = Bound2;

    type Pic = Digest2;

    ghost meaning = { λ _. making2 };

    /// Begins a picture's bytes. It never fails.
    fn start(&self, alloc: Global, at: &PicStart<'_>) -> Result<Bound2, AllocError>
        requires vps { length at.now.vps.now ≤ 65536 }
        requires sps { length at.now.sps.now ≤ 65536 }
        requires pps { length at.now.pps.now ≤ 65536 }
        ensures begun { IfOk result (λ work. making2.stands work (started at.now ∷ [])) }
        ensures never_fails { IsOk result }
    {
        let _ = alloc;
        Ok(Bound2 {
            message: begin(at),
            view: at.view,
            count: at.count,
        })
    }

    /// Adds a reference: its kind, its mark, its view, its count and its digest. It never fails.
    fn refer(
        &self,
        alloc: Global,
        work: &mut Bound2,
        kind: RefKind,
        pic: &Digest2,
    ) -> Result<(), AllocError>
        ensures added { (parts : List (Part Digest2)) → making2.stands work.old parts → OnOk result (making2.stands work.new (parts ++ referred kind pic.now ∷ [])) }
        ensures never_fails { IsOk result }
    {
        let _ = alloc;
        add_reference(&mut work.message, kind, pic);
        Ok(())
    }

    /// Adds a slice segment. It never fails.
    fn slice(
        &self,
        alloc: Global,
        work: &mut Bound2,
        unit: &[u8],
        list0: &[u8],
        list1: &[u8],
    ) -> Result<(), AllocError>
        requires unit { length unit.now ≤ 2 ^ 24 }
        requires list0 { length list0.now ≤ 15 }
        requires list1 { length list1.now ≤ 15 }
        ensures added { (parts : List (Part Digest2)) → making2.stands work.old parts → OnOk result (making2.stands work.new (parts ++ segmented unit.now list0.now list1.now ∷ [])) }
        ensures never_fails { IsOk result }
    {
        let _ = alloc;
        add_segment(&mut work.message, unit, list0, list1);
        Ok(())
    }

    /// The digest. It never fails.
    fn finish(&self, alloc: Global, work: Bound2) -> Result<Digest2, AllocError>
        ensures made { (parts : List (Part Digest2)) → making2.stands work parts → IfOk result (λ pic. pic ≡ picture2 parts) }
        ensures never_fails { IsOk result }
    {
        let _ = alloc;
        Ok(end(work))
    }
}

// The bytes that a picture begins with.
fn begin(at: &PicStart<'_>) -> Message
    requires vps { length at.now.vps.now ≤ 65536 }
    requires sps { length at.now.sps.now ≤ 65536 }
    requires pps { length at.now.pps.now ≤ 65536 }
    ensures { Fed result (start_bytes2 (start_of at.now)) }
{
    let mut message = Message::new();
    message.add(b"mvp2");
    message.add(&[at.layer]);
    message.add(&at.view.to_be_bytes());
    message.add(&at.count.to_be_bytes());
    add_sets(&mut message, at.vps, at.sps, at.pps);
    message
}

// Adds a reference.
fn add_reference(message: &mut Message, kind: RefKind, pic: &Digest2)
    ensures { (before : List ℕ) → Fed message.old before → Fed message.new (before ++ reference_bytes2 (tag_of kind) pic.now) }
{
    message.add(&[1, kind_byte(kind), mark_byte(kind)]);
    message.add(&pic.view.to_be_bytes());
    message.add(&pic.count.to_be_bytes());
    message.add(&pic.bytes);
}

// 1 for a long-term reference and for a picture of another layer, which is marked as one (8.3.2, F.8.1.6); else 0.
fn mark_byte(kind: RefKind) -> u8
    ensures { result ≡ mark_of (tag_of kind) }
{
    match kind {
        RefKind::Before => 0,
        RefKind::After => 0,
        RefKind::Long => 1,
        RefKind::InterZero => 1,
        RefKind::InterOne => 1,
    }
}

// The digest, behind the byte that ends a picture.
fn end(work: Bound2) -> Digest2
    ensures { (bytes : List ℕ) → Fed work.message bytes →
        result ≡ record { bytes = digest_of (bytes ++ 3 ∷ []); view = work.view; count = work.count } }
{
    let Bound2 {
        mut message,
        view,
        count,
    } = work;
    message.add(&[3]);
    Digest2 {
        bytes: message.finish(),
        view,
        count,
    }
}
