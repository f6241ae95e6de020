//! Digests of format 1.

ghost use Rattle.std.specs.Prelude.{◌≡◌, ◌≤◌, ◌^◌, ℕ, List, [], ◌∷◌, ◌++◌, length, IsOk, IfOk, OnOk};
ghost use Rattle.mv_rebuild.specs.Parts.{Part, referred, segmented, start_of, started, tag_of};
ghost use Rattle.mv_provenance.specs.Formats.{reference_bytes1, start_bytes1};
ghost use Rattle.mv_provenance.specs.Message.{Fed, digest_of};

use crate::message::Message;
use crate::parts::{add_segment, add_sets, kind_byte};
use mv_rebuild::{PicStart, Rebuild, RefKind};
use std::alloc::{AllocError, Global};

/// A picture's digest of format 1.
#[derive(Clone, Copy, Debug, PartialEq, Eq)]
pub struct Digest32 {
    /// The SHA-256 of the picture's bytes.
    pub bytes: [u8; 32],
}

/// Makes of each picture its digest of format 1 (this project's profile): the SHA-256 of all that it is decoded from.
#[derive(Clone, Copy, Debug)]
pub struct DigestRebuild;

impl Rebuild for DigestRebuild {
    ghost use Rattle.mv_provenance.specs.Making.{making1, picture1};

    type Work = Message;

    type Pic = Digest32;

    ghost meaning = { λ _. making1 };

    /// Begins a picture's bytes. It never fails.
    fn start(&self, alloc: Global, at: &PicStart<'_>) -> Result<Message, AllocError>
        requires vps { length at.now.vps.now ≤ 65536 }
        requires sps { length at.now.sps.now ≤ 65536 }
        requires pps { length at.now.pps.now ≤ 65536 }
        ensures begun { IfOk result (λ work. making1.stands work (started at.now ∷ [])) }
        ensures never_fails { IsOk result }
    {
        let _ = alloc;
        Ok(begin(at))
    }

    /// Adds a reference: its kind and its digest. It never fails.
    fn refer(
        &self,
        alloc: Global,
        work: &mut Message,
        kind: RefKind,
        pic: &Digest32,
    ) -> Result<(), AllocError>
        ensures added { (parts : List (Part Digest32)) → making1.stands work.old parts → OnOk result (making1.stands work.new (parts ++ referred kind pic.now ∷ [])) }
        ensures never_fails { IsOk result }
    {
        let _ = alloc;
        add_reference(work, kind, pic);
        Ok(())
    }

    /// Adds a slice segment. It never fails.
    fn slice(
        &self,
        alloc: Global,
        work: &mut Message,
        unit: &[u8],
        list0: &[u8],
        list1: &[u8],
    ) -> Result<(), AllocError>
        requires unit { length unit.now ≤ 2 ^ 24 }
        requires list0 { length list0.now ≤ 15 }
        requires list1 { length list1.now ≤ 15 }
        ensures added { (parts : List (Part Digest32)) → making1.stands work.old parts → OnOk result (making1.stands work.new (parts ++ segmented unit.now list0.now list1.now ∷ [])) }
        ensures never_fails { IsOk result }
    {
        let _ = alloc;
        add_segment(work, unit, list0, list1);
        Ok(())
    }

    /// The digest. It never fails.
    fn finish(&self, alloc: Global, work: Message) -> Result<Digest32, AllocError>
        ensures made { (parts : List (Part Digest32)) → making1.stands work parts → IfOk result (λ pic. pic ≡ picture1 parts) }
        ensures never_fails { IsOk result }
    {
        let _ = alloc;
        Ok(end(work))
    }
}

// The bytes that a picture begins with.
fn begin(at: &PicStart<'_>) -> Message
    requires vps { length at.now.vps.now ≤ 65536 }
    requires sps { length at.now.sps.now ≤ 65536 }
    requires pps { length at.now.pps.now ≤ 65536 }
    ensures { Fed result (start_bytes1 (start_of at.now)) }
{
    let mut message = Message::new();
    message.add(b"mvp1");
    message.add(&[at.layer]);
    message.add(&at.count.to_be_bytes());
    add_sets(&mut message, at.vps, at.sps, at.pps);
    message
}

// Adds a reference.
fn add_reference(message: &mut Message, kind: RefKind, pic: &Digest32)
    ensures { (before : List ℕ) → Fed message.old before → Fed message.new (before ++ reference_bytes1 (tag_of kind) pic.now) }
{
    message.add(&[1, kind_byte(kind)]);
    message.add(&pic.bytes);
}

// The digest, behind the byte that ends a picture.
fn end(mut work: Message) -> Digest32
    ensures { (bytes : List ℕ) → Fed work bytes → result ≡ record { bytes = digest_of (bytes ++ 3 ∷ []) } }
{
    work.add(&[3]);
    Digest32 {
        bytes: work.finish(),
    }
}
