//! One layer's pictures.
#![tactic(auto)]

ghost use Rattle.std.specs.Prelude.{◌≡◌, ◌≤◌, ◌<◌, ◌-◌, [], false, All, AllPairs, length, IfOk, IfErr, option_map};
ghost use Rattle.mv_rps.specs.Asked.{counted};
ghost use Rattle.mv_rps.specs.Refused.{IsTold};
ghost use Rattle.mv_rps.specs.Resolving.{is_after, is_before, is_long, is_missing, kept_of, missing, part};
ghost use Rattle.mv_walk_layer.specs.LatestOf.{latest_of};
ghost use Rattle.mv_walk_layer.specs.LayerValue.{found, is_other_sps, last_picture, latest_here, no_pictures, picture_at, referred, with_count, with_decoded, with_picture};

use mv_common::Format;
use mv_dpb::{Buffer, Held, Keep};
use mv_rps::{PocAsk, PocState, RefFault, RefSet, Resolved};
use mv_rules::Rule;
use mv_sets::SpsSet;
use std::alloc::{AllocError, Global};
use std::marker::Model;
use std::rc::Rc;

/// What is told of a layer's latest decoded picture in the sequence.
#[derive(Debug, Drop)]
pub struct Latest {
    /// The number of its access unit.
    pub au: u64,
    /// Its sequence parameter set.
    pub sps: Rc<SpsSet>,
    /// Its format.
    pub format: Format,
}

/// The pictures of one layer: the anchor of counts, those that are held for reference, and the latest decoded picture.
#[derive(Drop)]
pub struct LayerPictures<P> {
    counts: PocState,
    buffer: Buffer<P>,
    latest: Option<Latest>,
}

impl<P> Model for LayerPictures<P> {
    ghost use Rattle.std.specs.Prelude.{option_map};
    ghost use Rattle.mv_walk_layer.specs.LatestOf.{latest_of};
    ghost use Rattle.mv_walk_layer.specs.LayerValue.{LayerValue, layer_code};

    ghost Value = { LayerValue P };

    ghost coded = { layer_code P.code };

    ghost view = { λ l. record { counts = l.counts; buffer = l.buffer; latest = option_map latest_of l.latest } };
}

impl<P: Drop> LayerPictures<P> {
    /// A layer of which no picture came, with the room for 16 pictures.
    pub fn new(alloc: Global) -> Result<Self, AllocError>
        ensures { IfOk result (λ layer. layer ≡ no_pictures) }
    {
        let buffer = Buffer::new(alloc)?;
        Ok(LayerPictures {
            counts: PocState::new(),
            buffer,
            latest: None,
        })
    }

    /// A sequence starts: nothing is left of the pictures before.
    pub fn forget(&mut self)
        ensures { self.new ≡ no_pictures }
    {
        self.counts = PocState::new();
        self.buffer.clear();
        self.latest = None;
    }

    /// PicOrderCntVal of the layer's next picture (8.3.1, F.8.3.1). A refusal changes nothing.
    ///
    /// `PocRange` where it has none within 32 bits, and else `PocMismatch` where a picture of a layer above 0 hasn't the count of
    /// the base picture, or the low bits that are coded in a start aren't those of its count.
    pub fn count(&mut self, asked: &PocAsk) -> Result<i32, Rule>
        requires some { 1 ≤ asked.now.max_lsb }
        requires few { asked.now.max_lsb ≤ 65536 }
        ensures count { result ≡ counted self.old.counts asked.now }
        ensures anchor { self.new ≡ with_count asked.now self.old }
    {
        self.counts.next(asked)
    }

    /// Whether the latest decoded picture in the sequence has another sequence parameter set, by its payload (this project's
    /// profile, rule SpsChanged); false where there is no such picture.
    pub fn has_other_sps(&self, sps: &SpsSet) -> bool
        ensures { result ≡ is_other_sps sps.now.payload self.now }
    {
        match &self.latest {
            Some(latest) => sps.payload != latest.sps.payload,
            None => false,
        }
    }

    /// The latest decoded picture, where it is of this access unit.
    pub fn here(&self, au: u64) -> Option<&Latest>
        ensures { option_map (λ latest. latest_of latest.now) result ≡ latest_here au self.now }
    {
        match &self.latest {
            Some(latest) => { if latest.au == au { Some(latest) } else { None } }
            None => None,
        }
    }

    /// The pictures that a picture's entries match among those held (8.3.2); a start finds none held.
    ///
    /// `MissingRef` where an entry that the picture uses has no match, and `Memory` where memory runs out.
    pub fn resolve(&self, alloc: Global, set: &RefSet, start: bool) -> Result<Resolved, RefFault>
        ensures keep { IfOk result (λ v. v.keep.items ≡ kept_of set.now (found start self.now)) }
        ensures rising { IfOk result (λ v. AllPairs (λ k l. k.place < l.place) v.keep.items) }
        ensures within { IfOk result (λ v. All (λ k. k.place < length self.now.buffer) v.keep.items) }
        ensures few { IfOk result (λ v. length v.keep.items ≤ length set.now.entries) }
        ensures before { IfOk result (λ v. v.before.items ≡ part is_before set.now (found start self.now)) }
        ensures after { IfOk result (λ v. v.after.items ≡ part is_after set.now (found start self.now)) }
        ensures long { IfOk result (λ v. v.long.items ≡ part is_long set.now (found start self.now)) }
        ensures whole { IfOk result (λ _. is_missing set.now (found start self.now) ≡ false) }
        ensures refused { IfErr result (λ fault. IsTold fault (missing set.now (found start self.now))) }
    {
        set.resolve(alloc, self.found(start))
    }

    /// The picture at an index among those held that are kept, with its count, before `decode` keeps them.
    pub fn referred(&self, keep: &[Keep], index: u8) -> Option<(i32, &Rc<P>)>
        ensures { option_map (λ p. (p.0, p.1.now.value)) result ≡ referred keep.now index self.now }
    {
        match keep.get(index as usize) {
            Some(one) => self.picture_at(one.place),
            None => None,
        }
    }

    /// A picture is decoded: of the pictures held those stay that are kept, behind a start none, and it is the latest decoded
    /// picture from now on.
    pub fn decode(&mut self, start: bool, keep: &[Keep], latest: Latest)
        requires rising { AllPairs (λ k l. k.place < l.place) keep.now }
        requires within { All (λ k. k.place < length self.old.buffer) keep.now }
        ensures { self.new ≡ with_decoded start keep.now (latest_of latest) self.old }
    {
        if start {
            self.buffer.clear();
        } else {
            self.buffer.apply(keep);
        }
        self.latest = Some(latest);
    }

    /// A picture is whole: it is held from now on, marked "used for short-term reference".
    pub fn finish(&mut self, count: i32, au: u64, pic: Rc<P>)
        requires { length self.old.buffer < 16 }
        ensures { self.new ≡ with_picture count au pic.value self.old }
    {
        self.buffer.insert(count, au, pic);
    }

    /// The picture that was decoded last among those held, with its count, if any is held.
    pub fn picture(&self) -> Option<(i32, &Rc<P>)>
        ensures { option_map (λ p. (p.0, p.1.now.value)) result ≡ last_picture self.now }
    {
        self.picture_at(last_place(self.buffer.held()))
    }

    // What is told of the pictures that a picture finds held.
    fn found(&self, start: bool) -> &[Held]
        ensures held { result.now ≡ found start self.now }
        ensures few { length result.now ≤ 16 }
    {
        if start { &[] } else { self.buffer.held() }
    }

    // The picture at a place of the buffer, with its count.
    fn picture_at(&self, place: u8) -> Option<(i32, &Rc<P>)>
        ensures { option_map (λ p. (p.0, p.1.now.value)) result ≡ picture_at place self.now }
    {
        let picture = self.buffer.lookup(place)?;
        let held = self.buffer.held().get(place as usize)?;
        Some((held.count, picture))
    }
}

// The place of the last picture in a buffer.
fn last_place(held: &[Held]) -> u8
    requires { length held.now ≤ 16 }
    ensures { result ≡ length held.now - 1 }
{
    if held.is_empty() {
        return 0;
    }
    (held.len() - 1) as u8
}
