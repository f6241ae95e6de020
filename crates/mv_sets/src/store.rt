//! The parameter sets that were received, and those that serve a slice segment.

ghost use Rattle.std.specs.Prelude.{◌≡◌, ◌<◌, ◌+◌, ◌^◌, ◌∷◌, [], true, List, Ok, IfOk, IfSome, OnOk, IsErr, option_map};
ghost use Rattle.mv_layers.specs.LayerInfos.{closure_of};
ghost use Rattle.mv_vps.specs.Vps.{ValidVps};
ghost use Rattle.mv_pictures.specs.Contexts.{format_of};
ghost use Rattle.mv_pictures.specs.AccessUnits.{Placed};
ghost use Rattle.mv_pictures.specs.Facts.{Fact, named_sets, turned};
ghost use Rattle.mv_sets.specs.Formats.{SpsFormatFits};
ghost use Rattle.mv_sets.specs.Resolved.{Answers, resolved};
ghost use Rattle.mv_sets.specs.Store.{CarriesPps, CarriesSps, Gives, IsAsked, Stands, serving};
ghost use Rattle.mv_sets.specs.Tables.{found};

use crate::format::format_of;
use crate::sets::{Active, PpsSet, SpsSet};
use crate::table::{Received, Table};
use mv_common::Format;
use mv_pps::Pps;
use mv_rules::{ReadFault, Rule};
use mv_sps::Sps;
use mv_vps::Vps;
use std::alloc::{AllocError, Global};
use std::marker::Model;
use std::rc::Rc;

/// How many ids of sequence parameter sets a layer has (7.4.3.2.1).
const SPS_IDS: usize = 16;

/// How many ids of picture parameter sets a layer has (7.4.3.3.1).
const PPS_IDS: usize = 64;

/// The parameter sets that were received, by nuh_layer_id and id, since the video parameter set last changed. Of each layer and
/// id the latest is kept.
#[derive(Debug, Drop)]
pub struct SetStore {
    alloc: Global,
    sps: Table<SpsSet>,
    pps: Table<PpsSet>,
}

impl Model for SetStore {
    ghost use Rattle.mv_sets.specs.StoreValue.{IsStore, StoreValue};

    ghost Value = { StoreValue };

    ghost view = { λ s. record { sps = s.sps; pps = s.pps } };

    ghost invariant = { λ s. IsStore (record { sps = s.sps; pps = s.pps }) };
}

impl SetStore {
    /// A store without sets, with the room for all.
    ///
    /// `AllocError` where memory runs out.
    pub fn new(alloc: Global) -> Result<SetStore, AllocError>
        ensures stands { IfOk result (λ store. Stands store []) }
        ensures counts { IfOk result (λ store. (store.sps.count ≡ 0) × (store.pps.count ≡ 0)) }
    {
        let sps = Table::new(alloc, SPS_IDS)?;
        let pps = Table::new(alloc, PPS_IDS)?;
        Ok(SetStore { alloc, sps, pps })
    }

    /// Adds a sequence parameter set that was received in a unit of this layer with this payload.
    ///
    /// `AllocError` where memory runs out: the set is dropped, and nothing else is changed.
    pub fn put_sps(&mut self, layer: u8, payload: &[u8], sps: Sps) -> Result<(), AllocError>
        requires layer { layer < 64 }
        requires id { sps.0.opening.sps_seq_parameter_set_id < 16 }
        requires format { SpsFormatFits sps.0 }
        requires count { self.old.sps.count + 1 < 2 ^ 64 }
        ensures added { (past : List Fact) (f : Fact) → Stands self.old past → CarriesSps f layer payload.now sps.0 → OnOk result (Stands self.new (f ∷ past)) }
        ensures counts { OnOk result ((self.new.sps.count ≡ self.old.sps.count + 1) × (self.new.pps ≡ self.old.pps)) }
        ensures refused { IsErr result → self.new ≡ self.old }
    {
        let id = sps.opening.sps_seq_parameter_set_id;
        let set = sps_set(self.alloc, layer, payload, sps)?;
        self.sps.put(layer, id, set);
        Ok(())
    }

    /// Adds a picture parameter set that was received in a unit of this layer with this payload.
    ///
    /// `AllocError` where memory runs out: the set is dropped, and nothing else is changed.
    pub fn put_pps(&mut self, layer: u8, payload: &[u8], pps: Pps) -> Result<(), AllocError>
        requires layer { layer < 64 }
        requires id { pps.0.opening.pps_pic_parameter_set_id < 64 }
        requires count { self.old.pps.count + 1 < 2 ^ 64 }
        ensures added { (past : List Fact) (f : Fact) → Stands self.old past → CarriesPps f layer payload.now pps.0 → OnOk result (Stands self.new (f ∷ past)) }
        ensures counts { OnOk result ((self.new.pps.count ≡ self.old.pps.count + 1) × (self.new.sps ≡ self.old.sps)) }
        ensures refused { IsErr result → self.new ≡ self.old }
    {
        let id = pps.opening.pps_pic_parameter_set_id;
        let set = pps_set(self.alloc, layer, payload, pps)?;
        self.pps.put(layer, id, set);
        Ok(())
    }

    /// The sequence parameter set of this layer and this sps_seq_parameter_set_id, if one was received: the latest.
    pub fn sps(&self, layer: u8, id: u32) -> Option<&Rc<SpsSet>>
        ensures { option_map (λ set. set.now.value) result ≡ option_map (λ n. n.set) (found self.now.sps id layer) }
    {
        match self.sps.get(layer, id) {
            Some(received) => Some(&received.set),
            None => None,
        }
    }

    /// The picture parameter set of this layer and this pps_pic_parameter_set_id, if one was received: the latest.
    pub fn pps(&self, layer: u8, id: u32) -> Option<&Rc<PpsSet>>
        ensures { option_map (λ set. set.now.value) result ≡ option_map (λ n. n.set) (found self.now.pps id layer) }
    {
        match self.pps.get(layer, id) {
            Some(received) => Some(&received.set),
            None => None,
        }
    }

    /// The parameter sets that serve a slice segment of this layer with this slice_pic_parameter_set_id, and the format that
    /// they give (7.4.1.4.1, F.7.4.1.4.1, by this project's profile): of the sets with the id that are of the layer or of one of
    /// its reference layers, direct or indirect, the one that was received last.
    ///
    /// `MissingPps` where there is no such picture parameter set. `MissingSps` where there is no sequence parameter set that it
    /// names, or no format that this names. `Memory` where a further owner of a set is refused.
    pub fn resolve(&self, vps: &Vps, layer: u8, pps_id: u8) -> Result<Active, ReadFault>
        requires { ValidVps vps.now }
        ensures { (past : List Fact) (p : Placed) → Stands self.now past → IsAsked vps.now layer pps_id p → Gives result (serving (named_sets past p)) }
    {
        self.answer(vps, layer, pps_id)
    }

    /// Leaves no set. The video parameter set changed.
    pub fn forget(&mut self)
        ensures stands { (past : List Fact) (f : Fact) → turned f ≡ true → Stands self.new (f ∷ past) }
        ensures counts { (self.new.sps.count ≡ 0) × (self.new.pps.count ≡ 0) }
    {
        self.sps.clear();
        self.pps.clear();
    }

    fn answer(&self, vps: &Vps, layer: u8, pps_id: u8) -> Result<Active, ReadFault>
        requires { ValidVps vps.now }
        ensures { Answers result (resolved self.now vps.now layer pps_id) }
    {
        let layers = closure_of(vps, layer);
        let Some(pps) = self.pps.latest(layers, u32::from(pps_id)) else {
            return Err(ReadFault::Refused(Rule::MissingPps));
        };
        let Some(sps) = self.sps.latest(layers, sps_id(pps)) else {
            return Err(ReadFault::Refused(Rule::MissingSps));
        };
        let Some(format) = format_by(vps, layer, sps) else {
            return Err(ReadFault::Refused(Rule::MissingSps));
        };
        active(sps, pps, format)
    }
}

// A sequence parameter set as it is kept.
fn sps_set(alloc: Global, layer: u8, payload: &[u8], value: Sps) -> Result<Rc<SpsSet>, AllocError>
    ensures { IfOk result (λ set. set.value ≡ record { layer = layer; payload = payload.now; value = value }) }
{
    let payload = payload.to_vec(alloc)?;
    match Rc::new(
        alloc,
        SpsSet {
            layer,
            payload,
            value,
        },
    ) {
        Ok(set) => Ok(set),
        Err(_) => Err(AllocError),
    }
}

// A picture parameter set as it is kept.
fn pps_set(alloc: Global, layer: u8, payload: &[u8], value: Pps) -> Result<Rc<PpsSet>, AllocError>
    ensures { IfOk result (λ set. set.value ≡ record { layer = layer; payload = payload.now; value = value }) }
{
    let payload = payload.to_vec(alloc)?;
    match Rc::new(
        alloc,
        PpsSet {
            layer,
            payload,
            value,
        },
    ) {
        Ok(set) => Ok(set),
        Err(_) => Err(AllocError),
    }
}

// A layer with its direct and indirect reference layers.
fn closure_of(vps: &Vps, layer: u8) -> &[u8]
    requires { ValidVps vps.now }
    ensures { result.now ≡ closure_of vps.now.derived.layers layer }
{
    match vps.layer(layer) {
        Some(info) => &info.closure,
        None => &[],
    }
}

// The sequence parameter set that a picture parameter set names.
fn sps_id(pps: &Received<PpsSet>) -> u32
    ensures { result ≡ pps.now.set.value.0.opening.pps_seq_parameter_set_id }
{
    pps.set.value.opening.pps_seq_parameter_set_id
}

fn format_by(vps: &Vps, layer: u8, sps: &Received<SpsSet>) -> Option<Format>
    requires valid { ValidVps vps.now }
    requires fits { SpsFormatFits sps.now.set.value.0 }
    ensures { result ≡ format_of vps.now layer sps.now.set.value.0 }
{
    format_of(vps, layer, &sps.set.value)
}

// A further owner of a set.
fn shared<T: Drop>(set: &Rc<T>) -> Option<Rc<T>>
    ensures { IfSome result (λ copy. copy.value ≡ set.now.value) }
{
    let copy: Result<_, _> = set.clone();
    copy.ok()
}

// The sets, as further owners of them.
fn active(
    sps: &Received<SpsSet>,
    pps: &Received<PpsSet>,
    format: Format,
) -> Result<Active, ReadFault>
    ensures { Answers result (Ok (record { sps = sps.now.set; pps = pps.now.set; format = format })) }
{
    let Some(sps) = shared(&sps.set) else {
        return Err(ReadFault::Memory);
    };
    let Some(pps) = shared(&pps.set) else {
        return Err(ReadFault::Memory);
    };
    Ok(Active { sps, pps, format })
}
