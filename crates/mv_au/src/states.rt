//! Starts of sequences and layers, and which pictures are decoded.
#![tactic(auto)]

ghost use Rattle.std.specs.Prelude.{◌≡◌, ◌<◌, ◌∷◌, ◌||◌, [], true, false, List, is_ok, replicate, get_or, if◌then◌else◌};
ghost use Rattle.std.specs.List.{list_all};
ghost use Rattle.mv_layers.specs.LayerInfos.{directs_of};
ghost use Rattle.mv_pictures.specs.Facts.{Fact};
ghost use Rattle.mv_pictures.specs.History.{judged};
ghost use Rattle.mv_pictures.specs.Judged.{Judged};
ghost use Rattle.mv_pictures.specs.Kinds.{is_bla, is_rasl};
ghost use Rattle.mv_slice.specs.Numbers.{is_idr, is_irap};
ghost use Rattle.mv_vps.specs.Vps.{ValidVps};
ghost use Rattle.mv_au.specs.LayerState.{no_state};
ghost use Rattle.mv_au.specs.States.{IsAsked, IsEndOf, Stands, answer};
ghost use Rattle.mv_au.specs.StateSteps.{all_initialised, asked_by, behind, is_reset, is_skipped, is_start, is_without_irap, starts_layer, state_of, with_picture};

use mv_rules::Rule;
use mv_vps::Vps;
use std::marker::Model;

/// The layers that are kept, by nuh_layer_id.
const LAYERS: usize = 64;

/// What is asked of a picture.
#[derive(Clone, Copy, PartialEq, Eq, Debug)]
pub struct PicFacts {
    /// nuh_layer_id.
    pub layer: u8,
    /// nal_unit_type.
    pub kind: u8,
    /// How many entries its reference picture set has.
    pub entries: u8,
}

/// What becomes of a picture.
#[derive(Clone, Copy, PartialEq, Eq, Debug)]
pub enum PicState {
    /// Its layer starts with it; where that is layer 0, a coded video sequence does.
    Start,
    /// It is decoded, and its layer doesn't start with it.
    Decoded,
    /// It isn't decoded.
    Skipped,
}

/// Of a layer, whether it is initialised, and whether its latest IRAP picture or start in the sequence is a start.
#[derive(Clone, Copy, Debug)]
pub struct LayerState {
    initialised: bool,
    after_start: bool,
}

/// What a picture is by the states of layers: of layer 0 or another one, its type, whether the next base picture starts a
/// sequence, whether the latest base picture started one, whether all direct reference layers are initialised, its layer's
/// state, and the number of its entries.
#[derive(Clone, Copy)]
pub struct Asked {
    base: bool,
    kind: u8,
    anew: bool,
    in_first_au: bool,
    ready: bool,
    state: LayerState,
    entries: u8,
}

/// Which layers are initialised, and what the next pictures may start.
#[derive(Debug, Drop)]
pub struct LayerStates {
    layers: [LayerState; LAYERS],
    anew: bool,
    in_first_au: bool,
}

impl Model for LayerStates {
    ghost use Rattle.mv_au.specs.StatesValue.{StatesValue};

    ghost Value = { StatesValue };

    ghost view = { λ s. record { layers = s.layers; anew = s.anew; in_first_au = s.in_first_au } };
}

impl LayerStates {
    /// A stream without units: no layer is initialised, and the first base picture starts a sequence.
    pub fn new() -> Self
        ensures { Stands result [] }
    {
        LayerStates {
            layers: no_states(),
            anew: true,
            in_first_au: false,
        }
    }

    /// What becomes of the stream's next picture (8.1.3, 8.3.1, F.8.1.3). A picture of a layer above 0 stands in the access unit
    /// of the latest picture of layer 0. A refusal changes nothing.
    ///
    /// `NoIrap` where it would start a sequence and isn't an IRAP picture.
    pub fn picture(&mut self, vps: &Vps, pic: &PicFacts) -> Result<PicState, Rule>
        requires valid { ValidVps vps.now }
        requires layer { pic.now.layer < 64 }
        ensures answer { (past : List Judged) (p : Fact) → Stands self.old past → IsAsked vps.now pic.now past p → result ≡ answer past p }
        ensures stands { (past : List Judged) (p : Fact) → Stands self.old past → IsAsked vps.now pic.now past p → is_ok result ≡ true → Stands self.new (judged past p ∷ past) }
        ensures refused { is_ok result ≡ false → self.new ≡ self.old }
    {
        let asked = self.asked(vps, pic);
        if is_without_irap(&asked) {
            return Err(Rule::NoIrap);
        }
        self.go_on(pic.layer, &asked);
        Ok(state_of(&asked))
    }

    /// The end of a sequence in a layer, or of the bitstream in layer 0.
    pub fn eos(&mut self, layer: u8)
        requires { layer < 64 }
        ensures { (past : List Judged) (q : Fact) → Stands self.old past → IsEndOf layer q → Stands self.new (judged past q ∷ past) }
    {
        if layer == 0 {
            self.anew = true;
        } else {
            self.layers[layer as usize].initialised = false;
        }
    }

    fn asked(&self, vps: &Vps, pic: &PicFacts) -> Asked
        requires valid { ValidVps vps.now }
        requires layer { pic.now.layer < 64 }
        ensures { result ≡ asked_by self.now vps.now pic.now }
    {
        Asked {
            base: pic.layer == 0,
            kind: pic.kind,
            anew: self.anew,
            in_first_au: self.in_first_au,
            ready: are_initialised(&self.layers, vps, pic.layer),
            state: self.layers[pic.layer as usize],
            entries: pic.entries,
        }
    }

    fn go_on(&mut self, layer: u8, asked: &Asked)
        requires { layer < 64 }
        ensures { self.new ≡ with_picture self.old layer asked.now }
    {
        let start = is_start(asked);
        if asked.base {
            self.anew = false;
            self.in_first_au = start;
        }
        if asked.base && start {
            self.layers = no_states();
        }
        self.layers[layer as usize] = behind(asked);
    }
}

fn no_state() -> LayerState
    ensures { result ≡ no_state }
{
    LayerState {
        initialised: false,
        after_start: false,
    }
}

fn no_states() -> [LayerState; LAYERS]
    ensures { result ≡ replicate 64 no_state }
{
    [no_state(); LAYERS]
}

fn is_initialised(layers: &[LayerState], layer: u8) -> bool
    ensures { result ≡ (get_or layers.now layer no_state).initialised }
{
    match layers.get(layer as usize) {
        Some(state) => state.initialised,
        None => false,
    }
}

fn all_initialised(layers: &[LayerState], directs: &[u8]) -> bool
    ensures { result ≡ all_initialised layers.now directs.now }
{
    directs.iter().all(|layer| is_initialised(layers, *layer))
}

// All direct reference layers of a layer are initialised.
fn are_initialised(layers: &[LayerState], vps: &Vps, layer: u8) -> bool
    requires { ValidVps vps.now }
    ensures { result ≡ all_initialised layers.now (directs_of vps.now.derived.layers layer) }
{
    match vps.layer(layer) {
        Some(info) => all_initialised(layers, &info.directs),
        None => true,
    }
}

fn is_irap(kind: u8) -> bool
    ensures { result ≡ is_irap kind }
{
    16 <= kind && kind <= 21
}

fn is_idr_or_bla(kind: u8) -> bool
    ensures { result ≡ (is_idr kind || is_bla kind) }
{
    16 <= kind && kind <= 20
}

fn is_rasl(kind: u8) -> bool
    ensures { result ≡ is_rasl kind }
{
    8 <= kind && kind <= 9
}

// A base picture would start a sequence, and isn't an IRAP picture.
fn is_without_irap(asked: &Asked) -> bool
    ensures { result ≡ is_without_irap asked.now }
{
    asked.base && asked.anew && !is_irap(asked.kind)
}

// A picture may start its layer above 0.
fn starts_layer(asked: &Asked) -> bool
    ensures { result ≡ starts_layer asked.now }
{
    let fresh = !asked.state.initialised;
    let first = asked.in_first_au && fresh && asked.entries == 0;
    asked.ready && (is_idr_or_bla(asked.kind) || (is_irap(asked.kind) && fresh) || first)
}

#[tactic(auto, unfolding(crate::specs::StateSteps::is_start))]
fn is_start(asked: &Asked) -> bool
    ensures { result ≡ is_start asked.now }
{
    if asked.base {
        is_idr_or_bla(asked.kind) || asked.anew
    } else {
        starts_layer(asked)
    }
}

// A picture makes its layer above 0 uninitialised.
#[tactic(auto, unfolding(crate::specs::StateSteps::is_reset))]
fn is_reset(asked: &Asked) -> bool
    ensures { result ≡ is_reset asked.now }
{
    !asked.base && is_idr_or_bla(asked.kind) && asked.state.initialised && !is_start(asked)
}

#[tactic(auto, unfolding(crate::specs::StateSteps::is_skipped))]
fn is_skipped(asked: &Asked) -> bool
    ensures { result ≡ is_skipped asked.now }
{
    let behind_start = is_rasl(asked.kind) && asked.state.after_start;
    !is_start(asked) && (!asked.state.initialised || is_reset(asked) || behind_start)
}

fn state_of(asked: &Asked) -> PicState
    ensures { result ≡ state_of asked.now }
{
    if is_start(asked) {
        return PicState::Start;
    }
    if is_skipped(asked) {
        return PicState::Skipped;
    }
    PicState::Decoded
}

// The state of the picture's layer behind it.
fn behind(asked: &Asked) -> LayerState
    ensures { result ≡ behind asked.now }
{
    let start = is_start(asked);
    LayerState {
        initialised: start || (asked.state.initialised && !is_reset(asked)),
        after_start: if is_irap(asked.kind) || start {
            start
        } else {
            asked.state.after_start
        },
    }
}
