//! The generator.

ghost use Rattle.std.specs.Prelude.{◌≡◌, IfOk};
ghost use Rattle.mv_gen.specs.Units.{gen_units, Gives};
ghost use Rattle.mv_gen.specs.Segments.{segment_from, state_behind};

use crate::draws::{drawn, next, push_drawn};
use crate::headers::{head_of, push_header};
use crate::parameter_sets::{PARAMETER_SETS, parameter_set};
use mv_bytestream::escape;
use std::alloc::{AllocError, Global};
use std::marker::Model;

/// The byte behind the drawn bytes of a slice segment's data, which ends a unit.
const LAST: u8 = 0x80;

/// The greatest length of a slice segment header and of the data behind it.
const ROOM: usize = 72;

/// A stream of two views, unit by unit. It is seen as the list of the units that it still gives.
#[derive(Debug, Drop)]
pub struct Gen {
    number: u64,
    count: u32,
    // How many units were given.
    given: u64,
    // The state behind their draws.
    state: u64,
}

// A slice segment, and the state behind its draws.
struct Drawn {
    unit: Vec<u8>,
    state: u64,
}

impl Model for Gen {
    ghost use Rattle.std.specs.Prelude.{◌≡◌, ◌≤◌, ◌-◌, ◌+◌, ◌*◌, ℕ, List, drop};
    ghost use Rattle.mv_gen.specs.Units.{gen_units, state_before};

    ghost Value = { List (List ℕ) };

    ghost view = { λ g. drop g.given (gen_units g.number g.count) };

    ghost invariant = { λ g. (g.given ≤ 5 + 2 * g.count) × (g.state ≡ state_before g.number (g.given - 5)) };
}

impl Gen {
    /// The stream of this number, with as many access units: five parameter sets, and then for each access unit a picture
    /// of the base view and one of the second view.
    pub fn new(number: u64, count: u32) -> Gen
        ensures { result ≡ gen_units number count }
    {
        Gen {
            number,
            count,
            given: 0,
            state: number,
        }
    }

    /// The next unit, without a start code; `None` exactly where all units were given.
    ///
    /// # Errors
    ///
    /// `AllocError` where memory runs out. Nothing changes then.
    pub fn next_unit(&mut self, alloc: Global) -> Result<Option<Vec<u8>>, AllocError>
        ensures { Gives self.old self.new result }
    {
        if self.given < PARAMETER_SETS {
            let unit = copy_of(alloc, parameter_set(self.given))?;
            self.given += 1;
            return Ok(Some(unit));
        }
        let place = self.given - PARAMETER_SETS;
        if place == 2 * u64::from(self.count) {
            return Ok(None);
        }
        let Drawn { unit, state } = segment(alloc, self.state, place)?;
        self.given += 1;
        self.state = state;
        Ok(Some(unit))
    }
}

fn copy_of(alloc: Global, bytes: &[u8]) -> Result<Vec<u8>, AllocError>
    ensures { IfOk result (λ copy. copy.items ≡ bytes.now) }
{
    let mut copy = Vec::with_capacity(alloc, bytes.len())?;
    copy.extend_from_slice(bytes)?;
    Ok(copy)
}

// Slice segment `place` of the pictures, whose draws begin at a state: the pictures of the base view have the even places.
fn segment(alloc: Global, state: u64, place: u64) -> Result<Drawn, AllocError>
    ensures unit { IfOk result (λ drawn. drawn.unit.items ≡ segment_from state place) }
    ensures state { IfOk result (λ drawn. drawn.state ≡ state_behind state) }
{
    let layer = (place % 2) as u8;
    let lsb = (place / 2 % 8) as u8;
    let first = next(state);
    let mut payload = Vec::with_capacity(alloc, ROOM)?;
    push_header(&mut payload, layer, lsb)?;
    let state = push_drawn(&mut payload, first, 1 + drawn(first) % 64)?;
    payload.push(LAST)?;
    let unit = escape(alloc, head_of(layer, lsb), &payload)?;
    Ok(Drawn { unit, state })
}
