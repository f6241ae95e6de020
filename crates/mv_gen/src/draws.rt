//! Numbers drawn from a state, and the bytes that are made of them.

ghost use Rattle.std.specs.Prelude.{◌≡◌, ◌++◌, ◌/◌, ◌^◌, ◌<◌, map, IfOk, OnOk};
ghost use Rattle.std.specs.List.{range_with_len};
ghost use Rattle.mv_gen.specs.Draws.{next, behind, drawn, byte_of, draw};

use std::alloc::AllocError;

// The state behind a draw.
pub(crate) fn next(state: u64) -> u64
    ensures { result ≡ next state }
{
    state
        .wrapping_mul(6364136223846793005)
        .wrapping_add(1442695040888963407)
}

// The number that a draw gives which leaves this state.
pub(crate) fn drawn(state: u64) -> u64
    ensures { result ≡ drawn state }
{
    state >> 33
}

// The byte of slice segment data that is made of a drawn number.
#[tactic(auto, unfolding(crate::specs::Draws::byte_of))]
fn byte_of(number: u64) -> u8
    ensures { result ≡ byte_of number }
{
    if number % 4 == 0 {
        0
    } else {
        (number / 256 % 256) as u8
    }
}

// Appends bytes that are made of as many draws, and answers the state behind them.
pub(crate) fn push_drawn(bytes: &mut Vec<u8>, state: u64, count: u64) -> Result<u64, AllocError>
    ensures state { IfOk result (λ new. new ≡ behind state count) }
    ensures bytes { OnOk result (bytes.new.items ≡ bytes.old.items ++ map (λ i. byte_of (draw state i)) (range_with_len 0 count)) }
{
    let mut reached = state;
    for _turn in 0..count {
        reached = next(reached);
        bytes.push(byte_of(drawn(reached)))?;
    }
    Ok(reached)
}
