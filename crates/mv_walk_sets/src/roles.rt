//! What is done with a unit by its head.
#![tactic(auto)]

ghost use Rattle.std.specs.Prelude.{◌≡◌, ◌&&◌, ◌||◌, true, false, List, ℕ, is_none};
ghost use Rattle.std.specs.Option.{option_copied};
ghost use Rattle.mv_units.specs.Rules.{bad_head};
ghost use Rattle.mv_pictures.specs.Kinds.{is_slice_kind};
ghost use Rattle.mv_pictures.specs.Items.{Item, is_known, is_vps_head, item};
ghost use Rattle.mv_pictures.specs.Facts.{Fact};
ghost use Rattle.mv_pictures.specs.Judged.{is_end as ends_all, is_layer_end};
ghost use Rattle.mv_walk_sets.specs.InForce.{AreRead, in_force};
ghost use Rattle.mv_walk_sets.specs.Roles.{Decides, IsFactOf, StandsBehind, head_needs_vps, is_end_head, role, role_at, role_of_kind};

use crate::in_force::{VpsInForce, knows};
use mv_rules::Rule;
use mv_units::UnitHead;

const VPS_NUT: u8 = 32;

const SPS_NUT: u8 = 33;

const PPS_NUT: u8 = 34;

const EOS_NUT: u8 = 36;

const EOB_NUT: u8 = 37;

/// What a unit is by its head (7.4.2.2, table 7-1).
#[derive(Clone, Copy, Debug, PartialEq, Eq)]
pub enum Role {
    /// Of a layer that the video parameter set in force hasn't: nothing is asked of it (this project's profile).
    Stray,
    /// Read no further than its head.
    Passed,
    /// A video parameter set of layer 0.
    Vps,
    /// A sequence parameter set.
    Sps,
    /// A picture parameter set.
    Pps,
    /// A slice segment of a coded picture.
    Slice,
}

fn is_vps(head: UnitHead) -> bool
    ensures { result ≡ is_vps_head head }
{
    head.kind == VPS_NUT && head.layer == 0
}

fn is_slice_kind(kind: u8) -> bool
    ensures { result ≡ is_slice_kind kind }
{
    kind <= 9 || (16 <= kind && kind <= 21)
}

// Where no video parameter set is in force such a unit is refused.
fn needs_vps(head: UnitHead) -> bool
    ensures { result ≡ head_needs_vps head }
{
    head.kind == SPS_NUT || head.kind == PPS_NUT || is_slice_kind(head.kind) || head.layer > 0
}

fn role_of_kind(kind: u8) -> Role
    ensures { result ≡ role_of_kind kind }
{
    if kind == SPS_NUT {
        return Role::Sps;
    }
    if kind == PPS_NUT {
        return Role::Pps;
    }
    if is_slice_kind(kind) {
        return Role::Slice;
    }
    Role::Passed
}

#[tactic(auto, unfolding(crate::specs::InForce::in_force))]
fn lacks_vps(vps: Option<&VpsInForce>, head: UnitHead) -> bool
    ensures { result ≡ (is_none (in_force (option_copied vps.entry)) && head_needs_vps head) }
{
    match vps {
        Some(_) => false,
        None => needs_vps(head),
    }
}

#[tactic(auto, unfolding(crate::specs::Roles::role_at))]
fn role_at(vps: Option<&VpsInForce>, head: UnitHead) -> Result<Role, Rule>
    requires { AreRead (option_copied vps) }
    ensures { result ≡ role_at (in_force (option_copied vps.entry)) head }
{
    if is_vps(head) {
        return Ok(Role::Vps);
    }
    if lacks_vps(vps, head) {
        return Err(Rule::NoVps);
    }
    if !knows(vps, head.layer) {
        return Ok(Role::Stray);
    }
    Ok(role_of_kind(head.kind))
}

/// What a unit is that stands behind others, where this video parameter set is in force behind those.
///
/// `NoVps` where none is in force, and the unit is a sequence or picture parameter set, a slice segment or of a layer above 0,
/// and no video parameter set of layer 0 (this project's profile).
pub fn role_of(vps: Option<&VpsInForce>, head: UnitHead) -> Result<Role, Rule>
    requires { AreRead (option_copied vps) }
    ensures role { (past : List Item) (u : List ℕ) → StandsBehind (in_force (option_copied vps.entry)) head past u → result ≡ role (item past u) }
    ensures decides { (past : List Item) (u : List ℕ) (f : Fact) → StandsBehind (in_force (option_copied vps.entry)) head past u → bad_head u ≡ false →
        IsFactOf (item past u) f → Decides (item past u) f result }
{
    role_at(vps, head)
}

/// Whether a unit that is known is an end of a sequence, or of the bitstream in layer 0 (7.4.2.2, table 7-1).
pub fn is_end(head: UnitHead) -> bool
    ensures { (f : Fact) → f.placed.item.head ≡ head → is_known f.placed.item ≡ true → result ≡ (ends_all f || is_layer_end f) }
{
    ends(head)
}

fn ends(head: UnitHead) -> bool
    ensures { result ≡ is_end_head head }
{
    head.kind == EOS_NUT || (head.kind == EOB_NUT && head.layer == 0)
}
