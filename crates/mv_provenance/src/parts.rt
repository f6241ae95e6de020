//! The bytes of the parts of a picture which both formats have.

ghost use Rattle.std.specs.Prelude.{◌≡◌, ◌≤◌, ◌^◌, ℕ, List, ◌++◌, length};
ghost use Rattle.mv_rebuild.specs.Parts.{tag_of};
ghost use Rattle.mv_provenance.specs.Formats.{kind_of, list_bytes, payload_bytes, segment_bytes, sets_bytes};
ghost use Rattle.mv_provenance.specs.Message.{Fed};

use crate::message::Message;
use mv_rebuild::RefKind;

/// The byte of a part of the reference picture set, or of the inter-layer set.
pub(crate) fn kind_byte(kind: RefKind) -> u8
    ensures { result ≡ kind_of (tag_of kind) }
{
    match kind {
        RefKind::Before => 0,
        RefKind::After => 1,
        RefKind::Long => 2,
        RefKind::InterZero => 3,
        RefKind::InterOne => 4,
    }
}

/// Adds a payload: its length in four bytes, and its bytes.
pub(crate) fn add_payload(message: &mut Message, payload: &[u8])
    requires { length payload.now ≤ 65536 }
    ensures { (before : List ℕ) → Fed message.old before → Fed message.new (before ++ payload_bytes payload.now) }
{
    let length = payload.len() as u32;
    message.add(&length.to_be_bytes());
    message.add(payload);
}

/// Adds the payloads of the three parameter sets.
pub(crate) fn add_sets(message: &mut Message, vps: &[u8], sps: &[u8], pps: &[u8])
    requires vps { length vps.now ≤ 65536 }
    requires sps { length sps.now ≤ 65536 }
    requires pps { length pps.now ≤ 65536 }
    ensures { (before : List ℕ) → Fed message.old before →
        Fed message.new (before ++ sets_bytes vps.now sps.now pps.now) }
{
    add_payload(message, vps);
    add_payload(message, sps);
    add_payload(message, pps);
}

/// Adds a reference picture list: its length in one byte, and its places in one byte each.
pub(crate) fn add_list(message: &mut Message, places: &[u8])
    requires { length places.now ≤ 15 }
    ensures { (before : List ℕ) → Fed message.old before → Fed message.new (before ++ list_bytes places.now) }
{
    message.add(&[places.len() as u8]);
    message.add(places);
}

/// Adds a slice segment: its whole unit behind its length, and its two lists.
pub(crate) fn add_segment(message: &mut Message, unit: &[u8], list0: &[u8], list1: &[u8])
    requires unit { length unit.now ≤ 2 ^ 24 }
    requires list0 { length list0.now ≤ 15 }
    requires list1 { length list1.now ≤ 15 }
    ensures { (before : List ℕ) → Fed message.old before →
        Fed message.new (before ++ segment_bytes (record { bytes = unit.now; lists = record { list0 = list0.now; list1 = list1.now } })) }
{
    let length = unit.len() as u32;
    message.add(&[2]);
    message.add(&length.to_be_bytes());
    message.add(unit);
    add_list(message, list0);
    add_list(message, list1);
}
