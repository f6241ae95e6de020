//! Laws of emulation prevention. Each function has an empty body, and its contract is the law.
#![tactic(auto)]

ghost use Rattle.std.specs.Prelude.{◌≡◌, ◌≢◌, ◌+◌, ◌-◌, ◌*◌, ◌<◌, ◌≤◌, ℕ, List, All, IsOk, false, length, slice_index};
ghost use Rattle.mv_units.specs.declared.head.UnitHead.{UnitHead};
ghost use Rattle.mv_units.specs.Escapes.{escape, payload};
ghost use Rattle.mv_units.specs.Framing.{IsFramable};
ghost use Rattle.mv_units.specs.Head.{head};
ghost use Rattle.mv_units.specs.Rules.{checked_head, emulation, has_emulation, long_unit};
ghost use Rattle.mv_units.specs.Units.{has_code};

/// Of a unit that was made of a head and a payload, the payload is that payload, whatever bytes it has, and
/// the head is that head (7.3.1.1, 7.3.1.2).
pub fn a_payload_comes_back()
    ensures payload { (h : UnitHead) (p : List ℕ) → payload (escape h p) ≡ p }
    ensures head { (h : UnitHead) (p : List ℕ) → h.kind < 64 → h.layer < 64 → h.tid < 7 → head (escape h p) ≡ h }
{}

/// A unit whose head is in order, that breaks neither of the rules Emulation and Long, and that a byte stream
/// carries unchanged is the one that is made of its head and its payload (7.3.1.1, 7.4.2).
pub fn a_unit_comes_back()
    ensures { (u : List ℕ) → All (λ b. b < 256) u → IsOk (checked_head u) → emulation u ≡ false → long_unit u ≡ false →
        IsFramable u → escape (head u) (payload u) ≡ u }
{}

/// A unit that was made of a head and a payload holds no start code prefix and no other bytes that may stand
/// nowhere in a unit (7.4.2), and has at most three bytes more than twice the payload's. Where the payload's last
/// byte isn't zero, a byte stream carries the unit unchanged (Annex B).
pub fn an_escaped_unit_is_clean()
    ensures code { (h : UnitHead) (p : List ℕ) → has_code (escape h p) ≡ false }
    ensures emulation { (h : UnitHead) (p : List ℕ) → has_emulation (escape h p) ≡ false }
    ensures length { (h : UnitHead) (p : List ℕ) → length (escape h p) ≤ 3 + 2 * length p }
    ensures framable { (h : UnitHead) (p : List ℕ) → slice_index p (length p - 1) ≢ 0 → IsFramable (escape h p) }
{}
