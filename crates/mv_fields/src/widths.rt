//! The widths of fields that number the things of a list.

ghost use Rattle.std.specs.Prelude.{ℕ, ◌≡◌, ◌≤◌, ◌^◌};
ghost use Rattle.mv_fields.specs.Widths.{clog2, IsClog2};

/// The least k with 2^k at least x, Ceil(Log2(x)) (5.8), which is at most `most`.
pub fn clog2(x: u32, most: u8) -> u8
    requires least { x ≤ 2 ^ most }
    requires range { most ≤ 31 }
    ensures is { result ≡ clog2 x }
    ensures within { result ≤ most }
{
    let mut k = 0;
    'double: while k < most && (1 << k) < x {
        k += 1;
    }
    k
}

/// Ceil(Log2(x)) is the least k with 2^k at least x.
pub fn clog2_laws()
    ensures { (x : ℕ) → x ≤ 2 ^ 32 → IsClog2 x (clog2 x) }
{}
