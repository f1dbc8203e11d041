//! Division to the nearest whole number.

ghost use Rattle.std.specs.Prelude.{◌≡◌, ◌≤◌, ◌^◌, ℤ, pos, ◌<ℤ◌, unsigned_abs};
ghost use Rattle.hh_num.specs.Rounding.{IsNear, near};

/// The whole number nearest to `n / m`. If two are nearest, it is the one farther from zero (profile).
///
/// `m` is above 0, and both are at most 10^30 in size, so that nothing overflows.
pub fn round_div(n: i128, m: i128) -> i128
    requires divisor { pos 0 <ℤ m }
    requires divisor_limit { unsigned_abs m ≤ 10 ^ 30 }
    requires limit { unsigned_abs n ≤ 10 ^ 30 }
    ensures nearest { IsNear n m result }
    ensures exact { result ≡ near n m }
{
    let by = m.unsigned_abs();
    let nearest = ((2 * n.unsigned_abs() + by) / (2 * by)) as i128;
    if n < 0 { -nearest } else { nearest }
}

/// The rounding is one number: no two whole numbers are nearest to `n / m`.
pub fn nearest_is_one()
    ensures { (n m r s : ℤ) → pos 0 <ℤ m → IsNear n m r → IsNear n m s → r ≡ s }
{}
