//! Shares by largest remainders: Hamilton's method.

ghost use Rattle.std.specs.Prelude.{◌≡◌, ◌==◌, ℕ, ◌<◌, ◌≤◌, ◌^◌, ◌-◌, ◌*◌, ◌/◌, ◌%◌, ◌≢◌, pos, unsigned_abs, nat_le, nat_lt, if◌then◌else◌, ◌+◌, length, map, replicate, count_by, sum, sum_by, All, IfOk};
ghost use Rattle.std.specs.List.{list_all};
ghost use Rattle.hh_share.specs.Shares.{counted_weights, shares, with_sign_of, AreQuotasRounded, SumsTo};
ghost use Rattle.hh_share.specs.steps.Shares.{sizes_by};
ghost use Rattle.hh_share.specs.Departure.{DepartsLeast};
ghost use Rattle.hh_share.specs.steps.Quotas.{quota_for};
ghost use Rattle.hh_share.specs.steps.Ranking.{HasPennies};

use crate::ranking::first_places;
use std::alloc::{AllocError, Global};

/// The exact part that a weight has of the apportioned pence.
#[derive(Clone, Copy)]
struct Quota {
    /// Its whole pence.
    lower: u64,
    /// The rest, in parts of a penny. The sum of the weights is the number of parts in a penny.
    remainder: u128,
}

/// Whether all weights are 0.
fn are_all_zero(weights: &[u64]) -> bool
    ensures { result ≡ list_all (λ w. w == 0) weights.now }
{
    weights.iter().all(|weight| *weight == 0)
}

/// The weights that count: each counts as 1 if all are 0.
fn counted_weights(alloc: Global, weights: &[u64]) -> Result<Vec<u64>, AllocError>
    ensures { IfOk result (λ v. v.items ≡ counted_weights weights.now) }
{
    if are_all_zero(weights) {
        ones(alloc, weights.len())
    } else {
        copied(alloc, weights)
    }
}

/// So many weights of 1.
fn ones(alloc: Global, count: usize) -> Result<Vec<u64>, AllocError>
    ensures { IfOk result (λ v. v.items ≡ replicate count 1) }
{
    vec![in alloc; 1; count]
}

/// The same weights.
fn copied(alloc: Global, weights: &[u64]) -> Result<Vec<u64>, AllocError>
    ensures { IfOk result (λ v. v.items ≡ weights.now) }
{
    weights.to_vec(alloc)
}

/// The sum of weights.
fn sum_of(weights: &[u64]) -> u128
    ensures { result ≡ sum weights.now }
{
    weights.iter().map(|weight| u128::from(*weight)).sum()
}

/// The quota of each weight.
fn quotas_of(alloc: Global, size: u64, weights: &[u64]) -> Result<Vec<Quota>, AllocError>
    requires few { length weights.now < 2 ^ 63 }
    requires positive { 0 < length weights.now → 0 < sum weights.now }
    ensures are { IfOk result (λ v. v.items ≡ map (quota_for size weights.now) weights.now) }
    ensures small { IfOk result (λ v. All (λ q. q.remainder < 2 ^ 127) v.items) }
{
    let sum = sum_of(weights);
    let mut quotas = Vec::with_capacity(alloc, weights.len())?;
    for weight in weights {
        quotas.push(quota_of(size, *weight, sum))?;
    }
    Ok(quotas)
}

/// The quota of one weight.
fn quota_of(size: u64, weight: u64, sum: u128) -> Quota
    requires positive { 0 < sum }
    requires part { weight ≤ sum }
    ensures lower { result.lower ≡ (size * weight) / sum }
    ensures remainder { result.remainder ≡ (size * weight) % sum }
{
    let product = u128::from(size) * u128::from(weight);
    Quota {
        lower: (product / sum) as u64,
        remainder: product % sum,
    }
}

/// The pence that the whole parts leave over.
fn pence_left(size: u64, quotas: &[Quota]) -> u64
    requires { sum_by (λ q. q.lower) quotas.now ≤ size }
    ensures { result ≡ size - sum_by (λ q. q.lower) quotas.now }
{
    size - quotas.iter().map(|quota| quota.lower).sum::<u64>()
}

/// The remainders, to be ranked.
fn rests_of(alloc: Global, quotas: &[Quota]) -> Result<Vec<i128>, AllocError>
    requires { All (λ q. q.remainder < 2 ^ 127) quotas.now }
    ensures { IfOk result (λ v. v.items ≡ map (λ q. pos q.remainder) quotas.now) }
{
    let mut rests = Vec::with_capacity(alloc, quotas.len())?;
    for quota in quotas {
        rests.push(quota.remainder as i128)?;
    }
    Ok(rests)
}

/// The whole pence of the quotas.
fn whole_pence(alloc: Global, quotas: &[Quota]) -> Result<Vec<u64>, AllocError>
    ensures { IfOk result (λ v. v.items ≡ map (λ q. q.lower) quotas.now) }
{
    quotas.iter().map(|quota| quota.lower).collect(alloc)
}

/// These whole pence, and one penny more for each time that their place is listed.
fn with_pennies(mut sizes: Vec<u64>, places: &[usize]) -> Vec<u64>
    requires inside { All (λ p. p < length sizes.items) places.now }
    requires few { length places.now ≤ length sizes.items }
    requires small { All (λ n. n ≤ 2 ^ 63) sizes.items }
    ensures { HasPennies sizes.items places.now result.items }
{
    for place in places {
        sizes[*place] += 1;
    }
    sizes
}

/// The sizes of the shares: their whole pence, and one of the leftover pence for each that is among the
/// first by remainder.
fn sizes_of(alloc: Global, size: u64, weights: &[u64]) -> Result<Vec<u64>, AllocError>
    requires small { size ≤ 2 ^ 63 }
    requires few { length weights.now < 2 ^ 63 }
    requires some { 0 < size → 0 < length weights.now }
    requires positive { 0 < length weights.now → 0 < sum weights.now }
    ensures { IfOk result (λ v. v.items ≡ sizes_by size weights.now) }
{
    let quotas = quotas_of(alloc, size, weights)?;
    let left = pence_left(size, &quotas);
    let first = first_places(alloc, &rests_of(alloc, &quotas)?, left as usize)?;
    Ok(with_pennies(whole_pence(alloc, &quotas)?, &first))
}

/// A size with the sign of a total.
fn signed(total: i64, size: u64) -> i64
    requires { size ≤ unsigned_abs total }
    ensures { result ≡ with_sign_of total size }
{
    let size = i128::from(size);
    (if total < 0 { -size } else { size }) as i64
}

/// The sizes with the sign of a total.
fn with_sign(alloc: Global, total: i64, sizes: &[u64]) -> Result<Vec<i64>, AllocError>
    requires { All (λ n. n ≤ unsigned_abs total) sizes.now }
    ensures { IfOk result (λ v. v.items ≡ map (with_sign_of total) sizes.now) }
{
    let mut shares = Vec::with_capacity(alloc, sizes.len())?;
    for size in sizes {
        shares.push(signed(total, *size))?;
    }
    Ok(shares)
}

/// Apportions a total of pence over accounts by their weights, by largest remainders. Each account
/// gets the whole pence of its quota. The pence that are left over go, one each, to the accounts with
/// the largest remainders, and of equal remainders to the earlier accounts. Each share has the total's
/// sign. If all weights are 0, each counts as 1. No other split of the total into whole pence has a
/// smaller sum of the squares of its shares' distances from the quotas.
pub fn apportion(alloc: Global, total: i64, weights: &[u64]) -> Result<Vec<i64>, AllocError>
    requires some { total ≢ pos 0 → 0 < length weights.now }
    ensures shares { IfOk result (λ v. v.items ≡ shares total weights.now) }
    ensures length { IfOk result (λ v. length v.items ≡ length weights.now) }
    ensures sum { IfOk result (λ v. SumsTo total v.items) }
    ensures within { IfOk result (λ v. All (λ s. unsigned_abs s ≤ unsigned_abs total) v.items) }
    ensures quota { IfOk result (λ v.
        AreQuotasRounded total (counted_weights weights.now) v.items) }
    ensures least { IfOk result (λ v. DepartsLeast total (counted_weights weights.now) v.items) }
{
    let weights = counted_weights(alloc, weights)?;
    let sizes = sizes_of(alloc, total.unsigned_abs(), &weights)?;
    with_sign(alloc, total, &sizes)
}
