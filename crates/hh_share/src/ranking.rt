//! The order in which leftover pence are given out.

ghost use Rattle.std.specs.Prelude.{◌≡◌, ◌≤◌, ℕ, length, map, IfOk};
ghost use Rattle.std.specs.List.{enumerate_from};
ghost use Rattle.std.specs.List.Sorted.{IsPermutation, IsSorted};
ghost use Rattle.hh_share.specs.Ranking.{rest_cmp, places_in, AreRanked};
ghost use Rattle.hh_share.specs.steps.Ranking.{AreFirst};

use std::alloc::{AllocError, Global};
use std::cmp::Ordering;

/// The rests, each with its place.
fn placed(alloc: Global, rests: &[i128]) -> Result<Vec<(usize, i128)>, AllocError>
    ensures { IfOk result (λ v. v.items ≡ enumerate_from 0 rests.now) }
{
    rests.iter().copied().enumerate().collect(alloc)
}

/// The order of places with their rests: the larger rest first, and of equal ones the earlier place.
fn order_of_rests(left: &(usize, i128), right: &(usize, i128)) -> Ordering
    ensures { result ≡ rest_cmp left.now right.now }
{
    right.1.cmp(&left.1).then(left.0.cmp(&right.0))
}

/// Sorts places with their rests: larger rests first, and of equal ones the earlier places.
fn sorted(mut placed: Vec<(usize, i128)>) -> Vec<(usize, i128)>
    ensures same { IsPermutation placed.items result.items }
    ensures ordered { IsSorted rest_cmp result.items }
{
    placed.sort_unstable_by(|left, right| order_of_rests(left, right));
    placed
}

/// The places, without their rests.
fn places_of(alloc: Global, placed: &[(usize, i128)]) -> Result<Vec<usize>, AllocError>
    ensures { IfOk result (λ v. v.items ≡ map (λ a. a.0) placed.now) }
{
    placed.iter().map(|one| one.0).collect(alloc)
}

/// The places of rests, counted from 0, in the order in which leftover pence are given out: those of
/// larger rests first, and of equal ones the earlier. Each place occurs once. Fails only if memory is
/// refused.
pub fn ranked(alloc: Global, rests: &[i128]) -> Result<Vec<usize>, AllocError>
    ensures once { IfOk result (λ v. IsPermutation (places_in rests.now) v.items) }
    ensures ranks { IfOk result (λ v. AreRanked rests.now v.items) }
{
    let sorted = sorted(placed(alloc, rests)?);
    places_of(alloc, &sorted)
}

/// The places of the `count` rests that get the leftover pence: the first of `ranked`, in no stated
/// order. Fails only if memory is refused.
pub(crate) fn first_places(
    alloc: Global,
    rests: &[i128],
    count: usize,
) -> Result<Vec<usize>, AllocError>
    requires { count ≤ length rests.now }
    ensures { IfOk result (λ v. AreFirst rests.now count v.items) }
{
    let mut placed = placed(alloc, rests)?;
    if count == placed.len() {
        return places_of(alloc, &placed);
    }
    let (first, _, _) = placed.select_nth_unstable_by(
        count,
        |left, right| order_of_rests(left, right),
    );
    places_of(alloc, first)
}
