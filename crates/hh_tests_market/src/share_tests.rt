//! What no clause says and no program shows: shares of totals and by weights larger than a market has, and
//! the order of remainders.

use hh_share::*;
use std::alloc::Global;
use std::test::Fail;

/// A total, weights, and the shares of the total.
type Case = (i64, &'static [u64], &'static [i64]);

/// Shares of the greatest totals and by the greatest weights. They were computed from whole numbers of any
/// size by `shares_of` in `tests/test_commands.py`.
const CASES: [Case; 8] = [
    (i64::MIN, &[1], &[i64::MIN]),
    (i64::MAX, &[0, u64::MAX], &[0, i64::MAX]),
    (
        i64::MAX,
        &[u64::MAX, 1, u64::MAX],
        &[4_611_686_018_427_387_904, 0, 4_611_686_018_427_387_903],
    ),
    (
        -9_223_372_036_854_775_807,
        &[3, u64::MAX, 0, u64::MAX],
        &[
            -1,
            -4_611_686_018_427_387_903,
            0,
            -4_611_686_018_427_387_903,
        ],
    ),
    (
        -9_223_372_036_854_775_807,
        &[u64::MAX, 999, u64::MAX, 4, u64::MAX],
        &[
            -3_074_457_345_618_258_547,
            -166,
            -3_074_457_345_618_258_547,
            -1,
            -3_074_457_345_618_258_546,
        ],
    ),
    (
        7,
        &[u64::MAX, u64::MAX, 18_446_744_073_709_551_614],
        &[3, 2, 2],
    ),
    (
        -1_000_000_006,
        &[u64::MAX, 17_592_186_044_415, 0, 2],
        &[-999_999_052, -954, 0, 0],
    ),
    (
        i64::MAX,
        &[1, 1],
        &[4_611_686_018_427_387_904, 4_611_686_018_427_387_903],
    ),
];

/// Remainders, and their places from the greatest on.
const RANKED: [(&[i128], &[usize]); 5] = [
    (&[], &[]),
    (&[1, 3, 3], &[1, 2, 0]),
    (&[0, 0, 0], &[0, 1, 2]),
    (&[-4, 2, -1, 2], &[1, 3, 2, 0]),
    (&[i128::MIN, i128::MAX], &[1, 0]),
];

/// Whether a total is apportioned into these shares.
fn gives(alloc: Global, total: i64, weights: &[u64], wanted: &[i64]) -> bool {
    !weights.is_empty()
        && apportion(alloc, total, weights).is_ok_and(|shares| shares.as_slice() == wanted)
}

/// Whether these are the places of remainders from the greatest on.
fn ranks(alloc: Global, rests: &[i128], wanted: &[usize]) -> bool {
    ranked(alloc, rests).is_ok_and(|places| places.as_slice() == wanted)
}

#[test]
fn the_greatest_totals_and_weights(rt: HostRuntime) {
    for (total, weights, wanted) in CASES {
        assert!(rt; gives(rt.alloc(), total, weights, wanted), "at {total}");
    }
}

/// Whether a total is apportioned by 800 weights of the greatest size into this share, and one penny more
/// for the first accounts.
fn gives_alike(
    alloc: Global,
    total: i64,
    share: i64,
    penny: i64,
    more: usize,
) -> Result<bool, Fail> {
    let weights = vec![in alloc; u64::MAX; 800]?;
    let mut wanted = vec![in alloc; share; 800]?;
    for share in wanted.iter_mut().take(more) {
        *share = share.wrapping_add(penny);
    }
    Ok(gives(alloc, total, &weights, &wanted))
}

/// 800 equal parts of 2^63 pence leave 608 pence over.
#[test]
fn many_weights_of_the_greatest_size(rt: HostRuntime) -> Result<(), Fail> {
    assert!(rt; gives_alike(rt.alloc(), 1_000, 1, 1, 200)?);
    assert!(rt; gives_alike(rt.alloc(), i64::MIN, -11_529_215_046_068_469, -1, 608)?);
    Ok(())
}

#[test]
fn places_are_ranked(rt: HostRuntime) {
    for (rests, wanted) in RANKED {
        assert!(rt; ranks(rt.alloc(), rests, wanted));
    }
}
