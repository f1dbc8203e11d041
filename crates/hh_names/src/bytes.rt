//! The order of bytes, eight at a time.

ghost use Rattle.std.specs.Prelude.{◌≡◌};
ghost use Rattle.std.specs.Cmp.Lexicographic.{slice_cmp};
ghost use Rattle.std.specs.Ordering.{nat_cmp};
ghost use Rattle.std.specs.Slice.Scan.{big_endian};

use std::cmp::Ordering;

/// The order of two texts by their bytes: eight of each at a time, and the last few one by one.
// Inlined, so that no loop is left for two buffers of a constant length.
#[inline(always)]
pub(crate) fn order_of_bytes(first: &[u8], second: &[u8]) -> Ordering
    ensures { result ≡ slice_cmp nat_cmp first.now second.now }
{
    let mut first_rest = first;
    let mut second_rest = second;
    while let (Some((first_eight, first_after)), Some((second_eight, second_after))) = (
        first_rest.split_first_chunk::<8>(),
        second_rest.split_first_chunk::<8>(),
    ) {
        let order = order_of_eight(first_eight, second_eight);
        if order.is_ne() {
            return order;
        }
        first_rest = first_after;
        second_rest = second_after;
    }
    first_rest.cmp(&second_rest)
}

/// The order of two groups of eight bytes, which is that of the numbers that they spell.
#[inline(always)]
fn order_of_eight(first: &[u8; 8], second: &[u8; 8]) -> Ordering
    ensures { result ≡ slice_cmp nat_cmp first.now second.now }
{
    number_of(first).cmp(&number_of(second))
}

/// The number that eight bytes spell, the first byte being the most significant.
#[inline(always)]
fn number_of(eight: &[u8; 8]) -> u64
    ensures { result ≡ big_endian 0 eight.now }
{
    u64::from_be_bytes(*eight)
}
