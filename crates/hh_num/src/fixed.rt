//! Numbers with a point, as whole numbers of units. A unit is 10^-decimals.

ghost use Rattle.std.specs.Prelude.{◌≡◌, ◌≤◌, ◌<◌, ◌*◌, ◌^◌, ◌∷◌, ◌++◌, ℤ, ℕ, List, length, position, Some, IfSome, IfNone, OnOk, OnErr, FitsSigned, replicate, take, drop};
ghost use Rattle.std.specs.Int.{w64};
ghost use Rattle.hh_num.specs.Fixed.{fixed_value, unsigned_units, kept_if, fits_u64, fits_i64, units_of, is_point, signed, IsFixed, fixed_text, fraction_text, flush_right};
ghost use Rattle.hh_num.specs.steps.Fixed.{digits_behind, size_text, units_behind, units_with_fraction, AreFew};

use itoa::write_digits;
use std::alloc::AllocError;

/// The most digits whose number is always below 2^64.
const FEW_DIGITS: usize = 19;

/// The number that `digits` write behind the digits of `front`, if it is below 2^64.
#[tactic(auto, using(crate::proofs::FixedFacts::digits_behind_large))]
fn digits_behind_front(front: u64, digits: &[u8]) -> Option<u64>
    ensures { result ≡ kept_if fits_u64 (digits_behind front digits.now) }
{
    let mut number = front;
    for digit in digits {
        if !digit.is_ascii_digit() {
            return None;
        }
        number = number
            .checked_mul(10)?
            .checked_add(u64::from(digit - b'0'))?;
    }
    Some(number)
}

/// The number that `digits` write behind the digits of `front`. They are so few together that it is
/// below 2^64.
fn few_digits_behind(front: u64, digits: &[u8]) -> Option<u64>
    requires few { AreFew front digits.now }
    ensures { result ≡ kept_if fits_u64 (digits_behind front digits.now) }
{
    let mut number = front;
    for digit in digits {
        if !digit.is_ascii_digit() {
            return None;
        }
        number = number * 10 + u64::from(digit - b'0');
    }
    Some(number)
}

/// The number that `digits` write, if it is below 2^64.
#[tactic(auto, using(crate::proofs::FewDigits::few_none))]
pub(crate) fn number_of(digits: &[u8]) -> Option<u64>
    ensures { result ≡ kept_if fits_u64 (digits_behind 0 digits.now) }
{
    if digits.len() <= FEW_DIGITS {
        few_digits_behind(0, digits)
    } else {
        digits_behind_front(0, digits)
    }
}

/// A number times a power of ten, if that is below 2^64.
fn times_ten_to(number: u64, place: u32) -> Option<u64>
    requires { place ≤ 10 }
    ensures { result ≡ kept_if fits_u64 (Some (number * 10 ^ place)) }
{
    if place == 0 {
        return Some(number);
    }
    number.checked_mul(ten_to(place))
}

/// The units of a number with digits behind its point. The digits are few together.
#[tactic(auto, using(crate::proofs::ShortFacts::fraction_units))]
fn units_with_fraction(whole: u64, fraction: &[u8], decimals: u32) -> Option<u64>
    requires decimals { decimals ≤ 10 }
    requires few { AreFew whole fraction.now }
    ensures { result ≡ kept_if fits_u64 (units_with_fraction decimals whole fraction.now) }
{
    if fraction.is_empty() || fraction.len() > decimals as usize {
        return None;
    }
    let number = few_digits_behind(whole, fraction)?;
    times_ten_to(number, decimals - fraction.len() as u32)
}

/// The units of a short text that begins with a digit.
fn units_of_short(text: &[u8], decimals: u32) -> Option<u64>
    requires decimals { decimals ≤ 10 }
    requires short { length text.now ≤ 19 }
    ensures { result ≡ kept_if fits_u64 (units_behind decimals 0 text.now) }
{
    let mut whole = 0;
    for place in 0..text.len() {
        match text[place] {
            digit @ b'0'..=b'9' => whole = whole * 10 + u64::from(digit - b'0'),
            b'.' => return units_with_fraction(whole, &text[place + 1..], decimals),
            _ => return None,
        }
    }
    times_ten_to(whole, decimals)
}

/// The units of the digits before a point and behind it, if they are below 2^64.
fn units(whole: &[u8], fraction: &[u8], decimals: u32) -> Option<u64>
    requires { decimals ≤ 10 }
    ensures { result ≡ kept_if fits_u64 (units_of decimals whole.now fraction.now) }
{
    if whole.is_empty() || fraction.len() > decimals as usize {
        return None;
    }
    let missing = decimals - fraction.len() as u32;
    let number = digits_behind_front(digits_behind_front(0, whole)?, fraction)?;
    number.checked_mul(ten_to(missing))
}

/// The place of a text's first point.
fn point_of(text: &[u8]) -> Option<usize>
    ensures { result ≡ position is_point text.now }
{
    text.iter().position(|byte| *byte == b'.')
}

/// The units of a text with no sign, of any length.
#[tactic(auto, unfolding(crate::specs::Fixed::unsigned_units))]
fn units_of_any(text: &[u8], decimals: u32) -> Option<u64>
    requires { decimals ≤ 10 }
    ensures { result ≡ kept_if fits_u64 (unsigned_units decimals text.now) }
{
    match point_of(text) {
        Some(point) if point + 1 < text.len() => {
            units(&text[..point], &text[point + 1..], decimals)
        }
        Some(_) => None,
        None => units(text, &[], decimals),
    }
}

/// The units of a text with no sign.
#[tactic(auto, using(crate::proofs::ShortFacts::unsigned_units_by_front))]
fn read_unsigned(text: &[u8], decimals: u32) -> Option<u64>
    requires { decimals ≤ 10 }
    ensures { result ≡ kept_if fits_u64 (unsigned_units decimals text.now) }
{
    if text.is_empty() || text[0] == b'.' {
        return None;
    }
    if text.len() <= FEW_DIGITS {
        units_of_short(text, decimals)
    } else {
        units_of_any(text, decimals)
    }
}

/// A number of units with its sign, if that is an `i64`.
fn with_sign(negative: bool, units: u64) -> Option<i64>
    ensures { result ≡ kept_if fits_i64 (Some (signed negative units)) }
{
    let units = i128::from(units);
    i64::try_from(if negative { -units } else { units }).ok()
}

/// The units that a text writes, if they are an `i64`.
#[tactic(auto, using(crate::proofs::FixedFacts::kept_signed), unfolding(crate::specs::Fixed::fixed_value))]
fn read_signed(text: &[u8], decimals: u32) -> Option<i64>
    requires { decimals ≤ 10 }
    ensures { result ≡ kept_if fits_i64 (fixed_value decimals text.now) }
{
    match text {
        [b'-', rest @ ..] => with_sign(true, read_unsigned(rest, decimals)?),
        _ => with_sign(false, read_unsigned(text, decimals)?),
    }
}

/// Reads a decimal text as units of 10^-decimals, at most 10 decimals.
///
/// The grammar (profile) is `-?digits(.digits)?`: a minus sign or none, one or more ASCII digits, and
/// then nothing, or a point with one or more digits behind it, at most `decimals` of them. There is no
/// plus sign, blank, exponent or grouping. Zeros in front are allowed. `-0` is 0.
///
/// `None` if the text is not in the grammar, has a decimal too many, or its units are no `i64`.
#[tactic(auto, using(crate::proofs::GrammarFacts::kept_fixed))]
pub fn read_fixed(text: &[u8], decimals: u32) -> Option<i64>
    requires { decimals ≤ 10 }
    ensures some { IfSome result (λ v. IsFixed decimals text.now v) }
    ensures none { IfNone result ((v : ℤ) → IsFixed decimals text.now v → FitsSigned w64 v → ⊥) }
    ensures exact { result ≡ kept_if fits_i64 (fixed_value decimals text.now) }
{
    read_signed(text, decimals)
}

/// A power of ten.
fn ten_to(place: u32) -> u64
    requires { place ≤ 10 }
    ensures value { result ≡ 10 ^ place }
    ensures positive { 0 < result }
{
    match place {
        0 => 1,
        1 => 10,
        2 => 100,
        3 => 1_000,
        4 => 10_000,
        5 => 100_000,
        6 => 1_000_000,
        7 => 10_000_000,
        8 => 100_000_000,
        9 => 1_000_000_000,
        _ => 10_000_000_000,
    }
}

/// The bytes of a buffer for the text of any number. The text has 31 at most, so some are to spare.
const ROOM: usize = 40;

/// Writes a point and `decimals` digits behind it to the end of a buffer, and returns the place of the
/// point. The number is below 10^decimals. Without decimals it writes nothing.
///
/// It writes a 1 before the digits, so that zeros in front are kept, and then the point over the 1.
fn put_fraction(room: &mut [u8; ROOM], number: u64, decimals: u32) -> usize
    requires few { decimals ≤ 10 }
    requires below { number < 10 ^ decimals }
    ensures start { (29 ≤ result) × (result ≤ 40) }
    ensures written { drop result room.new ≡ fraction_text decimals number }
    ensures before { take result room.new ≡ take result room.old }
{
    if decimals == 0 {
        return ROOM;
    }
    let point = write_digits(ten_to(decimals) + number, room, ROOM);
    room[point] = b'.';
    point
}

/// Writes the digits before the point and the fraction to the end of a buffer. Returns their start.
fn put_size(room: &mut [u8; ROOM], size: u64, decimals: u32) -> usize
    requires { decimals ≤ 10 }
    ensures start { (9 ≤ result) × (result ≤ 40) }
    ensures written { drop result room.new ≡ size_text decimals size }
    ensures before { take result room.new ≡ take result room.old }
{
    let unit = ten_to(decimals);
    let end = put_fraction(room, size % unit, decimals);
    write_digits(size / unit, room, end)
}

/// Writes the text of a number to the end of a buffer. Returns its start.
fn put_fixed(room: &mut [u8; ROOM], units: i64, decimals: u32) -> usize
    requires { decimals ≤ 10 }
    ensures start { (8 ≤ result) × (result ≤ 40) }
    ensures written { drop result room.new ≡ fixed_text decimals units }
    ensures before { take result room.new ≡ take result room.old }
{
    let start = put_size(room, units.unsigned_abs(), decimals);
    if units >= 0 {
        return start;
    }
    room[start - 1] = b'-';
    start - 1
}

/// Appends the one spelling of a number of units of 10^-decimals, at most 10 decimals.
///
/// The spelling (profile) is a minus sign if the number is below 0, and then the digits before the
/// point with no needless zero in front. If `decimals` is above 0, a point and exactly `decimals`
/// digits follow.
///
/// `Err` only if memory is refused: `out` is then as it was.
pub fn write_fixed(units: i64, decimals: u32, out: &mut Vec<u8>) -> Result<(), AllocError>
    requires { decimals ≤ 10 }
    ensures ok { OnOk result (out.new.items ≡ out.old.items ++ fixed_text decimals units) }
    ensures err { OnErr result (out.new.items ≡ out.old.items) }
{
    let mut room = [0; ROOM];
    let start = put_fixed(&mut room, units, decimals);
    out.extend_from_slice(&room[start..])
}

/// Writes a mark and the text of a number to the end of a buffer of blanks, and returns the place of the
/// mark. Blanks between the two fill the width.
fn put_field(room: &mut [u8; ROOM], mark: u8, width: usize, units: i64, decimals: u32) -> usize
    requires blank { room.old ≡ replicate 40 32 }
    requires narrow { width ≤ 39 }
    requires few { decimals ≤ 10 }
    ensures start { result < 40 }
    ensures written { drop result room.new ≡ mark ∷ flush_right width (fixed_text decimals units) }
{
    let start = put_fixed(room, units, decimals).min(ROOM - width) - 1;
    room[start] = mark;
    start
}

/// Appends a mark, and behind it the spelling that `write_fixed` appends. Blanks before the spelling
/// make it fill a width of at most 39.
///
/// `Err` only if memory is refused: `out` is then as it was.
pub(crate) fn write_field(
    units: i64,
    decimals: u32,
    mark: u8,
    width: usize,
    out: &mut Vec<u8>,
) -> Result<(), AllocError>
    requires few { decimals ≤ 10 }
    requires narrow { width ≤ 39 }
    ensures ok { OnOk result (out.new.items
        ≡ out.old.items ++ mark ∷ flush_right width (fixed_text decimals units)) }
    ensures err { OnErr result (out.new.items ≡ out.old.items) }
{
    let mut room = [b' '; ROOM];
    let start = put_field(&mut room, mark, width, units, decimals);
    out.extend_from_slice(&room[start..])
}

/// What `write_fixed` writes is in the grammar of `read_fixed`, with the value that was written. A text
/// has at most one value, so it reads back as that value.
pub fn reads_back()
    ensures spelled { (decimals : ℕ) (v : ℤ) → decimals ≤ 10 → FitsSigned w64 v
        → IsFixed decimals (fixed_text decimals v) v }
    ensures one_value { (decimals : ℕ) (text : List ℕ) (v w : ℤ) → IsFixed decimals text v
        → IsFixed decimals text w → v ≡ w }
{}
