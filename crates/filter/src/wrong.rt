// Refusal 3: which byte of a section is wrong, and the lowest that is. An n is no part's length: bytes past the end read as 0, and may be wrong.
#![tactic(auto, unfolding(crate::specs::Wrong::q_most, crate::specs::Wrong::field_most, crate::specs::Wrong::optional, crate::specs::Wrong::number_most, crate::specs::Wrong::access_most, crate::specs::Wrong::plain_most, crate::specs::Wrong::most, crate::specs::Wrong::least, crate::specs::Wrong::wrong_byte, crate::specs::Wrong::record_wrong, crate::specs::Wrong::step_wrong, crate::specs::Wrong::token_wrong))]

ghost use Rattle.std.specs.Prelude.{◌≡◌, ◌+◌, ◌*◌, ◌/◌, ◌%◌, ◌^◌, ◌<◌, get_or};
ghost use Rattle.filter.specs.First.{first};
ghost use Rattle.filter.specs.Wrong.{dir_table, p_table, q_most, from_table, to_table, optional, field_most, number_most, const_table, load_table, other_table, access_most, plain_most, most, least, wrong_byte, record_wrong, step_wrong, token_wrong};

use crate::bytes::{Record, byte, token_at};

const DIR_MOST: [u8; 9] = [0, 3, 3, 3, 3, 3, 3, 0, 3];

const P_MOST: [u8; 21] = [
    0, 0, 0, 12, 12, 0, 255, 12, 0, 0, 0, 0, 0, 0, 1, 1, 0, 1, 255, 255, 6,
];

const Q_MOST: [u8; 8] = [0, 0, 0, 255, 255, 0, 0, 255];

const USED_FROM: [u8; 21] = [
    0, 4, 8, 6, 4, 4, 8, 0, 8, 6, 0, 0, 0, 0, 6, 4, 0, 6, 0, 0, 4,
];

const USED_TO: [u8; 21] = [
    0, 8, 24, 8, 8, 12, 24, 0, 14, 8, 0, 0, 0, 0, 8, 8, 0, 8, 0, 0, 8,
];

const CONST_ROW: [u8; 24] = [
    23, 2, 6, 2, 255, 255, 255, 255, 255, 255, 255, 255, 255, 255, 1, 0, 0, 0, 0, 0, 0, 0, 0, 0,
];

const LOAD_ROW: [u8; 24] = [
    23, 2, 6, 2, 255, 255, 255, 255, 0, 0, 0, 0, 255, 255, 1, 2, 2, 255, 255, 255, 255, 0, 0, 0,
];

const OTHER_ROW: [u8; 24] = [
    23, 2, 6, 2, 255, 255, 255, 255, 255, 255, 255, 255, 255, 255, 1, 255, 255, 255, 255, 255, 255,
    255, 255, 255,
];

// Row k of a table, 0 past its end.
fn row(table: &[u8], k: u8) -> u8
    ensures { result ≡ get_or table.now k 0 }
{
    byte(table, usize::from(k))
}

fn optional_kind(k: u8) -> bool
    ensures { result ≡ optional k }
{
    matches!(k, 14 | 15 | 17)
}

fn within(k: u8, i: u8) -> u8
    ensures { result ≡ field_most k i }
{
    if row(&USED_FROM, k) <= i && i < row(&USED_TO, k) {
        255
    } else {
        0
    }
}

fn number_most(k: u8, p: u8, i: u8) -> u8
    ensures { result ≡ number_most k p i }
{
    if p == 0 && optional_kind(k) {
        0
    } else {
        within(k, i)
    }
}

fn plain_most(k: u8, p: u8, i: u8) -> u8
    ensures { result ≡ plain_most k p i }
{
    match i {
        0 => 23,
        1 => row(&DIR_MOST, k),
        2 => row(&P_MOST, k),
        3 if p < 11 => 0,
        3 => row(&Q_MOST, k),
        _ => number_most(k, p, i),
    }
}

fn access_most(l: u8, i: u8) -> u8
    ensures { result ≡ access_most l i }
{
    match l {
        0 => row(&CONST_ROW, i),
        1 => row(&LOAD_ROW, i),
        _ => row(&OTHER_ROW, i),
    }
}

fn most_of(k: u8, p: u8, l: u8, i: u8) -> u8
    ensures { result ≡ most k p l i }
{
    if k == 23 {
        access_most(l, i)
    } else {
        plain_most(k, p, i)
    }
}

fn least_of(k: u8, i: u8) -> u8
    ensures { result ≡ least k i }
{
    match (i, k) {
        (0, _) | (2, 7) => 1,
        _ => 0,
    }
}

// Whether byte i of record r is wrong; by part and number, as its callers have them.
pub fn wrong_byte(part: &[u8], r: u32, i: u8) -> bool
    ensures { result ≡ wrong_byte part.now (24 * r) i }
{
    let record = Record { part, i: r };
    let k = record.kind();
    let b = record.byte(i);
    b < least_of(k, i) || most_of(k, record.byte(2), record.byte(14), i) < b
}

// Whether byte j of the primitives is wrong.
pub fn record_wrong(part: &[u8], j: u32) -> bool
    ensures { result ≡ record_wrong part.now j }
{
    wrong_byte(part, j / 24, (j % 24) as u8)
}

// Whether byte j of the steps is wrong.
pub fn step_wrong(part: &[u8], j: u32) -> bool
    ensures { result ≡ step_wrong part.now j }
{
    j % 5 == 0 && 9 < token_at(part, j)
}

// Whether byte j of the tree is wrong.
pub fn token_wrong(part: &[u8], j: u32) -> bool
    ensures { result ≡ token_wrong part.now j }
{
    3 < token_at(part, j)
}

// Whether byte i of record r is wrong, which is byte j of the primitives: past byte 2 a zero never is.
fn wrong_at(part: &[u8], j: u32, r: u32, i: u8) -> bool
    requires { j ≡ 24 * r + i }
    ensures { result ≡ wrong_byte part.now (24 * r) i }
{
    (i <= 2 || token_at(part, j) != 0) && wrong_byte(part, r, i)
}

// The part and n stay two here and below: the promises hold for any n, also where the part has fewer bytes or more.

// The lowest wrong byte of n bytes of primitives, n if none is. Byte j is byte i of record r: both go along with j, as a division for each byte costs more.
pub fn first_wrong_record(part: &[u8], n: u32) -> u32
    ensures { result ≡ first (record_wrong part.now) n 0 }
{
    let mut r: u32 = 0;
    let mut i: u8 = 0;
    for j in 0..n {
        if wrong_at(part, j, r, i) {
            return j;
        }
        i += 1;
        if i == 24 {
            i = 0;
            r += 1;
        }
    }
    n
}

// The lowest wrong byte of n bytes of steps, n if none is: the first of each five is the only one with a rule.
pub fn first_wrong_step(part: &[u8], n: u32) -> u32
    ensures { result ≡ first (step_wrong part.now) n 0 }
{
    for j in (0..n).step_by(5) {
        if step_wrong(part, j) {
            return j;
        }
    }
    n
}

// The lowest wrong byte of n tokens, n if none is.
pub fn first_wrong_token(part: &[u8], n: u32) -> u32
    ensures { result ≡ first (token_wrong part.now) n 0 }
{
    (0..n).find(|&j| token_wrong(part, j)).unwrap_or(n)
}
