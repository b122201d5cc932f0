//! Arithmetic of GF(128) by tables of logarithms and powers. A number from 128 on stands for its remainder by 128.

ghost use Rattle.std.specs.Prelude.{◌≡◌, ◌%◌, ◌<◌, MatchOption};
ghost use Rattle.field.specs.Field.{by_c, mul, exp, inverse as inverse_of};

/// c^0 to c^253, so that a sum of two logarithms needs no reduction.
#[rattlefmt::skip]
const POWERS: [u8; 254] = [
    1, 2, 4, 8, 16, 32, 64, 65, 67, 71, 79, 95, 127, 63, 126, 61,
    122, 53, 106, 21, 42, 84, 105, 19, 38, 76, 89, 115, 39, 78, 93, 123,
    55, 110, 29, 58, 116, 41, 82, 101, 11, 22, 44, 88, 113, 35, 70, 77,
    91, 119, 47, 94, 125, 59, 118, 45, 90, 117, 43, 86, 109, 27, 54, 108,
    25, 50, 100, 9, 18, 36, 72, 81, 99, 7, 14, 28, 56, 112, 33, 66,
    69, 75, 87, 111, 31, 62, 124, 57, 114, 37, 74, 85, 107, 23, 46, 92,
    121, 51, 102, 13, 26, 52, 104, 17, 34, 68, 73, 83, 103, 15, 30, 60,
    120, 49, 98, 5, 10, 20, 40, 80, 97, 3, 6, 12, 24, 48, 96, 1,
    2, 4, 8, 16, 32, 64, 65, 67, 71, 79, 95, 127, 63, 126, 61, 122,
    53, 106, 21, 42, 84, 105, 19, 38, 76, 89, 115, 39, 78, 93, 123, 55,
    110, 29, 58, 116, 41, 82, 101, 11, 22, 44, 88, 113, 35, 70, 77, 91,
    119, 47, 94, 125, 59, 118, 45, 90, 117, 43, 86, 109, 27, 54, 108, 25,
    50, 100, 9, 18, 36, 72, 81, 99, 7, 14, 28, 56, 112, 33, 66, 69,
    75, 87, 111, 31, 62, 124, 57, 114, 37, 74, 85, 107, 23, 46, 92, 121,
    51, 102, 13, 26, 52, 104, 17, 34, 68, 73, 83, 103, 15, 30, 60, 120,
    49, 98, 5, 10, 20, 40, 80, 97, 3, 6, 12, 24, 48, 96,
];

/// The logarithm of each element to the base c; that of 0 means nothing.
#[rattlefmt::skip]
const LOGARITHMS: [u8; 128] = [
    0, 0, 1, 121, 2, 115, 122, 73, 3, 67, 116, 40, 123, 99, 74, 109,
    4, 103, 68, 23, 117, 19, 41, 93, 124, 64, 100, 61, 75, 34, 110, 84,
    5, 78, 104, 45, 69, 89, 24, 28, 118, 37, 20, 58, 42, 55, 94, 50,
    125, 113, 65, 97, 101, 17, 62, 32, 76, 87, 35, 53, 111, 15, 85, 13,
    6, 7, 79, 8, 105, 80, 46, 9, 70, 106, 90, 81, 25, 47, 29, 10,
    119, 71, 38, 107, 21, 91, 59, 82, 43, 26, 56, 48, 95, 30, 51, 11,
    126, 120, 114, 72, 66, 39, 98, 108, 102, 22, 18, 92, 63, 60, 33, 83,
    77, 44, 88, 27, 36, 57, 54, 49, 112, 96, 16, 31, 86, 52, 14, 12,
];

/// The product of two elements.
pub fn product(a: u8, b: u8) -> u8
    ensures is { result ≡ mul a b }
    ensures small { result < 128 }
{
    match (logarithm(a), logarithm(b)) {
        (Some(i), Some(j)) => power_of_c(i + j),
        _ => 0,
    }
}

/// 1/a, and 0 for 0.
pub fn inverse(a: u8) -> u8
    ensures is { result ≡ inverse_of a }
    ensures small { result < 128 }
{
    match logarithm(a) {
        Some(k) => power_of_c(127 - k),
        None => 0,
    }
}

/// The product by c.
pub fn times_c(a: u8) -> u8
    ensures is { result ≡ by_c a }
    ensures small { result < 128 }
{
    (a % 64 * 2) ^ (a / 64 % 2 * 65)
}

/// c^k.
fn power_of_c(k: usize) -> u8
    requires { k < 254 }
    ensures { result ≡ exp k }
{
    POWERS[k]
}

/// The k below 127 for which a is c^k. Zero has none.
fn logarithm(a: u8) -> Option<usize>
    ensures { MatchOption result (a % 128 ≡ 0) (λ k. (a % 128 ≡ exp k) × (k < 127)) }
{
    let x = a % 128;
    if x == 0 {
        None
    } else {
        Some(LOGARITHMS[x as usize] as usize)
    }
}
