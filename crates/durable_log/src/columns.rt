// Numbers as columns of text: eight digits and a space each.
ghost use Rattle.std.specs.Prelude.{◌≡◌, ◌<◌, ◌==◌, ◌++◌, [], IfSome, OnOk, Some, None, if◌then◌else◌};
ghost use Rattle.durable_log.specs.Format.{digit, digits, column, value, half, is_half, column_of};
ghost use Rattle.durable_log.specs.Shown.{column_shown};

use std::alloc::AllocError;

// The digits, by their values.
const DIGITS: [u8; 16] = *b"0123456789abcdef";

// What no digit has for its value.
const NO_DIGIT: u8 = 16;

// The value of each byte as a digit.
const VALUES: [u8; 256] = [
    16, 16, 16, 16, 16, 16, 16, 16, 16, 16, 16, 16, 16, 16, 16, 16, 16, 16, 16, 16, 16, 16, 16, 16,
    16, 16, 16, 16, 16, 16, 16, 16, 16, 16, 16, 16, 16, 16, 16, 16, 16, 16, 16, 16, 16, 16, 16, 16,
    0, 1, 2, 3, 4, 5, 6, 7, 8, 9, 16, 16, 16, 16, 16, 16, 16, 16, 16, 16, 16, 16, 16, 16, 16, 16,
    16, 16, 16, 16, 16, 16, 16, 16, 16, 16, 16, 16, 16, 16, 16, 16, 16, 16, 16, 16, 16, 16, 16, 10,
    11, 12, 13, 14, 15, 16, 16, 16, 16, 16, 16, 16, 16, 16, 16, 16, 16, 16, 16, 16, 16, 16, 16, 16,
    16, 16, 16, 16, 16, 16, 16, 16, 16, 16, 16, 16, 16, 16, 16, 16, 16, 16, 16, 16, 16, 16, 16, 16,
    16, 16, 16, 16, 16, 16, 16, 16, 16, 16, 16, 16, 16, 16, 16, 16, 16, 16, 16, 16, 16, 16, 16, 16,
    16, 16, 16, 16, 16, 16, 16, 16, 16, 16, 16, 16, 16, 16, 16, 16, 16, 16, 16, 16, 16, 16, 16, 16,
    16, 16, 16, 16, 16, 16, 16, 16, 16, 16, 16, 16, 16, 16, 16, 16, 16, 16, 16, 16, 16, 16, 16, 16,
    16, 16, 16, 16, 16, 16, 16, 16, 16, 16, 16, 16, 16, 16, 16, 16, 16, 16, 16, 16, 16, 16, 16, 16,
    16, 16, 16, 16, 16, 16, 16, 16, 16, 16, 16, 16, 16, 16,
];

// A column, if there is one, and the bytes after it.
#[derive(Clone, Copy)]
pub enum ColumnRead<'a> {
    Absent,
    Number(u32, &'a [u8]),
}

fn digit(d: u32) -> u8
    requires { d < 16 }
    ensures { result ≡ digit d }
{
    let digits = &DIGITS;
    digits[d as usize]
}

// Returns a number as eight digits, the highest first.
pub(crate) fn digits(n: u32) -> [u8; 8]
    ensures { result ≡ digits n }
{
    let high = n / 65536;
    let low = n % 65536;
    [
        digit(high / 4096 % 16),
        digit(high / 256 % 16),
        digit(high / 16 % 16),
        digit(high % 16),
        digit(low / 4096 % 16),
        digit(low / 256 % 16),
        digit(low / 16 % 16),
        digit(low % 16),
    ]
}

// Adds a column.
pub(crate) fn push_column(bytes: &mut Vec<u8>, n: u32) -> Result<(), AllocError>
    ensures { OnOk result (bytes.new.items ≡ bytes.old.items ++ column n []) }
{
    bytes.extend_from_slice(&digits(n))?;
    bytes.push(b' ')?;
    Ok(())
}

// Returns the value of a digit. Other bytes have none.
fn value(b: u8) -> Option<u32>
    ensures value { result ≡ (if b == digit (value b) then Some (value b) else None) }
    ensures small { IfSome result (λ v. v < 16) }
{
    let values = &VALUES;
    let found = values[usize::from(b)];
    if found < NO_DIGIT {
        Some(u32::from(found))
    } else {
        None
    }
}

// Returns the value of four digits.
fn half(a: u8, b: u8, c: u8, d: u8) -> Option<u32>
    ensures value { result ≡ (if is_half (half a b c d) a b c d then Some (half a b c d) else None) }
    ensures small { IfSome result (λ v. v < 65536) }
{
    Some(((value(a)? * 16 + value(b)?) * 16 + value(c)?) * 16 + value(d)?)
}

// Reads a column.
pub(crate) fn column(bytes: &[u8]) -> ColumnRead<'_>
    ensures { column_shown result ≡ column_of bytes.now }
{
    match bytes {
        [a, b, c, d, e, f, g, h, b' ', rest @ ..] => {
            match (half(*a, *b, *c, *d), half(*e, *f, *g, *h)) {
                (Some(high), Some(low)) => ColumnRead::Number(high * 65536 + low, rest),
                _ => ColumnRead::Absent,
            }
        }
        _ => ColumnRead::Absent,
    }
}
