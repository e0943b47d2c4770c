// The check, by tables: eight bytes at a time, then four, and then byte by byte.
ghost use Rattle.std.specs.Prelude.{◌≡◌, ◌∷◌, ℕ, [], bit_xor};
ghost use Rattle.crc32c.specs.Check.{after_bits, after_byte, after_bytes, check_after, check_of};

use crate::table::{AFTER_8, AFTER_16, AFTER_24, AFTER_32, AFTER_40, AFTER_48, AFTER_56, AFTER_64};

// Returns the number of four bytes, the lowest first. Added to a state, it is the bytes.
fn word_of(a: u8, b: u8, c: u8, d: u8) -> u32
    ensures { (state : ℕ) → after_bits 32 (bit_xor state result) ≡ after_bytes state (a ∷ b ∷ c ∷ d ∷ []) }
{
    a as u32 + (b as u32 + (c as u32 + d as u32 * 256) * 256) * 256
}

// Returns a state after 32 bits.
fn after_32(word: u32) -> u32
    ensures { result ≡ after_bits 32 word }
{
    let (after_8, after_16, after_24, after_32) = (&AFTER_8, &AFTER_16, &AFTER_24, &AFTER_32);
    after_8[(word / 16_777_216) as usize]
        ^ after_16[(word / 65536 % 256) as usize]
        ^ after_24[(word / 256 % 256) as usize]
        ^ after_32[(word % 256) as usize]
}

// Returns a state after 64 bits.
fn after_64(word: u32) -> u32
    ensures { result ≡ after_bits 64 word }
{
    let (after_40, after_48, after_56, after_64) = (&AFTER_40, &AFTER_48, &AFTER_56, &AFTER_64);
    after_40[(word / 16_777_216) as usize]
        ^ after_48[(word / 65536 % 256) as usize]
        ^ after_56[(word / 256 % 256) as usize]
        ^ after_64[(word % 256) as usize]
}

// Returns the state after all bytes but the last seven at most, and these.
fn after_eights(state: u32, bytes: &[u8]) -> (u32, &[u8])
    ensures { after_bytes result.0 result.1.now ≡ after_bytes state bytes.now }
{
    let mut now = state;
    let mut left = bytes;
    while let [a, b, c, d, e, f, g, h, rest @ ..] = left {
        let first = after_64(now ^ word_of(*a, *b, *c, *d));
        now = first ^ after_32(word_of(*e, *f, *g, *h));
        left = rest;
    }
    (now, left)
}

// Returns the state after the first four bytes, if there are so many, and the bytes after them.
fn after_four(state: u32, bytes: &[u8]) -> (u32, &[u8])
    ensures { after_bytes result.0 result.1.now ≡ after_bytes state bytes.now }
{
    match bytes {
        [a, b, c, d, rest @ ..] => (after_32(state ^ word_of(*a, *b, *c, *d)), rest),
        _ => (state, bytes),
    }
}

fn after_byte(state: u32, byte: u8) -> u32
    ensures { result ≡ after_byte state byte }
{
    let low = (state % 256) as u8 ^ byte;
    let table = &AFTER_8;
    state / 256 ^ table[usize::from(low)]
}

fn after_each(state: u32, bytes: &[u8]) -> u32
    ensures { result ≡ after_bytes state bytes.now }
{
    let mut now = state;
    for byte in bytes {
        now = after_byte(now, *byte);
    }
    now
}

/// Returns the check of bytes, begun from the check of the bytes before them.
pub fn check_after(check: u32, bytes: &[u8]) -> u32
    ensures { result ≡ check_after check bytes.now }
{
    let (by_eights, left) = after_eights(check ^ 0xffff_ffff, bytes);
    let (by_four, last) = after_four(by_eights, left);
    after_each(by_four, last) ^ 0xffff_ffff
}

/// Returns the check of bytes.
pub fn check_of(bytes: &[u8]) -> u32
    ensures { result ≡ check_of bytes.now }
{
    check_after(0, bytes)
}
