//! Marks: numbers that tell lists of numbers apart, but for a chance of the hash.

/// An odd number, about half of whose bits are ones.
const MULTIPLIER: u64 = 0x2360_ed05_1fc6_5da5;

/// The mark of a list with one number more.
pub fn next_mark(mark: u64, number: u64) -> u64 {
    let product = (mark ^ number).wrapping_mul(MULTIPLIER);
    product ^ (product >> 32)
}

/// The last bits of a coefficient or a constant.
pub fn last_bits(number: i128) -> u64 {
    (number.cast_unsigned() & 0xffff_ffff_ffff_ffff) as u64
}
