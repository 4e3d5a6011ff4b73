//! Generators of numbers that are the same each time.

/// Where Marsaglia's xorshift numbers begin.
pub(crate) const SEED: u64 = 88_172_645_463_325_252;

/// The next of Marsaglia's xorshift numbers, which is also left in the state.
pub(crate) fn next_shifted(state: &mut u64) -> u64 {
    let mut x = *state;
    x ^= x << 13;
    x ^= x >> 7;
    x ^= x << 17;
    *state = x;
    x
}

/// x * 6364136223846793005 + 1442695040888963407 modulo 2^64.
pub(crate) fn next_linear(x: u64) -> u64 {
    x.wrapping_mul(6_364_136_223_846_793_005)
        .wrapping_add(1_442_695_040_888_963_407)
}
