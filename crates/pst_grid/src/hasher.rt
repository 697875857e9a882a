//! How positions are hashed.
ghost use Rattle.std.specs.Prelude.{◌≡◌, ◌+◌, ◌≤◌, Some, None, length};
ghost use Rattle.std.specs.List.{fold};
ghost use Rattle.pst_grid.specs.Hashing as spec;

use std::hash::{BuildHasherDefault, Hasher};

/// What each number is multiplied by: the golden ratio's fraction in 64 bits, which is odd.
const MULTIPLIER: u64 = 0x9e37_79b9_7f4a_7c15;

/// Makes the hashers of positions.
pub(crate) type BuildPositionHasher = BuildHasherDefault<PositionHasher>;

/// Hashes numbers of 64 bits by one multiplication each, and other writes byte by byte.
///
/// It is not cryptographic, and its seed is fixed. Most of a position are numbers: how far each branch is, and the
/// parts of the state.
#[derive(Clone, Copy, Drop)]
pub(crate) struct PositionHasher {
    state: u64,
}

impl Default for PositionHasher {
    ghost is_default = { λ h. h ≡ spec.start };

    fn default() -> PositionHasher {
        PositionHasher {
            state: 0x243f_6a88_85a3_08d3,
        }
    }
}

/// The two halves of a product, joined by xor.
#[inline(always)]
fn folded_multiply(a: u64, b: u64) -> u64
    ensures { result ≡ spec.folded_multiply a b }
{
    let product = a as u128 * b as u128;
    (product & 0xFFFF_FFFF_FFFF_FFFF) as u64 ^ (product >> 64) as u64
}

/// The state after a number.
#[inline(always)]
fn mix_number_into_hash(state: u64, number: u64) -> u64
    ensures { result ≡ spec.mixed state number }
{
    folded_multiply(state ^ number, MULTIPLIER)
}

/// The number that eight bytes are, the lowest first.
#[inline(always)]
fn number_of_eight_bytes(bytes: &[u8]) -> Option<u64>
    ensures { result ≡ spec.word_of bytes.now }
{
    if bytes.len() != 8 {
        return None;
    }
    Some(u64::from_le_bytes([
        bytes[0], bytes[1], bytes[2], bytes[3], bytes[4], bytes[5], bytes[6], bytes[7],
    ]))
}

/// The state after each byte in turn.
#[tactic(auto, using(std::proofs::lemmas::List::Sums::fold_more))]
fn mix_each_byte_into_hash(state: u64, bytes: &[u8]) -> u64
    ensures { result ≡ fold spec.mixed state bytes.now }
{
    let mut mixing = state;
    for byte in bytes {
        mixing = mix_number_into_hash(mixing, *byte as u64);
    }
    mixing
}

impl Hasher for PositionHasher {
    ghost write = { spec.write };

    ghost finish = { λ h. h.state };

    fn finish(&self) -> u64 {
        self.state
    }

    #[inline(always)]
    fn write(&mut self, bytes: &[u8]) {
        self.state = match number_of_eight_bytes(bytes) {
            Some(word) => mix_number_into_hash(self.state, word),
            None => mix_each_byte_into_hash(self.state, bytes),
        };
    }

    #[inline(always)]
    #[tactic(auto, using(crate::proofs::Hashing::number_written))]
    fn write_u64(&mut self, i: u64) {
        self.state = mix_number_into_hash(self.state, i);
    }

    #[inline(always)]
    #[tactic(auto, using(crate::proofs::Hashing::number_written))]
    fn write_usize(&mut self, i: usize) {
        self.state = mix_number_into_hash(self.state, i as u64);
    }
}
