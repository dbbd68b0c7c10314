//! The random words of nodes. Each node draws from its own stream, at places that it counts. Or it has
//! a stream for each purpose, and each draw has a group of four words.
#![tactic(auto)]

ghost use Rattle.std.specs.Prelude.{◌≡◌, ℕ, ◌+◌, ◌*◌, ◌%◌, ◌^◌, ◌<◌, ◌≤◌, slice_index};
ghost use Rattle.rand_chacha.specs.Block.{block_word};
ghost use Rattle.rand_chacha.specs.ChaCha.{key_of};
ghost use Rattle.des_stream.specs.Draws.{first_number, own_stream, scaled, second_number};
ghost use Rattle.des_stream.specs.Word.{seed_bytes, word};
ghost use Rattle.des_stream.specs.Streams.{StreamOf};

mod block;

use block::{block, high_half, low_half};
use std::marker::Model;

/// A random stream of one node, which contracts see as its seed and its number.
#[derive(Clone, Copy, Drop)]
pub struct Stream {
    seed: u64,
    number: u64,
}

impl Model for Stream {
    ghost use Rattle.des_stream.specs.Streams.{StreamOf};

    ghost Value = { StreamOf };

    ghost view = { λ s. record { seed = s.seed; number = s.number } };

    ghost inverse = { λ v. record { seed = v.seed; number = v.number } };
}

/// Streams of different nodes or for different purposes have different numbers.
pub fn streams_are_apart()
    ensures { (n m p q : ℕ) → n < 2 ^ 32 → m < 2 ^ 32 → own_stream n p ≡ own_stream m q → (n ≡ m) × (p ≡ q) }
{}

impl Stream {
    /// The stream of a node under this seed.
    pub fn of(seed: u64, node: u32) -> Stream
        ensures { result ≡ record { seed = seed; number = node } }
    {
        Stream {
            seed,
            number: u64::from(node),
        }
    }

    /// The stream that a node has for one purpose alone, under this seed.
    pub fn for_purpose(seed: u64, node: u32, purpose: u32) -> Stream
        ensures { result ≡ record { seed = seed; number = own_stream node purpose } }
    {
        Stream {
            seed,
            number: u64::from(node) + u64::from(purpose) * (1 << 32),
        }
    }

    /// The word at a place, counted from 0.
    #[tactic(auto, unfolding(crate::specs::Word::word))]
    pub fn word_at(&self, place: u64) -> u32
        ensures { result ≡ word self.now.seed self.now.number place }
    {
        self.block_at(place / 16)[(place % 16) as usize]
    }

    /// The words at a place and at the next one. Both together mostly cost as much as one.
    #[tactic(auto, unfolding(crate::specs::Word::word))]
    pub fn pair_at(&self, place: u64) -> (u32, u32)
        ensures first { result.0 ≡ word self.now.seed self.now.number place }
        ensures second { result.1 ≡ word self.now.seed self.now.number (place + 1) }
    {
        let words = self.block_at(place / 16);
        let at = (place % 16) as usize;
        if at < 15 {
            (words[at], words[at + 1])
        } else {
            (words[at], self.block_at(place / 16 + 1)[0])
        }
    }

    /// The words of a group of four, counted from 0. They lie in one block.
    #[tactic(auto, unfolding(crate::specs::Word::word))]
    pub fn group_at(&self, group: u64) -> [u32; 4]
        ensures first { slice_index result 0 ≡ word self.now.seed self.now.number (4 * group) }
        ensures second { slice_index result 1 ≡ word self.now.seed self.now.number (4 * group + 1) }
        ensures third { slice_index result 2 ≡ word self.now.seed self.now.number (4 * group + 2) }
        ensures fourth { slice_index result 3 ≡ word self.now.seed self.now.number (4 * group + 3) }
    {
        let words = self.block_at(group / 4);
        let at = (group % 4) as usize * 4;
        [words[at], words[at + 1], words[at + 2], words[at + 3]]
    }

    /// A number below the bound, made of the first two words of a group.
    pub fn number_in(&self, group: u64, bound: u64) -> u64
        ensures value { result ≡ first_number self.now.seed self.now.number group bound }
        ensures below { 0 < bound → result < bound }
    {
        let [high, low, _, _] = self.group_at(group);
        scaled(high, low, bound)
    }

    /// Two numbers, each below its bound, made of the first and of the last two words of a group.
    pub fn numbers_in(&self, group: u64, bounds: (u64, u64)) -> (u64, u64)
        ensures first { result.0 ≡ first_number self.now.seed self.now.number group bounds.0 }
        ensures second { result.1 ≡ second_number self.now.seed self.now.number group bounds.1 }
        ensures below_first { 0 < bounds.0 → result.0 < bounds.0 }
        ensures below_second { 0 < bounds.1 → result.1 < bounds.1 }
    {
        let [high, low, other_high, other_low] = self.group_at(group);
        (
            scaled(high, low, bounds.0),
            scaled(other_high, other_low, bounds.1),
        )
    }

    /// The block of this number in the stream. The key is the seed and then zeros.
    fn block_at(&self, number: u64) -> [u32; 16]
        ensures { (k : ℕ) → k < 16 → slice_index result k ≡ block_word 4 (key_of (seed_bytes self.now.seed)) number self.now.number k }
    {
        let key = [low_half(self.seed), high_half(self.seed), 0, 0, 0, 0, 0, 0];
        block(&key, number, self.number)
    }

    /// A number below `n`: the word at a place modulo `n`.
    pub fn below(&self, place: u64, n: u32) -> u32
        requires { 1 ≤ n }
        ensures value { result ≡ word self.now.seed self.now.number place % n }
        ensures below { result < n }
    {
        self.word_at(place) % n
    }
}

/// A number below the bound, made of two words. All numbers below the bound are as frequent, but for
/// `bound` parts in 2^64: the remainder of a word would favour the small ones.
fn scaled(high: u32, low: u32, bound: u64) -> u64
    ensures value { result ≡ scaled high low bound }
    ensures below { 0 < bound → result < bound }
{
    let fraction = u64::from(high) * (1 << 32) + u64::from(low);
    let product = u128::from(fraction) * u128::from(bound);
    (product >> 64) as u64
}
