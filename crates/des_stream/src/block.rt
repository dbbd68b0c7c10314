//! One block of ChaCha8, the sixteen words of one place of the block counter.

ghost use Rattle.std.specs.Prelude.{◌≡◌, ℕ, ◌+◌, ◌%◌, ◌^◌, ◌/◌, ◌<◌, slice_index, length, map, replicate, [], ◌∷◌};
ghost use Rattle.std.specs.List.{concat};
ghost use Rattle.std.specs.Simd.Lanes.{zip2};
ghost use Rattle.rand_chacha.specs.Block.{xor_rotate, column_round, diagonal_round, initial_state, block_word};

use std::simd::u32x4;

/// Word `k` of the block that has this number in the key stream of `key` and `nonce`.
// rand_chacha makes four blocks at a time, and a draw needs one word. So one block is made here,
// each row of its state in one vector.
pub(crate) fn block(key: &[u32; 8], counter: u64, nonce: u64) -> [u32; 16]
    ensures { (k : ℕ) → k < 16 → slice_index result k ≡ block_word 4 key.now counter nonce k }
{
    let start = starting_rows(key, counter, nonce);
    let mixed = double_round(double_round(double_round(double_round(start))));
    let [a, b, c, d] = start;
    let [e, f, g, h] = mixed;
    words([e + a, f + b, g + c, h + d])
}

/// The rows of the state from which the rounds begin.
fn starting_rows(key: &[u32; 8], counter: u64, nonce: u64) -> [u32x4; 4]
    ensures value { concat result ≡ initial_state key.now counter nonce }
    ensures long { map (λ row. length row) result ≡ replicate 4 4 }
{
    let [a, b, c, d, e, f, g, h] = *key;
    [
        u32x4::from_array([0x6170_7865, 0x3320_646e, 0x7962_2d32, 0x6b20_6574]),
        u32x4::from_array([a, b, c, d]),
        u32x4::from_array([e, f, g, h]),
        u32x4::from_array([
            low_half(counter),
            high_half(counter),
            low_half(nonce),
            high_half(nonce),
        ]),
    ]
}

/// The low 32 bits of a number.
pub(crate) fn low_half(number: u64) -> u32
    ensures { result ≡ number % 2 ^ 32 }
{
    (number & 0xffff_ffff) as u32
}

/// The high 32 bits of a number.
pub(crate) fn high_half(number: u64) -> u32
    ensures { result ≡ number / 2 ^ 32 }
{
    (number >> 32) as u32
}

/// The words of four rows, one row after another.
fn words(rows: [u32x4; 4]) -> [u32; 16]
    ensures { result ≡ concat rows }
{
    let [first, second, third, fourth] = rows;
    let [a, b, c, d] = first.to_array();
    let [e, f, g, h] = second.to_array();
    let [i, j, k, l] = third.to_array();
    let [m, n, o, p] = fourth.to_array();
    [a, b, c, d, e, f, g, h, i, j, k, l, m, n, o, p]
}

/// A round on the columns, and then one on the diagonals: each row is turned until the diagonals are
/// columns, and back.
fn double_round(rows: [u32x4; 4]) -> [u32x4; 4]
    ensures value { concat result ≡ diagonal_round (column_round (concat rows)) }
    ensures long { map (λ row. length row) result ≡ replicate 4 4 }
{
    let [a, b, c, d] = rows;
    let [a, b, c, d] = mix_columns(a, b, c, d);
    let [a, b, c, d] = mix_columns(
        a,
        b.rotate_elements_left::<1>(),
        c.rotate_elements_left::<2>(),
        d.rotate_elements_left::<3>(),
    );
    [
        a,
        b.rotate_elements_right::<1>(),
        c.rotate_elements_right::<2>(),
        d.rotate_elements_right::<3>(),
    ]
}

/// One quarter round on each column, in all lanes at once.
fn mix_columns(a: u32x4, b: u32x4, c: u32x4, d: u32x4) -> [u32x4; 4]
    ensures value { concat result ≡ column_round (concat (a ∷ b ∷ c ∷ d ∷ [])) }
    ensures long { map (λ row. length row) result ≡ replicate 4 4 }
{
    let a = a + b;
    let d = stir(d, a, 16);
    let c = c + d;
    let b = stir(b, c, 12);
    let a = a + b;
    let d = stir(d, a, 8);
    let c = c + d;
    [a, stir(b, c, 7), c, d]
}

/// The exclusive or of two rows, each lane rotated to the left by `bits`.
fn stir(row: u32x4, other: u32x4, bits: u32) -> u32x4
    requires { (0 < bits) × (bits < 32) }
    ensures { result ≡ zip2 (λ x y. xor_rotate x y bits) row other }
{
    let both = row ^ other;
    (both << u32x4::splat(bits)) | (both >> u32x4::splat(32 - bits))
}
