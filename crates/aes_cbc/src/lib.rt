//! AES-128 in CBC mode with padding, as HLS seals segments (RFC 8216, 4.3.2.4: METHOD=AES-128).
//!
//! A [`Key`] encrypts and decrypts single blocks of 16 bytes (FIPS 197). [`seal`] pads a text (RFC 5652, 6.3) and
//! encrypts it as a chain of blocks from a vector on (SP 800-38A, 6.2), [`seal_in_place`] does so where the text lies,
//! [`seal_two_in_place`] and [`seal_four_in_place`] do so to several texts at once, and [`open`] gives the text back.
//! [`seal_behind`], [`seal_two_behind`] and [`seal_four_behind`] append the rest of a text while they seal it. [`seal_into`],
//! [`seal_two_into`] and [`seal_four_into`] write what they seal, a chunk at a time, so that no sealed text is held. The ciphers look
//! nothing up at a place that a byte of a key or a text tells: tables of 16 bytes are shuffled as a whole.
//! The functions of [`laws`] do nothing: their contracts are theorems about the definitions in `specs/`.
#![tactic(auto)]

mod behind;
mod behind_side_by_side;
mod blocks;
mod cbc;
mod chains;
mod fault;
mod into;
mod into_four;
mod into_side_by_side;
mod inverse_round;
mod inverse_sbox;
mod key;
mod lanes;
pub mod laws;
mod opening;
mod padding;
mod pair_inverse_round;
mod pair_inverse_sbox;
mod pair_lanes;
mod pair_round;
mod pair_sbox;
mod pair_tower;
mod pairs;
mod round;
mod sbox;
mod schedule;
mod side_by_side;
mod tower;

pub use behind::seal_behind;
pub use behind_side_by_side::{seal_four_behind, seal_two_behind};
pub use blocks::{block_before, xor_blocks};
pub use cbc::{seal, seal_in_place};
pub use fault::{OpenFault, SealFault};
pub use into::{CHUNK, seal_into};
pub use into_four::seal_four_into;
pub use into_side_by_side::seal_two_into;
pub use key::Key;
pub use opening::open;
pub use side_by_side::{seal_four_in_place, seal_two_in_place};
