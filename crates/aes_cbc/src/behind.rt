//! Texts of which a part is appended while they are sealed: each piece of it is encrypted before it is appended.

ghost use Rattle.std.specs.Prelude.{◌≡◌, ◌+◌, ◌*◌, ◌/◌, ◌%◌, ◌≤◌, ◌++◌, length, take, drop, vec_len, vec_capacity, IfOk, IsOk, OnOk, OnErr};
ghost use Rattle.std.specs.List.{concat};
ghost use Rattle.aes_cbc.specs.Chain.{cbc, blocks, sealed_text};
ghost use Rattle.aes_cbc.specs.Opening.{last_block};
ghost use Rattle.aes_cbc.specs.declared.behind.TheConstants.{PIECE};

use crate::cbc::encrypt_chain;
use crate::key::Key;
use crate::padding::pad;
use crate::side_by_side::last_block;
use std::alloc::AllocError;

/// How many bytes are encrypted on the stack before they are appended: few enough that those of four texts stay in the nearest cache.
pub(crate) const PIECE: usize = 1024;

/// Makes room for more behind a text, and for the padding behind both.
pub(crate) fn make_room(text: &mut Vec<u8>, more: &[u8]) -> Result<(), AllocError>
    ensures items { text.new.items ≡ text.old.items }
    ensures len { vec_len text.new ≡ vec_len text.old }
    ensures capacity { vec_capacity text.old ≤ vec_capacity text.new }
    ensures ok { OnOk result (16 * ((vec_len text.old + length more.now) / 16 + 1) ≤ vec_capacity text.new) }
    ensures room { 16 * ((vec_len text.old + length more.now) / 16 + 1) ≤ vec_capacity text.old → IsOk result }
{
    let count = 16 - (text.len() + more.len()) % 16;
    text.reserve_exact(more.len() + count)
}

/// Appends as many bytes as fill up the last block of a text, or one block where it is full, and encrypts the text where it lies, as a
/// chain from `vector` on. The last block of the chain comes back, with what is left to append.
pub(crate) fn seal_head<'r>(
    key: &Key,
    vector: &[u8; 16],
    text: &mut Vec<u8>,
    more: &'r [u8],
) -> ([u8; 16], &'r [u8])
    requires long { 16 ≤ length more.now }
    requires room { vec_len text.old + 16 ≤ vec_capacity text.old }
    ensures items { text.new.items ++ sealed_text key.now result.0 result.1.now
        ≡ sealed_text key.now vector.now (text.old.items ++ more.now) }
    ensures whole { vec_len text.new % 16 ≡ 0 }
    ensures len { vec_len text.new + length result.1.now ≡ vec_len text.old + length more.now }
    ensures capacity { vec_capacity text.old ≤ vec_capacity text.new }
{
    let (piece, rest) = more.split_at(16 - text.len() % 16);
    text.extend_from_slice(piece).unwrap();
    encrypt_chain(text, key, vector);
    (last_block(key, *vector, text), rest)
}

/// Appends a piece to a text, encrypted as a chain from `vector` on. The last block of the chain comes back.
fn append_encrypted(key: &Key, vector: &[u8; 16], text: &mut Vec<u8>, piece: &[u8]) -> [u8; 16]
    requires piece { length piece.now ≡ PIECE }
    requires room { vec_len text.old + PIECE ≤ vec_capacity text.old }
    ensures items { text.new.items ≡ text.old.items ++ concat (cbc key.now vector.now (blocks piece.now)) }
    ensures last { result ≡ last_block vector.now (cbc key.now vector.now (blocks piece.now)) }
    ensures len { vec_len text.new ≡ vec_len text.old + PIECE }
    ensures capacity { vec_capacity text.old ≤ vec_capacity text.new }
{
    let mut front = [0; PIECE];
    front.copy_from_slice(piece);
    encrypt_chain(&mut front, key, vector);
    text.extend_from_slice(&front).unwrap();
    last_block(key, *vector, &front)
}

/// Appends whole pieces to a text, encrypted one by one as a chain from `vector` on. The last block of the chain comes back.
pub(crate) fn append_pieces(
    key: &Key,
    vector: &[u8; 16],
    text: &mut Vec<u8>,
    pieces: &[u8],
) -> [u8; 16]
    requires whole { length pieces.now % PIECE ≡ 0 }
    requires room { vec_len text.old + length pieces.now ≤ vec_capacity text.old }
    ensures items { text.new.items ≡ text.old.items ++ concat (cbc key.now vector.now (blocks pieces.now)) }
    ensures last { result ≡ last_block vector.now (cbc key.now vector.now (blocks pieces.now)) }
    ensures len { vec_len text.new ≡ vec_len text.old + length pieces.now }
    ensures capacity { vec_capacity text.old ≤ vec_capacity text.new }
{
    let mut last = *vector;
    let mut rest = pieces;
    'piece: while rest.len() >= PIECE {
        let (piece, next) = rest.split_at(PIECE);
        last = append_encrypted(key, &last, text, piece);
        rest = next;
    }
    last
}

/// Seals the rest that is to come behind a text of whole blocks, which is encrypted: piece by piece, and the chain goes on from `vector`.
pub(crate) fn seal_rest(key: &Key, vector: &[u8; 16], text: &mut Vec<u8>, rest: &[u8])
    requires whole { vec_len text.old % 16 ≡ 0 }
    requires room { 16 * ((vec_len text.old + length rest.now) / 16 + 1) ≤ vec_capacity text.old }
    ensures items { text.new.items ≡ text.old.items ++ sealed_text key.now vector.now rest.now }
    ensures len { vec_len text.new ≡ 16 * ((vec_len text.old + length rest.now) / 16 + 1) }
    ensures capacity { vec_capacity text.old ≤ vec_capacity text.new }
{
    let (pieces, rest) = rest.split_at(rest.len() - rest.len() % PIECE);
    let last = append_pieces(key, vector, text, pieces);
    let done = text.len();
    seal_end(key, &last, text, done, rest);
}

/// Seals what lies behind the first `done` bytes of a text, which are encrypted, with the rest that is to come behind it, where it lies:
/// the chain goes on from `vector`.
fn seal_end(key: &Key, vector: &[u8; 16], text: &mut Vec<u8>, done: usize, rest: &[u8])
    requires done { (done % 16 ≡ 0) × (done ≤ vec_len text.old) }
    requires room { 16 * ((vec_len text.old + length rest.now) / 16 + 1) ≤ vec_capacity text.old }
    ensures items { text.new.items ≡ take done text.old.items ++ sealed_text key.now vector.now (drop done text.old.items ++ rest.now) }
    ensures len { vec_len text.new ≡ 16 * ((vec_len text.old + length rest.now) / 16 + 1) }
    ensures capacity { vec_capacity text.old ≤ vec_capacity text.new }
{
    text.extend_from_slice(rest).unwrap();
    pad(text).unwrap();
    let (_, back) = text.split_at_mut(done);
    encrypt_chain(back, key, vector);
}

/// Seals a text with more behind it, for both of which there is room.
pub(crate) fn seal_text(key: &Key, vector: &[u8; 16], text: &mut Vec<u8>, more: &[u8])
    requires room { 16 * ((vec_len text.old + length more.now) / 16 + 1) ≤ vec_capacity text.old }
    ensures items { text.new.items ≡ sealed_text key.now vector.now (text.old.items ++ more.now) }
    ensures len { vec_len text.new ≡ 16 * ((vec_len text.old + length more.now) / 16 + 1) }
    ensures capacity { vec_capacity text.old ≤ vec_capacity text.new }
{
    if more.len() < 16 {
        seal_end(key, vector, text, 0, more);
        return;
    }
    let (last, rest) = seal_head(key, vector, text, more);
    seal_rest(key, &last, text, rest);
}

/// Appends more to a text, and pads and encrypts both, under a key from a vector on: what [`seal`](crate::seal) makes of the text
/// with more behind it, in one pass. Takes memory only where the vector has no room for it, and if there is none the text is as
/// before.
pub fn seal_behind(
    key: &Key,
    vector: &[u8; 16],
    text: &mut Vec<u8>,
    more: &[u8],
) -> Result<(), AllocError>
    ensures items { IfOk result (λ _. text.new.items ≡ sealed_text key.now vector.now (text.old.items ++ more.now)) }
    ensures len { IfOk result (λ _. vec_len text.new ≡ 16 * ((vec_len text.old + length more.now) / 16 + 1)) }
    ensures capacity { vec_capacity text.old ≤ vec_capacity text.new }
    ensures room { 16 * ((vec_len text.old + length more.now) / 16 + 1) ≤ vec_capacity text.old → IsOk result }
    ensures err { OnErr result (text.new.items ≡ text.old.items) }
{
    make_room(text, more)?;
    seal_text(key, vector, text, more);
    Ok(())
}
