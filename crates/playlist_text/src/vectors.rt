//! The initialization vectors of segments (RFC 8216, 5.2).

ghost use Rattle.std.specs.Prelude.{◌≡◌};
ghost use Rattle.playlist_text.specs.Vectors.{vector, salted_vector};

/// The initialization vector of segment `n`: its number in 16 bytes, big-endian (RFC 8216, 5.2).
pub fn vector(n: u64) -> [u8; 16]
    ensures { result ≡ vector n }
{
    u128::from(n).to_be_bytes()
}

/// The initialization vector of segment `n` of a rendition with a salt: the salt xor the number, in 16 bytes, big-endian.
/// Without a salt it is the number alone, as [`vector`] gives it.
///
/// A salted vector has to be listed with its segment (RFC 8216, 4.3.2.4): no player can derive it.
pub fn salted_vector(salt: Option<[u8; 16]>, n: u64) -> [u8; 16]
    ensures { result ≡ salted_vector salt n }
{
    match salt {
        None => vector(n),
        Some(salt) => (u128::from_be_bytes(salt) ^ u128::from(n)).to_be_bytes(),
    }
}
