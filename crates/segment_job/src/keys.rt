//! The keys of a rendition.

ghost use Rattle.std.specs.Prelude.{◌≡◌, ◌<◌, ◌≤◌, ◌↔◌, length, Some, None, IfOk, IsErrOf};
ghost use Rattle.segment_job.specs.Rotation.{number_of, key_index, key_of, vector_of, IsRotation};
ghost use Rattle.playlist_text.specs.Vectors;

use crate::fault::KeyFault;
use crate::printing::write_numbers;
use limits::MOST_KEYS;
use std::alloc::{AllocError, Global};
use std::fmt::{self, Debug, Formatter, Write};
use std::marker::Model;

/// The keys of a rendition, which take turns: each seals as many segments in a row as the period says, and behind the
/// last one the first has its turn again. With them stand the salt of the rendition's vectors, where it has one, and the
/// number of the run's first segment: 0, or behind the segments of the runs before.
///
/// Clauses see the list of the keys, of 16 bytes each, the period, the salt and that number.
#[derive(Drop)]
pub struct Keys {
    keys: Vec<[u8; 16]>,
    period: u64,
    salt: Option<[u8; 16]>,
    first: u64,
}

impl Model for Keys {
    ghost use Rattle.segment_job.specs.Rotation.{KeyRotation, IsRotation};

    ghost Value = { KeyRotation };

    ghost view = { λ k. record { keys = k.keys.items; period = k.period; salt = k.salt; first = k.first } };

    ghost invariant = { λ k. IsRotation (record { keys = k.keys.items; period = k.period; salt = k.salt; first = k.first }) };
}

impl Debug for Keys {
    ghost use Rattle.std.specs.Prelude.{Some, length};
    ghost use Rattle.std.specs.Fmt.{WritesStyledOnOk, decimal, formatter_spec, styled_decimal};
    ghost use Rattle.segment_job.specs.Printed.{printed_keys};

    ghost debug_output = { λ k. Some (printed_keys (decimal (length k.keys)) (decimal k.period)) };

    /// How many they are, and their period: a key is not to be printed, by any options.
    fn fmt<W: Write>(&self, f: &mut Formatter<W>) -> fmt::Result
        ensures styled { WritesStyledOnOk W.write_str_gives f.old result (printed_keys
            (styled_decimal (formatter_spec f.old) (length self.now.keys))
            (styled_decimal (formatter_spec f.old) self.now.period)) f.new }
    {
        let count = self.keys.len() as u64;
        write_numbers(f, "Keys { count: ", count, ", period: ", self.period)
    }
}

impl Keys {
    /// Keys in the order in which they take turns: 1 to 4,096, and a period of at least one segment. A segment's vector is
    /// its number.
    pub fn new(keys: Vec<[u8; 16]>, period: u64) -> Result<Keys, KeyFault>
        ensures ok { IfOk result (λ made. made ≡ record { keys = keys.items; period = period; salt = None; first = 0 }) }
        ensures no_keys { IsErrOf result KeyFault.NoKeys ↔ (length keys.items ≡ 0) }
        ensures too_many { IsErrOf result KeyFault.TooMany ↔ (MOST_KEYS < length keys.items) }
        ensures zero_period { IsErrOf result KeyFault.ZeroPeriod
            ↔ ((0 < length keys.items) × (length keys.items ≤ MOST_KEYS) × (period ≡ 0)) }
    {
        Keys::with(keys, period, None)
    }

    /// The same with a salt: a segment's vector is the salt xor its number. So a run that begins at segment 0 again, under
    /// the same keys and a salt that was drawn at random, meets a vector of the run before by chance alone.
    pub fn salted(keys: Vec<[u8; 16]>, period: u64, salt: [u8; 16]) -> Result<Keys, KeyFault>
        ensures ok { IfOk result (λ made. made ≡ record { keys = keys.items; period = period; salt = Some salt; first = 0 }) }
        ensures no_keys { IsErrOf result KeyFault.NoKeys ↔ (length keys.items ≡ 0) }
        ensures too_many { IsErrOf result KeyFault.TooMany ↔ (MOST_KEYS < length keys.items) }
        ensures zero_period { IsErrOf result KeyFault.ZeroPeriod
            ↔ ((0 < length keys.items) × (length keys.items ≤ MOST_KEYS) × (period ≡ 0)) }
    {
        Keys::with(keys, period, Some(salt))
    }

    /// The keys, with a salt where there is one.
    fn with(keys: Vec<[u8; 16]>, period: u64, salt: Option<[u8; 16]>) -> Result<Keys, KeyFault>
        ensures ok { IfOk result (λ made. made ≡ record { keys = keys.items; period = period; salt = salt; first = 0 }) }
        ensures no_keys { IsErrOf result KeyFault.NoKeys ↔ (length keys.items ≡ 0) }
        ensures too_many { IsErrOf result KeyFault.TooMany ↔ (MOST_KEYS < length keys.items) }
        ensures zero_period { IsErrOf result KeyFault.ZeroPeriod
            ↔ ((0 < length keys.items) × (length keys.items ≤ MOST_KEYS) × (period ≡ 0)) }
    {
        if keys.is_empty() {
            return Err(KeyFault::NoKeys);
        }
        if keys.len() as u64 > MOST_KEYS {
            return Err(KeyFault::TooMany);
        }
        if period == 0 {
            return Err(KeyFault::ZeroPeriod);
        }
        Ok(Keys {
            keys,
            period,
            salt,
            first: 0,
        })
    }

    /// The same keys in a run whose first segment has this number. Under one salt no segment of the run then has a key and a
    /// vector that one of a lesser number had in an earlier run.
    pub fn behind(self, first: u64) -> Keys
        ensures { result ≡ record self { first = first } }
    {
        Keys { first, ..self }
    }

    /// The run's first segment gets this number: as [`Keys::behind`].
    pub fn begin_at(&mut self, first: u64)
        ensures { self.new ≡ record self.old { first = first } }
    {
        self.first = first;
    }

    /// The keys, in the order in which they take turns.
    pub fn all(&self) -> &[[u8; 16]]
        ensures { result.now ≡ self.now.keys }
    {
        &self.keys
    }

    /// The number of segment `n` of the run, which players see: it goes on from run to run.
    pub fn number(&self, n: u64) -> u128
        ensures { result ≡ number_of self.now n }
    {
        u128::from(self.first) + u128::from(n)
    }

    /// The index of the key of segment `n` of the run, from 0 on.
    pub fn index(&self, n: u64) -> u64
        ensures value { result ≡ key_index self.now n }
        ensures below { result < length self.now.keys }
        ensures sound { IsRotation self.now }
    {
        (self.number(n) / u128::from(self.period) % self.keys.len() as u128) as u64
    }

    /// The bytes of the key of segment `n` of the run.
    pub fn key(&self, n: u64) -> [u8; 16]
        ensures { result ≡ key_of self.now n }
    {
        self.keys[self.index(n) as usize]
    }

    /// The initialization vector of segment `n` of the run: the salt xor its number, or the number alone where there is no
    /// salt (RFC 8216, 5.2).
    pub fn vector(&self, n: u64) -> [u8; 16]
        ensures { result ≡ vector_of self.now n }
    {
        vector_under(self.salt, self.number(n))
    }

    /// The salt of the vectors, where there is one.
    pub fn salt(&self) -> Option<[u8; 16]>
        ensures { result ≡ self.now.salt }
    {
        self.salt
    }

    /// The same keys once more.
    pub fn copy(&self) -> Result<Keys, AllocError>
        ensures { IfOk result (λ copy. copy ≡ self.now) }
    {
        let keys = Vec::from_slice(*self.keys.allocator(), &self.keys)?;
        Ok(Keys {
            keys,
            period: self.period,
            salt: self.salt,
            first: self.first,
        })
    }
}

/// The vector of a number, salted where there is a salt.
fn vector_under(salt: Option<[u8; 16]>, number: u128) -> [u8; 16]
    ensures { result ≡ Vectors.salted_vector salt number }
{
    match salt {
        None => number.to_be_bytes(),
        Some(salt) => (u128::from_be_bytes(salt) ^ number).to_be_bytes(),
    }
}
