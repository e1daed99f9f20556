//! The lines of a media playlist, one after another.

ghost use Rattle.std.specs.Prelude.{◌≡◌, ◌≢◌, ◌⊎◌, ◌≤◌, Some, None, true, false, IfOk, OnErr, option_map, ◌==◌, vec_capacity, vec_len};
ghost use Rattle.std.specs.Cow.{cow_str_bytes};
ghost use Rattle.std.specs.List.{before_first};
ghost use Rattle.media_reading.specs.State.{step, step_at, fresh, expect, begun, headed, salt_in, keyed, keyed_or_timed, timed};
ghost use Rattle.media_reading.specs.State.{listed, listing_at, name_in, number_left, entered};
ghost use Rattle.media_reading.specs.State.{progress_of, HasEscapes, IsKept, IsUntaken, Moves, Tells, awaits_first_key, has_number, key_may_want, may_want};
ghost use Rattle.media_reading.specs.declared.reading.Stage.TheVariants.{Versioned, Targeted, Sequenced, Headed, Timed};

use crate::listing::{Entry, LAST_LISTED, Listing};
use crate::numbers::{read_duration, read_tagged};
use crate::spelled::{KEY_BEGIN, is_segment_uri, read_key};
use hex::FromHex;
use limits::MOST_TARGET;
use percent_encoding::{DecodeError, percent_decode};
use playlist_text::{is_name, rounded_seconds, salted_vector};
use std::alloc::{AllocError, Global};
use std::borrow::CowStr;

/// A segment's number is below it.
const NUMBERS: u64 = LAST_LISTED + 1;

/// A discontinuity sequence is below it too.
const DISCONTINUITIES: u64 = 1 << 33;

/// What the line of a segment ends in.
const SEGMENT_END: &str = ".ts";

/// Which line comes next.
#[derive(Clone, Copy, Debug, PartialEq, Eq)]
pub enum Stage {
    /// The first.
    Fresh,
    /// That of the version.
    Tagged,
    /// That of the target duration.
    Versioned,
    /// That of the media sequence.
    Targeted,
    /// That of the discontinuity sequence.
    Sequenced,
    /// That of the type, or one with which an entry begins.
    Headed,
    /// One with which an entry begins, or the last of all.
    Between,
    /// One behind a discontinuity.
    Broken,
    /// That of a duration.
    Keyed,
    /// That of a segment.
    Timed,
    /// None.
    Ended,
}

/// What the lines so far told. A value that no line told yet is one that it may have.
#[derive(Drop)]
pub struct Reading {
    stage: Stage,
    target: u64,
    sequence: u64,
    discontinuity_sequence: u64,
    event: bool,
    salt: Option<[u8; 16]>,
    name: Option<String>,
    key: u64,
    discontinuity: bool,
    micros: u64,
    entries: Vec<Entry>,
}

impl Reading {
    /// Nothing was read.
    pub fn new(alloc: Global) -> Reading
        ensures { progress_of result ≡ fresh }
    {
        Reading {
            stage: Stage::Fresh,
            target: 1,
            sequence: 0,
            discontinuity_sequence: 0,
            event: false,
            salt: None,
            name: None,
            key: 0,
            discontinuity: false,
            micros: 1,
            entries: Vec::new(alloc),
        }
    }

    /// Takes the next line, and says whether it may come next.
    #[tactic(auto, unfolding(crate::specs::State::step))]
    pub fn take(&mut self, line: &[u8]) -> Result<bool, AllocError>
        ensures taken { IfOk result (λ taken. Tells taken (step (progress_of self.old) line.now) (progress_of self.new)) }
        ensures scarce { OnErr result (may_want self.old.stage (progress_of self.old) line.now ≡ true) }
        ensures kept { OnErr result (IsKept (step (progress_of self.old) line.now) (progress_of self.old) line.now) }
        ensures full { self.old.stage ≡ Timed → OnErr result (vec_capacity self.old.entries ≤ vec_len self.old.entries) }
        ensures refused { IfOk result (λ taken. taken ≡ false → IsUntaken (progress_of self.old) (progress_of self.new)) }
        ensures lost { OnErr result (IsUntaken (progress_of self.old) (progress_of self.new)) }
    {
        match self.stage {
            Stage::Fresh => Ok(self.take_text(line, b"#EXTM3U", Stage::Tagged)),
            Stage::Tagged => Ok(self.take_text(line, b"#EXT-X-VERSION:4", Stage::Versioned)),
            Stage::Versioned => Ok(self.take_target(line)),
            Stage::Targeted => Ok(self.take_sequence(line)),
            Stage::Sequenced => Ok(self.take_discontinuity_sequence(line)),
            Stage::Headed => self.take_type(line),
            Stage::Between => self.take_first(line),
            Stage::Broken => self.take_key_or_duration(line),
            Stage::Keyed => Ok(self.take_duration(line)),
            Stage::Timed => self.take_segment(line),
            Stage::Ended => Ok(false),
        }
    }

    fn take_text(&mut self, line: &[u8], wanted: &[u8], next: Stage) -> bool
        ensures taken { Tells result (expect line.now wanted.now (record (progress_of self.old) { stage = next })) (progress_of self.new) }
        ensures refused { result ≡ false → progress_of self.new ≡ progress_of self.old }
    {
        if line != wanted {
            return false;
        }
        self.stage = next;
        true
    }

    fn take_target(&mut self, line: &[u8]) -> bool
        ensures taken { Tells result (step_at Versioned (progress_of self.old) line.now) (progress_of self.new) }
        ensures refused { result ≡ false → progress_of self.new ≡ progress_of self.old }
    {
        let Some(target) = read_tagged(line, b"#EXT-X-TARGETDURATION:", MOST_TARGET + 1) else {
            return false;
        };
        if target == 0 {
            return false;
        }
        self.target = target;
        self.stage = Stage::Targeted;
        true
    }

    fn take_sequence(&mut self, line: &[u8]) -> bool
        ensures taken { Tells result (step_at Targeted (progress_of self.old) line.now) (progress_of self.new) }
        ensures refused { result ≡ false → progress_of self.new ≡ progress_of self.old }
    {
        let Some(sequence) = read_tagged(line, b"#EXT-X-MEDIA-SEQUENCE:", NUMBERS) else {
            return false;
        };
        self.sequence = sequence;
        self.stage = Stage::Sequenced;
        true
    }

    fn take_discontinuity_sequence(&mut self, line: &[u8]) -> bool
        ensures taken { Tells result (step_at Sequenced (progress_of self.old) line.now) (progress_of self.new) }
        ensures refused { result ≡ false → progress_of self.new ≡ progress_of self.old }
    {
        let Some(number) = read_tagged(line, b"#EXT-X-DISCONTINUITY-SEQUENCE:", DISCONTINUITIES)
        else {
            return false;
        };
        self.discontinuity_sequence = number;
        self.stage = Stage::Headed;
        true
    }

    /// A playlist of an event begins at 0 (RFC 8216, 4.3.3.5).
    #[tactic(auto, unfolding(crate::specs::State::headed))]
    fn take_type(&mut self, line: &[u8]) -> Result<bool, AllocError>
        ensures taken { IfOk result (λ taken. Tells taken (headed (progress_of self.old) line.now) (progress_of self.new)) }
        ensures scarce { OnErr result (may_want Headed (progress_of self.old) line.now ≡ true) }
        ensures kept { OnErr result (IsKept (headed (progress_of self.old) line.now) (progress_of self.old) line.now) }
        ensures refused { IfOk result (λ taken. taken ≡ false → IsUntaken (progress_of self.old) (progress_of self.new)) }
        ensures lost { OnErr result (IsUntaken (progress_of self.old) (progress_of self.new)) }
    {
        if line != b"#EXT-X-PLAYLIST-TYPE:EVENT".as_slice() {
            return self.take_first(line);
        }
        if self.sequence != 0 || self.discontinuity_sequence != 0 {
            return Ok(false);
        }
        self.event = true;
        self.stage = Stage::Between;
        Ok(true)
    }

    /// The number of the next entry, where one is left.
    fn next_number(&self) -> Option<u64>
        ensures { result ≡ number_left (progress_of self.now) }
    {
        let number = u128::from(self.sequence) + self.entries.len() as u128;
        if number >= u128::from(NUMBERS) {
            return None;
        }
        Some(number as u64)
    }

    #[tactic(auto, unfolding(crate::specs::State::begun))]
    fn take_first(&mut self, line: &[u8]) -> Result<bool, AllocError>
        ensures taken { IfOk result (λ taken. Tells taken (begun (progress_of self.old) line.now) (progress_of self.new)) }
        ensures scarce { OnErr result (key_may_want (progress_of self.old) line.now ≡ true) }
        ensures kept { OnErr result (IsKept (begun (progress_of self.old) line.now) (progress_of self.old) line.now) }
        ensures refused { IfOk result (λ taken. taken ≡ false → IsUntaken (progress_of self.old) (progress_of self.new)) }
        ensures lost { OnErr result (IsUntaken (progress_of self.old) (progress_of self.new)) }
    {
        if line == b"#EXT-X-ENDLIST".as_slice() {
            if self.entries.is_empty() {
                return Ok(false);
            }
            self.stage = Stage::Ended;
            return Ok(true);
        }
        if self.next_number().is_none() {
            return Ok(false);
        }
        self.take_entry(line)
    }

    fn take_entry(&mut self, line: &[u8]) -> Result<bool, AllocError>
        ensures taken { IfOk result (λ taken. Tells taken (entered (progress_of self.old) line.now) (progress_of self.new)) }
        ensures scarce { OnErr result (key_may_want (progress_of self.old) line.now ≡ true) }
        ensures kept { OnErr result (IsKept (entered (progress_of self.old) line.now) (progress_of self.old) line.now) }
        ensures refused { IfOk result (λ taken. taken ≡ false → IsUntaken (progress_of self.old) (progress_of self.new)) }
        ensures lost { OnErr result (IsUntaken (progress_of self.old) (progress_of self.new)) }
    {
        if line == b"#EXT-X-DISCONTINUITY".as_slice() {
            self.discontinuity = true;
            self.stage = Stage::Broken;
            return Ok(true);
        }
        self.discontinuity = false;
        self.take_key_or_duration(line)
    }

    fn take_key_or_duration(&mut self, line: &[u8]) -> Result<bool, AllocError>
        ensures taken { IfOk result (λ taken. Tells taken (keyed_or_timed (progress_of self.old) line.now) (progress_of self.new)) }
        ensures scarce { OnErr result (key_may_want (progress_of self.old) line.now ≡ true) }
        ensures kept { OnErr result (IsKept (keyed_or_timed (progress_of self.old) line.now) (progress_of self.old) line.now) }
        ensures refused { IfOk result (λ taken. taken ≡ false → IsUntaken (progress_of self.old) (progress_of self.new)) }
        ensures lost { OnErr result (IsUntaken (progress_of self.old) (progress_of self.new)) }
    {
        if self.take_key(line)? {
            return Ok(true);
        }
        if self.salt.is_some() {
            return Ok(false);
        }
        Ok(self.take_duration(line))
    }

    fn take_key(&mut self, line: &[u8]) -> Result<bool, AllocError>
        ensures scarce { OnErr result (key_may_want (progress_of self.old) line.now ≡ true) }
        ensures kept { OnErr result (IsKept (keyed (progress_of self.old) line.now) (progress_of self.old) line.now) }
        ensures taken { IfOk result (λ taken. Moves taken (keyed (progress_of self.old) line.now) (progress_of self.old) (progress_of self.new)) }
        ensures lost { OnErr result (progress_of self.new ≡ progress_of self.old) }
    {
        if !line.starts_with(KEY_BEGIN.as_bytes()) {
            return Ok(false);
        }
        self.take_begun_key(line)
    }

    #[tactic(auto, unfolding(crate::specs::State::keyed))]
    fn take_begun_key(&mut self, line: &[u8]) -> Result<bool, AllocError>
        ensures scarce { OnErr result (awaits_first_key (progress_of self.old) ≡ true) }
        ensures kept { OnErr result (IsKept (keyed (progress_of self.old) line.now) (progress_of self.old) line.now) }
        ensures taken { IfOk result (λ taken. Moves taken (keyed (progress_of self.old) line.now) (progress_of self.old) (progress_of self.new)) }
        ensures lost { OnErr result (progress_of self.new ≡ progress_of self.old) }
    {
        let Some(number) = self.next_number() else {
            return Ok(false);
        };
        let Some(name) = &self.name else {
            return self.take_first_key(number, line);
        };
        let Some(key) = read_key(line, name, self.salt, number) else {
            return Ok(false);
        };
        if self.salt.is_none() && key == self.key {
            return Ok(false);
        }
        self.key = key;
        self.stage = Stage::Keyed;
        Ok(true)
    }

    #[tactic(auto, unfolding(crate::specs::State::keyed))]
    fn take_first_key(&mut self, number: u64, line: &[u8]) -> Result<bool, AllocError>
        requires first { self.old.name ≡ None }
        requires number { number_left (progress_of self.old) ≡ Some number }
        ensures taken { IfOk result (λ taken. Moves taken (keyed (progress_of self.old) line.now) (progress_of self.old) (progress_of self.new)) }
        ensures kept { OnErr result ((keyed (progress_of self.old) line.now ≢ None) ⊎ HasEscapes line.now) }
        ensures lost { OnErr result (progress_of self.new ≡ progress_of self.old) }
    {
        let alloc = *self.entries.allocator();
        let Some(name) = read_name(alloc, line)? else {
            return Ok(false);
        };
        let Some(salt) = read_salt(line, number) else {
            return Ok(false);
        };
        let Some(key) = read_key(line, &name, salt, number) else {
            return Ok(false);
        };
        self.name = Some(name.into_owned(alloc)?);
        self.salt = salt;
        self.key = key;
        self.stage = Stage::Keyed;
        Ok(true)
    }

    #[tactic(auto, unfolding(crate::specs::State::timed))]
    fn take_duration(&mut self, line: &[u8]) -> bool
        ensures taken { Tells result (timed (progress_of self.old) line.now) (progress_of self.new) }
        ensures refused { result ≡ false → progress_of self.new ≡ progress_of self.old }
    {
        if self.name.is_none() {
            return false;
        }
        let Some(micros) = read_duration(line) else {
            return false;
        };
        if micros == 0 || rounded_seconds(micros) > u128::from(self.target) {
            return false;
        }
        self.micros = micros;
        self.stage = Stage::Timed;
        true
    }

    fn take_segment(&mut self, line: &[u8]) -> Result<bool, AllocError>
        ensures taken { IfOk result (λ taken. Tells taken (listed (progress_of self.old) line.now) (progress_of self.new)) }
        ensures scarce { OnErr result (may_want Timed (progress_of self.old) line.now ≡ true) }
        ensures kept { OnErr result (listed (progress_of self.old) line.now ≢ None) }
        ensures full { OnErr result (vec_capacity self.old.entries ≤ vec_len self.old.entries) }
        ensures refused { IfOk result (λ taken. taken ≡ false → IsUntaken (progress_of self.old) (progress_of self.new)) }
        ensures lost { OnErr result (IsUntaken (progress_of self.old) (progress_of self.new)) }
    {
        if !line.ends_with(SEGMENT_END.as_bytes()) {
            return Ok(false);
        }
        self.take_ended_segment(line)
    }

    #[tactic(auto, unfolding(crate::specs::State::listed))]
    fn take_ended_segment(&mut self, line: &[u8]) -> Result<bool, AllocError>
        ensures taken { IfOk result (λ taken. Tells taken (listed (progress_of self.old) line.now) (progress_of self.new)) }
        ensures scarce { OnErr result (has_number (progress_of self.old) ≡ true) }
        ensures kept { OnErr result (listed (progress_of self.old) line.now ≢ None) }
        ensures full { OnErr result (vec_capacity self.old.entries ≤ vec_len self.old.entries) }
        ensures refused { IfOk result (λ taken. taken ≡ false → IsUntaken (progress_of self.old) (progress_of self.new)) }
        ensures lost { OnErr result (IsUntaken (progress_of self.old) (progress_of self.new)) }
    {
        let Some(number) = self.next_number() else {
            return Ok(false);
        };
        let Some(name) = &self.name else {
            return Ok(false);
        };
        if !is_segment_uri(line, name, number) {
            return Ok(false);
        }
        let entry = Entry {
            number,
            key: self.key,
            micros: self.micros,
            discontinuity: self.discontinuity,
        };
        self.entries.push(entry)?;
        self.stage = Stage::Between;
        Ok(true)
    }

    /// The playlist, where it may end behind the lines so far.
    pub fn finish(self) -> Option<Listing>
        ensures { result ≡ listing_at self.stage (progress_of self) }
    {
        let Reading {
            stage,
            target,
            sequence,
            discontinuity_sequence,
            event,
            salt,
            name,
            entries,
            ..
        } = self;
        let ended = match stage {
            Stage::Between => false,
            Stage::Ended => true,
            _ => return None,
        };
        if entries.is_empty() {
            return None;
        }
        Some(Listing {
            name: name?,
            target,
            sequence,
            discontinuity_sequence,
            event,
            salt,
            entries,
            ended,
        })
    }
}

/// The salt that the first line of a key may have, by the number of its entry: none where the line ends in a quote.
#[tactic(auto, unfolding(crate::specs::State::salt_in))]
fn read_salt(line: &[u8], number: u64) -> Option<Option<[u8; 16]>>
    ensures { result ≡ salt_in number line.now }
{
    if line.ends_with(b"\"") {
        return Some(None);
    }
    let (_, digits) = line.split_at(line.len().saturating_sub(32));
    let vector = <[u8; 16]>::from_hex(digits).ok()?;
    Some(Some(salted_vector(Some(vector), number)))
}

/// The name in the line of a key: that of the escaped text up to the first point. Only escapes want memory.
fn read_name(alloc: Global, line: &[u8]) -> Result<Option<CowStr<'_>>, AllocError>
    ensures ok { IfOk result (λ name. option_map cow_str_bytes name ≡ name_in line.now) }
    ensures scarce { OnErr result (HasEscapes line.now) }
{
    let (_, uri) = line.split_at(usize::min(KEY_BEGIN.len(), line.len()));
    let name = match percent_decode(before_point(uri)).decode_utf8(alloc) {
        Ok(name) => name,
        Err(DecodeError::Utf8(_)) => return Ok(None),
        Err(DecodeError::OutOfMemory) => return Err(AllocError),
    };
    if !is_name(&name) {
        return Ok(None);
    }
    Ok(Some(name))
}

/// What stands before the first point, or all where there is none.
fn before_point(text: &[u8]) -> &[u8]
    ensures { result.now ≡ before_first (λ b. b == 46) text.now }
{
    let place = text.iter().position(|b| *b == b'.').unwrap_or(text.len());
    text.split_at(place).0
}
