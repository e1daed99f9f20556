//! One rendition of a ladder, as one word tells it.
ghost use Rattle.std.specs.Prelude.{length, ◌<◌, OnErr, ◌≡◌, None, Decides, IfOk, IfSome, All, map};
ghost use Rattle.commands.specs.Entries.{before_colon, behind_colon, HasColon, entry_of, HasFourColons, IsGood, IsFirstBad};
ghost use Rattle.commands.specs.Entries.{entry_value};

use crate::frame_size::size;
use crate::key_list::are_keys;
use std::alloc::{AllocError, Global};

/// The parts of an entry, as they stand.
#[derive(Clone, Copy, Debug, Drop)]
pub struct EntryWords<'a> {
    pub name: &'a str,
    pub codecs: &'a str,
    pub size: &'a str,
    pub keys: &'a str,
    pub path: &'a str,
}

/// A text before its first colon, and the rest behind it.
#[derive(Clone, Copy, Drop)]
struct Parted<'a> {
    before: &'a str,
    behind: &'a str,
}

/// The text parted at its first colon; None where it has none.
fn at_colon(text: &str) -> Option<Parted<'_>>
    ensures has { IfSome result (λ _. HasColon text.now) }
    ensures before { IfSome result (λ parted. parted.before.now ≡ before_colon text.now) }
    ensures behind { IfSome result (λ parted. parted.behind.now ≡ behind_colon text.now) }
    ensures none { result ≡ None → ¬ HasColon text.now }
{
    let (before, behind) = text.split_once(':')?;
    Some(Parted { before, behind })
}

/// The text cut at its first four colons; None where it has fewer.
pub fn cut_entry(text: &str) -> Option<EntryWords<'_>>
    ensures some { IfSome result (λ words. entry_value words ≡ entry_of text.now) }
    ensures has { IfSome result (λ _. HasFourColons text.now) }
    ensures none { result ≡ None → ¬ HasFourColons text.now }
{
    let name = at_colon(text)?;
    let codecs = at_colon(name.behind)?;
    let size = at_colon(codecs.behind)?;
    let keys = at_colon(size.behind)?;
    Some(EntryWords {
        name: name.before,
        codecs: codecs.before,
        size: size.before,
        keys: keys.before,
        path: keys.behind,
    })
}

/// Whether an entry has four colons, a size and good keys.
pub(crate) fn is_good(text: &str) -> bool
    ensures { Decides result (IsGood text.now) }
{
    let Some(words) = cut_entry(text) else {
        return false;
    };
    size(words.size).is_some() && are_keys(words.keys)
}

/// The place of the first entry that isn't good.
pub fn first_bad(texts: &[&str]) -> Option<usize>
    ensures some { IfSome result (λ place. IsFirstBad (map (λ t. t.now) texts.now) place) }
    ensures none { result ≡ None → All IsGood (map (λ t. t.now) texts.now) }
{
    for place in 0..texts.len() {
        if !is_good(texts[place]) {
            return Some(place);
        }
    }
    None
}

/// The parts of each entry.
pub fn entries<'a>(alloc: Global, texts: &[&'a str]) -> Result<Vec<EntryWords<'a>>, AllocError>
    requires good { All IsGood (map (λ t. t.now) texts.now) }
    ensures ok { IfOk result (λ entries. map entry_value entries.items ≡ map entry_of (map (λ t. t.now) texts.now)) }
    ensures scarce { OnErr result (0 < length texts.now) }
{
    let mut entries = Vec::new(alloc);
    for text in texts {
        let Some(words) = cut_entry(text) else {
            unreachable!()
        };
        entries.push(words)?;
    }
    Ok(entries)
}
