ghost use Rattle.std.specs.Prelude.{◌≡◌};
ghost use Rattle.master_playlist.specs.Faults;
ghost use Rattle.master_playlist.specs.declared.fault.MasterFault.TheVariants.{NoMemory};

use crate::variant::Variant;
use limits::{LEAST, MOST_PIXELS};
use playlist_text::{is_codecs, is_name};
use std::alloc::AllocError;
use thiserror::Error;

/// Why some variants get no master playlist. Of several the first here is told.
#[derive(Clone, Copy, Debug, PartialEq, Eq, Error)]
pub enum MasterFault {
    #[error("a name isn't 1 to 64 bytes that names may have")]
    BadName,
    #[error("two names are the same")]
    SameName,
    #[error("codecs aren't 1 to 128 printable bytes without quotes")]
    BadCodecs,
    #[error("a width or a height isn't from 1 to 16,384")]
    BadResolution,
    #[error("out of memory")]
    NoMemory,
}

impl From<AllocError> for MasterFault {
    ghost from_gives = { λ _ fault. fault ≡ NoMemory };

    fn from(_error: AllocError) -> MasterFault {
        MasterFault::NoMemory
    }
}

/// The first fault that stands, if one does.
#[tactic(auto, unfolding(crate::specs::Faults::fault_of))]
pub fn fault_of(variants: &[Variant<'_>]) -> Option<MasterFault>
    ensures { result ≡ Faults.fault_of variants.now }
{
    if has_bad_name(variants) {
        return Some(MasterFault::BadName);
    }
    if has_same_names(variants) {
        return Some(MasterFault::SameName);
    }
    if has_bad_codecs(variants) {
        return Some(MasterFault::BadCodecs);
    }
    if has_bad_resolution(variants) {
        return Some(MasterFault::BadResolution);
    }
    None
}

fn has_bad_name(variants: &[Variant<'_>]) -> bool
    ensures { result ≡ Faults.has_bad_name variants.now }
{
    variants.iter().any(|variant| !is_name(variant.name))
}

#[tactic(auto, unfolding(crate::specs::Faults::has_same_names))]
fn has_same_names(variants: &[Variant<'_>]) -> bool
    ensures { result ≡ Faults.has_same_names variants.now }
{
    for (i, variant) in variants.iter().enumerate() {
        let (_, others) = variants.split_at(i + 1);
        if has_name(variant.name, others) {
            return true;
        }
    }
    false
}

fn has_name(name: &str, variants: &[Variant<'_>]) -> bool
    ensures { result ≡ Faults.has_name name.now variants.now }
{
    variants.iter().any(|variant| variant.name == name)
}

fn has_bad_codecs(variants: &[Variant<'_>]) -> bool
    ensures { result ≡ Faults.has_bad_codecs variants.now }
{
    variants.iter().any(|variant| !is_codecs(variant.codecs))
}

fn has_bad_resolution(variants: &[Variant<'_>]) -> bool
    ensures { result ≡ Faults.has_bad_resolution variants.now }
{
    variants.iter().any(|variant| !has_resolution(variant))
}

fn has_resolution(variant: &Variant<'_>) -> bool
    ensures { result ≡ Faults.has_resolution variant.now }
{
    is_side(variant.width) && is_side(variant.height)
}

fn is_side(side: u64) -> bool
    ensures { result ≡ Faults.is_side side }
{
    LEAST <= side && side <= MOST_PIXELS
}
