//! The law that what is packed comes back: a media playlist that a run gave, read back, leads to the accepted packets.
#![tactic(auto)]

mod laws;
mod made;

pub use laws::what_is_packed_comes_back;
pub use made::settings_are_made;
