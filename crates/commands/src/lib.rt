//! The commands: how each takes the words that it is asked by, and what `seal`, `open` and `check` read and write. What `one` and
//! `pack` do stands in `packing`. How those words came off a command line is nothing that it knows.
#![tactic(auto)]

mod check_options;
mod checking;
mod cipher;
mod entry;
mod files;
mod frame_size;
mod kept;
mod key_list;
mod key_word;
mod ladder_fault;
mod ladder_keys;
mod ladder_options;
mod ladder_settings;
mod numbers;
mod opening;
mod output;
mod outside;
mod packets;
mod packing_fault;
mod pool;
mod ranges;
mod reading;
mod sealing;
mod settings;
mod within;

pub use check_options::{CheckOptions, CheckWords, read_check_options};
pub use checking::{CheckingFault, check};
pub use cipher::{CipherFault, CipherOptions, CipherWords, read_cipher_options};
pub use entry::{EntryWords, cut_entry, entries, first_bad};
pub use files::{FileFault, FileReader};
pub use key_list::KeyListFault;
pub use ladder_fault::LadderFault;
pub use ladder_options::{LadderOptions, LadderWords, read_ladder_options};
pub use numbers::{
    DEFAULT_FRAME, DEFAULT_GAP, DEFAULT_MOST, DEFAULT_NAME, DEFAULT_PERIOD, DEFAULT_TARGET,
    DEFAULT_WINDOW, NumberWords, Numbers,
};
pub use opening::{OpeningFault, open};
pub use output::{Output, write_all};
pub use outside::{Ranged, first_outside};
pub use packing_fault::LadderPackingFault;
pub use pool::{DEFAULT_QUEUE, DEFAULT_WORKERS, MOST_AHEAD, MOST_STALL, Pool, PoolWords};
pub use ranges::limits_are_these;
pub use sealing::{SealingFault, seal};
pub use settings::{PackingWords, SettingsFault, read_settings};
