//! The command line: the words that it takes, by `clap`, the job that they ask for, and how the program's faults are told.
#![tactic(auto)]

mod bare_commands;
mod explanation;
mod fault;
mod fault_text;
mod help;
mod help_texts;
mod job;
mod matching;
mod offered;
mod options;
mod pack_options;
mod program;
mod reasons;
mod settings_reason;
mod shown;
mod version_text;

pub use explanation::explain;
pub use fault::Fault;
pub use help_texts::tables_are_these;
pub use job::{Job, LadderJob, StreamJob, line};
pub use version_text::version;
