//! Sources that read ahead: each input is opened and read in a thread of its own.
#![tactic(auto)]

mod ahead;
mod backlog;
mod backlogs;
mod clock_reading;
mod counts;
mod incoming;
mod input;
mod input_files;
mod limits;
mod message;
mod opening;
mod patience;
mod pushing;
mod readiness;
mod reading;
mod sender;
mod shares;
mod spares;
mod starting;
mod times;
mod unclosed;
mod untold;
mod view;
mod wait_end;
mod waiting;

pub use ahead::Ahead;
pub use input::{Contents, Input, OpenInput};
pub use input_files::{InputAt, InputFiles};
pub use limits::{Limits, bounds_are_these};
pub use starting::{InputFault, open_all, open_paths};
pub use view::{InputState, InputsView};
