//! tshls: MPEG-2 transport streams to encrypted HLS, for any x86-64 that shuffles bytes.
#![tactic(auto)]

use program::Processor;
use std::process::ExitCode;

fn main(rt: HostRuntime) -> ExitCode {
    program::run(rt, rt, Processor::Shuffles)
}
