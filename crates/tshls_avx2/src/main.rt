//! tshls: MPEG-2 transport streams to encrypted HLS, for an x86-64 with AVX2.
#![tactic(auto)]

use program::Processor;
use std::process::ExitCode;

fn main(rt: HostRuntime) -> ExitCode {
    program::run(rt, rt, Processor::Avx2)
}
