//! The program `lux`, run over words whose room is refused.
#![tactic(auto)]

use lux_core::run;
use std::process::ExitCode;

fn main(rt: HostRuntime) -> ExitCode {
    ExitCode::from(run(&rt).code())
}
