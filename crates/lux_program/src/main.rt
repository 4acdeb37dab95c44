//! The program `lux`.
#![tactic(auto)]

use lux_core::run;
use std::process::ExitCode;

fn main(rt: HostRuntime) -> ExitCode {
    ExitCode::from(run(&rt).code())
}
