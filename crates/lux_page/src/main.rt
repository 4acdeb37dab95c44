//! The program `lux_page`.
#![tactic(auto)]

use lux_core::run_page;
use std::process::ExitCode;

fn main(rt: HostRuntime) -> ExitCode {
    ExitCode::from(run_page(&rt).code())
}
