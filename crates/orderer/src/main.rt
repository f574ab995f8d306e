//! The ordering service's program. `orderer world FILE` plays a script on a simulated network.
#![tactic(auto)]

mod adapters;
#[cfg(test)]
mod byzantine_tests;
mod commands;
mod offline;
#[cfg(test)]
mod stop_tests;
#[cfg(test)]
mod tests;

use adapters::{NoSource, Reading, Writing};
use commands::{Asked, judged};
use offline::run_offline;
use std::env;
use std::fs::File;
use std::process::ExitCode;

/// The status for want of memory.
const NO_MEMORY: u8 = 8;

fn main(rt: HostRuntime) -> ExitCode {
    let mut words = Vec::new(rt.alloc());
    let Ok(arguments) = env::args(&rt) else {
        return ExitCode::from(NO_MEMORY);
    };
    for word in arguments.skip(1) {
        if words.push(word).is_err() {
            return ExitCode::from(NO_MEMORY);
        }
    }
    let words = words.as_slice();
    let mut out = Writing::new(rt.stdout());
    if judged(words) == Asked::World {
        if let Some(path) = words.get(1) {
            if let Ok(file) = File::open(&rt, path.as_str()) {
                let mut source = Reading::new(file);
                return ExitCode::from(run_offline(rt.alloc(), words, &mut source, &mut out));
            }
        }
    }
    let mut source = NoSource::new();
    ExitCode::from(run_offline(rt.alloc(), words, &mut source, &mut out))
}
