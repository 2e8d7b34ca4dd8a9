//! Scripts, line by line.

use crate::run::Plain;
use std::alloc::Global;
use std::io::Write;
use tk_fault::AppFault;
use tk_script::{Stop, command_of, is_skipped};

fn run_line<W: Write>(
    plain: &mut Plain,
    number: u32,
    line: &[u8],
    writer: &mut W,
) -> Result<(), Stop> {
    if is_skipped(line) {
        return Ok(());
    }
    match command_of(plain.alloc, line) {
        Ok(Some(command)) => plain.apply(number, command, writer),
        Ok(None) => Err(Stop::BadCommand),
        Err(_) => Err(Stop::Memory),
    }
}

/// Runs a script on plain rows, and writes the stream that it publishes.
///
/// - `Memory`: the run could not begin. Nothing was written.
/// - `Script`: a line was refused, by its number from 1 and by the name that the run over live ledgers gives it. What the lines
///   before it published stands.
pub fn run_plain<W: Write>(alloc: Global, script: &[u8], writer: &mut W) -> Result<(), AppFault> {
    let Ok(mut plain) = Plain::new(alloc) else {
        return Err(AppFault::Memory);
    };
    let mut number = 0u32;
    for line in script.split(|byte| *byte == b'\n') {
        number = number.saturating_add(1);
        if let Err(stop) = run_line(&mut plain, number, line, writer) {
            return Err(AppFault::Script {
                line: u64::from(number),
                name: stop.name(),
            });
        }
    }
    Ok(())
}
