//! How a script is run.
ghost use Rattle.std.specs.Prelude.{◌≡◌, ◌≤◌, IfOk, IfSome};
ghost use Rattle.tk_script.specs.Commands.{line_of, lines_of, settings_said, settings_of};

use crate::block::block_said;
use crate::command::{Command, command_of};
use crate::lines::is_skipped;
use crate::pieces::Pieces;
use std::alloc::{AllocError, Global};

/// What a run has to know before its first command. That waits are counted it learns where the script says so.
#[derive(Clone, Copy, Debug, PartialEq, Eq)]
pub struct Settings {
    /// How many events the console holds, from 1 to 65,536.
    pub capacity: u64,
    /// How long a closed item stays, in nanoseconds. Without that no item leaves.
    pub retention: Option<u64>,
    /// Whether each task has a histogram of how long its polls ran, which the lines of the stream tell.
    pub times: bool,
}

/// Where the script says none.
const DEFAULT: Settings = Settings {
    capacity: 1_024,
    retention: None,
    times: false,
};

// The settings after a line, if further ones may be said there.
fn settings_by(
    alloc: Global,
    line: &[u8],
    settings: Settings,
) -> Result<Option<Settings>, AllocError>
    requires { (1 ≤ settings.capacity) × (settings.capacity ≤ 65536) }
    ensures said { IfOk result (λ o. o ≡ settings_said settings (line_of line.now)) }
    ensures fits { IfOk result (λ o. IfSome o (λ s. (1 ≤ s.capacity) × (s.capacity ≤ 65536))) }
{
    if is_skipped(line) {
        return Ok(Some(settings));
    }
    if block_said(line).is_some() {
        return Ok(None);
    }
    match command_of(alloc, line)? {
        Some(Command::Capacity { count }) => Ok(Some(Settings {
            capacity: count,
            ..settings
        })),
        Some(Command::Retention { span }) => Ok(Some(Settings {
            retention: Some(span),
            ..settings
        })),
        Some(Command::Times) => Ok(Some(Settings {
            times: true,
            ..settings
        })),
        // It holds from where it stands, and every task is made after it.
        Some(Command::Waits) => Ok(Some(settings)),
        _ => Ok(None),
    }
}

/// The settings of a script: those that it says before every other command.
///
/// The error is want of memory, for the attributes that a line declares.
pub fn settings_in(alloc: Global, script: &[u8]) -> Result<Settings, AllocError>
    ensures said { IfOk result (λ s. s ≡ settings_of (lines_of script.now)) }
    ensures fits { IfOk result (λ s. (1 ≤ s.capacity) × (s.capacity ≤ 65536)) }
{
    let mut settings = DEFAULT;
    for line in Pieces::new(script, b'\n') {
        match settings_by(alloc, line, settings)? {
            Some(more) => settings = more,
            None => return Ok(settings),
        }
    }
    Ok(settings)
}
