//! The program: its words, its streams and its status.
#![tactic(auto)]

mod asked;
mod command_line;
mod commands;
mod compares;
mod files;
mod help;
mod mistakes;
mod moments;
mod moments_of_file;
mod names;
mod notes;
mod options;
mod outputs;
mod program;
mod reports;
mod sites;
mod sources;
mod spans;
mod statuses;
mod terminal;
mod times;
mod views;
mod watches;

use files::WholeFiles;
use outputs::{Faults, Output};
use program::{refuse_words, run_program};
use sources::SystemFiles;
use std::cell::Cell;
use std::env::Env;
use std::io::IsTerminal;
use std::process::ExitCode;
use std::{env, io};
use terminal::terminal_of;

fn words<R: Env + AllocGlobal>(rt: &R) -> io::Result<Vec<String>> {
    Ok(env::args(rt)?.collect(rt.alloc())?)
}

fn main(rt: HostRuntime) -> ExitCode {
    let is_left = Cell::new(false);
    let errors = rt.stderr();
    let mut output = Output::new(io::writer(&rt), &is_left);
    let mut faults = Faults::new(io::writer(&errors), &is_left);
    let status = match words(&rt) {
        Ok(words) => run_program(
            &rt,
            rt.alloc(),
            words.as_slice(),
            terminal_of(&rt, rt.stdout().is_terminal()),
            &SystemFiles::new(&rt),
            &mut rt.stdin(),
            &mut output,
            &mut WholeFiles::new(&rt, rt.alloc(), Faults::new(io::writer(&errors), &is_left)),
            &mut faults,
        ),
        Err(error) => refuse_words(error.kind(), &mut faults),
    };
    ExitCode::from(status)
}
