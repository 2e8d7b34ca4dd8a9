//! What a run of the program stops at.
ghost use Rattle.std.specs.Prelude.{◌≡◌, Some};
ghost use Rattle.std.specs.Fmt.{DisplaysOnOk};
ghost use Rattle.tk_fault.specs.Faults as spec;

use std::error::Error;
use std::fmt;
use tk_client::Fault;

/// What a run of the program stops at.
#[derive(Clone, Copy, Debug, PartialEq, Eq)]
pub enum AppFault {
    /// There was no memory: for the script, of which nothing was run, or for the view of a stream. Nothing was written.
    Memory,
    /// The reader failed, gave no end within 2^32 reads, or gave a script of more than 1,048,576 bytes. Nothing was written.
    Read,
    /// The writer failed. A front of the output went out.
    Write,
    /// A line of a script was refused, of this number from 1. What the lines before it published went out.
    Script { line: u64, name: &'static str },
    /// The stream has this fault, after so many lines that were applied. Nothing was written.
    Stream { lines: u64, fault: Fault },
}

impl AppFault {
    /// The number of the fault, from 1 on in the order of the variants.
    pub fn code(&self) -> u32
        ensures { result ≡ spec.code_of self.now }
    {
        match self {
            AppFault::Memory => 1,
            AppFault::Read => 2,
            AppFault::Write => 3,
            AppFault::Script { .. } => 4,
            AppFault::Stream { .. } => 5,
        }
    }
}

fn name_of(fault: Fault) -> &'static str
    ensures { result.now ≡ spec.name_of fault }
{
    match fault {
        Fault::Memory => "Memory",
        Fault::BadJson => "BadJson",
        Fault::BadShape => "BadShape",
        Fault::Gap { .. } => "Gap",
        Fault::UnknownId => "UnknownId",
        Fault::Repeated => "Repeated",
        Fault::TooLong => "TooLong",
        Fault::Misfit => "Misfit",
        Fault::Failed => "Failed",
    }
}

fn write_fault<W: fmt::Write>(fault: Fault, f: &mut fmt::Formatter<W>) -> fmt::Result
    ensures { DisplaysOnOk W.write_str_gives f.old result (Some (spec.fault_text fault)) f.new }
{
    let name = name_of(fault);
    match fault {
        Fault::Gap { expected, found } => write!(f, "Gap expected {expected} found {found}"),
        _ => f.write_str(name),
    }
}

fn write_stream<W: fmt::Write>(lines: u64, fault: Fault, f: &mut fmt::Formatter<W>) -> fmt::Result
    ensures { DisplaysOnOk W.write_str_gives f.old result (Some (spec.stream_text lines fault)) f.new }
{
    write!(f, "stream after {lines} lines: ")?;
    write_fault(fault, f)
}

/// The name of the fault, with the line of a script, and with how far a stream was taken.
impl fmt::Display for AppFault {
    ghost output = { λ fault. Some (spec.text_of fault) };

    fn fmt<W: fmt::Write>(&self, f: &mut fmt::Formatter<W>) -> fmt::Result {
        match self {
            AppFault::Memory => f.write_str("Memory"),
            AppFault::Read => f.write_str("Read"),
            AppFault::Write => f.write_str("Write"),
            AppFault::Script { line, name } => write!(f, "line {line}: {name}"),
            AppFault::Stream { lines, fault } => write_stream(*lines, *fault, f),
        }
    }
}

impl Error for AppFault {}
