//! Why a line of a script stops it.
ghost use Rattle.std.specs.Prelude.{◌≡◌};
ghost use Rattle.tk_script.specs.Refusals as spec;

use tk_core::Refusal;

/// Why a line of a script stops it, in the order in which these are tried; `Memory` may come before any of them.
#[derive(Clone, Copy, Debug, PartialEq, Eq)]
pub enum Stop {
    /// The line says no command, a setting a second time or after another command, or what may not stand there: in a block what is
    /// no line of it, outside of blocks a `join` or a worker's line; or a block is open at the script's end.
    BadCommand,
    /// With it `polls` commands would make more than 100,000,000 polls together.
    TooManyPolls,
    /// A number names nothing, or what is spent.
    NoSuchItem,
    /// The ledger of an item refused the call.
    Call(Refusal),
    /// The recorder has made all its offers.
    OffersSpent,
    /// The moment is below that of the line of the stream before.
    Clock,
    /// The stream has 2^63 lines.
    NumbersSpent,
    /// There was no memory left.
    Memory,
    /// The writer gave an error or took nothing, and a proper front of the line went out.
    WriteFault,
    /// A thread of a block could not be started.
    NoThread,
    /// The gate stopped a worker of a block.
    Stopped,
}

fn name_of(refusal: Refusal) -> &'static str
    ensures { result.now ≡ spec.name_of refusal }
{
    match refusal {
        Refusal::AlreadyPolling => "AlreadyPolling",
        Refusal::NotPolling => "NotPolling",
        Refusal::Closed => "Closed",
        Refusal::HandlesSpent => "HandlesSpent",
        Refusal::NoAttribute => "NoAttribute",
        Refusal::WrongKind => "WrongKind",
        Refusal::OutOfRange => "OutOfRange",
        Refusal::Memory => "Memory",
    }
}

impl Stop {
    /// The name by which a script stops.
    pub fn name(self) -> &'static str
        ensures { result.now ≡ spec.stop_name self }
    {
        match self {
            Stop::BadCommand => "BadCommand",
            Stop::TooManyPolls => "TooManyPolls",
            Stop::NoSuchItem => "NoSuchItem",
            Stop::Call(refusal) => name_of(refusal),
            Stop::OffersSpent => "OffersSpent",
            Stop::Clock => "Clock",
            Stop::NumbersSpent => "NumbersSpent",
            Stop::Memory => "Memory",
            Stop::WriteFault => "WriteFault",
            Stop::NoThread => "NoThread",
            Stop::Stopped => "Stopped",
        }
    }
}
