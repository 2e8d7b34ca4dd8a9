//! The keys of a terminal, which gives them byte by byte.
ghost use Rattle.std.specs.Prelude.{◌≡◌};
ghost use Rattle.tk_screen.specs.Screens.{is_printable};
ghost use Rattle.tk_frame.specs.Keys as spec;

use crate::query::Column;
use tk_screen::Size;

/// Numbers that a terminal writes before the last byte of a sequence: the last three.
#[derive(Clone, Copy, Debug, PartialEq, Eq)]
pub struct Numbers {
    pub first: usize,
    pub second: usize,
    pub third: usize,
}

/// What has come of a key that is more than one byte.
#[derive(Clone, Copy, Debug, PartialEq, Eq)]
pub enum Begun {
    Nothing,
    /// The escape.
    Escape,
    /// The escape, a bracket, and these numbers.
    Code(Numbers),
}

/// Another row is chosen.
#[derive(Clone, Copy, Debug, PartialEq, Eq)]
pub enum Step {
    Below,
    Above,
    PageBelow,
    PageAbove,
    First,
    Last,
}

/// What a key asks for.
#[derive(Clone, Copy, Debug, PartialEq, Eq)]
pub enum Action {
    Nothing,
    /// Tasks sorted by a column.
    Sort(Column),
    /// The other end of the order first.
    Reverse,
    Move(Step),
    /// All of the chosen task, or no more of it.
    Open,
    /// The task of the finding that has this number.
    Finding(usize),
    /// Places in the place of tasks, or tasks again.
    Group,
    /// What places came to in the last while, or in all again.
    Recent,
    /// Resources and async operations, or no more of them.
    Resources,
    /// A pause, or its end.
    Pause,
    /// What keys do, or no more of it.
    Explain,
    Quit,
    /// The terminal has another size.
    Resize(Size),
    /// Nothing has come for so many seconds: 0 once something came again.
    Silence(usize),
    /// The tasks alone that a text names, which is typed from now on.
    Filter,
    /// A byte of this text.
    Put(u8),
    /// Its last byte is taken back.
    Erase,
    /// It has ended.
    Done,
}

/// What a byte came to.
#[derive(Clone, Copy, Debug, PartialEq, Eq)]
pub struct Heard {
    pub begun: Begun,
    pub action: Action,
}

// ---- keys of one byte

fn column_of(key: u8) -> Option<Column>
    ensures { result ≡ spec.column_of key }
{
    match key {
        b'b' => Some(Column::Busy),
        b's' => Some(Column::Sched),
        b'p' => Some(Column::Polls),
        b'w' => Some(Column::Wakes),
        b'o' => Some(Column::SelfWakes),
        b'h' => Some(Column::HeldUp),
        _ => None,
    }
}

fn step_of(key: u8) -> Option<Step>
    ensures { result ≡ spec.step_of key }
{
    match key {
        b'j' => Some(Step::Below),
        b'n' => Some(Step::Below),
        b'k' => Some(Step::Above),
        b'd' => Some(Step::PageBelow),
        b'u' => Some(Step::PageAbove),
        b'<' => Some(Step::First),
        b'>' => Some(Step::Last),
        _ => None,
    }
}

fn is_digit(key: u8) -> bool
    ensures { result ≡ spec.is_digit key }
{
    48 <= key && key <= 57
}

fn number_act(key: u8) -> Action
    ensures { result ≡ spec.number_act key }
{
    if is_digit(key) {
        Action::Finding((key - 48) as usize)
    } else {
        Action::Nothing
    }
}

fn other_act(key: u8) -> Action
    ensures { result ≡ spec.other_act key }
{
    match key {
        b'\n' => Action::Open,
        b'\r' => Action::Open,
        b'q' => Action::Quit,
        b' ' => Action::Pause,
        b'?' => Action::Explain,
        b'r' => Action::Resources,
        b'g' => Action::Group,
        b'R' => Action::Recent,
        b'v' => Action::Reverse,
        b'/' => Action::Filter,
        _ => number_act(key),
    }
}

fn step_act(key: u8) -> Action
    ensures { result ≡ spec.step_act key }
{
    match step_of(key) {
        Some(step) => Action::Move(step),
        None => other_act(key),
    }
}

fn key_act(key: u8) -> Action
    ensures { result ≡ spec.key_act key }
{
    match column_of(key) {
        Some(column) => Action::Sort(column),
        None => step_act(key),
    }
}

fn is_printable(key: u8) -> bool
    ensures { result ≡ is_printable key }
{
    0x20 <= key && key <= 0x7E
}

fn put_act(key: u8) -> Action
    ensures { result ≡ spec.put_act key }
{
    if is_printable(key) {
        Action::Put(key)
    } else {
        Action::Nothing
    }
}

// What a key asks for while a text is typed.
fn typed_act(key: u8) -> Action
    ensures { result ≡ spec.typed_act key }
{
    match key {
        b'\n' => Action::Done,
        b'\r' => Action::Done,
        8 => Action::Erase,
        127 => Action::Erase,
        _ => put_act(key),
    }
}

fn byte_act(types: bool, key: u8) -> Action
    ensures { result ≡ spec.byte_act types key }
{
    if types { typed_act(key) } else { key_act(key) }
}

// ---- keys of several bytes, the terminal's size, and how long nothing came

fn numbered_act(number: usize) -> Action
    ensures { result ≡ spec.numbered_act number }
{
    match number {
        1 => Action::Move(Step::First),
        7 => Action::Move(Step::First),
        4 => Action::Move(Step::Last),
        8 => Action::Move(Step::Last),
        5 => Action::Move(Step::PageAbove),
        6 => Action::Move(Step::PageBelow),
        _ => Action::Nothing,
    }
}

fn size_act(numbers: Numbers) -> Action
    ensures { result ≡ spec.size_act numbers }
{
    if numbers.first == 8 && numbers.second > 0 && numbers.third > 0 {
        Action::Resize(Size {
            columns: numbers.third,
            lines: numbers.second,
        })
    } else {
        Action::Nothing
    }
}

fn corner_act(numbers: Numbers) -> Action
    ensures { result ≡ spec.corner_act numbers }
{
    if numbers.second > 1 && numbers.third > 0 {
        Action::Resize(Size {
            columns: numbers.third,
            lines: numbers.second,
        })
    } else {
        Action::Nothing
    }
}

fn code_act(numbers: Numbers, key: u8) -> Action
    ensures { result ≡ spec.code_act numbers key }
{
    match key {
        b'A' => Action::Move(Step::Above),
        b'B' => Action::Move(Step::Below),
        b'H' => Action::Move(Step::First),
        b'F' => Action::Move(Step::Last),
        b'~' => numbered_act(numbers.third),
        b't' => size_act(numbers),
        b'R' => corner_act(numbers),
        b'w' => Action::Silence(numbers.third),
        _ => Action::Nothing,
    }
}

fn with_digit(number: usize, key: u8) -> usize
    ensures { result ≡ spec.with_digit number key }
{
    if number < 10_000 {
        10 * number + key.saturating_sub(48) as usize
    } else {
        number
    }
}

fn and_number(numbers: Numbers) -> Numbers
    ensures { result ≡ spec.and_number numbers }
{
    Numbers {
        first: numbers.second,
        second: numbers.third,
        third: 0,
    }
}

// ---- what a byte is

fn waits(begun: Begun) -> Heard
    ensures { result ≡ spec.waits begun }
{
    Heard {
        begun,
        action: Action::Nothing,
    }
}

fn asks(action: Action) -> Heard
    ensures { result ≡ spec.asks action }
{
    Heard {
        begun: Begun::Nothing,
        action,
    }
}

fn heard_first(types: bool, key: u8) -> Heard
    ensures { result ≡ spec.heard_first types key }
{
    if key == 27 {
        waits(Begun::Escape)
    } else {
        asks(byte_act(types, key))
    }
}

fn heard_second(types: bool, key: u8) -> Heard
    ensures { result ≡ spec.heard_second types key }
{
    let none = Numbers {
        first: 0,
        second: 0,
        third: 0,
    };
    match key {
        b'[' => waits(Begun::Code(none)),
        b'O' => waits(Begun::Code(none)),
        _ => heard_first(types, key),
    }
}

fn heard_then(numbers: Numbers, key: u8) -> Heard
    ensures { result ≡ spec.heard_then numbers key }
{
    if key == 27 {
        waits(Begun::Escape)
    } else if key == b';' {
        waits(Begun::Code(and_number(numbers)))
    } else if is_digit(key) {
        let third = with_digit(numbers.third, key);
        waits(Begun::Code(Numbers { third, ..numbers }))
    } else if 32 <= key && key <= 63 {
        waits(Begun::Code(numbers))
    } else {
        asks(code_act(numbers, key))
    }
}

/// What a byte of a terminal asks for, after what has begun, while a text is typed or not.
pub(crate) fn hear(types: bool, begun: Begun, key: u8) -> Heard
    ensures { result ≡ spec.heard types begun key }
{
    match begun {
        Begun::Nothing => heard_first(types, key),
        Begun::Escape => heard_second(types, key),
        Begun::Code(numbers) => heard_then(numbers, key),
    }
}
