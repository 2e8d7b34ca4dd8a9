//! The calls on an operation's row.
ghost use Rattle.std.specs.Prelude.{◌≡◌, true, false};
ghost use Rattle.tk_core.specs.declared.op.call.OpCall.TheVariants.{PollStart, PollEnd, Close, SetTask, Attr as Change};
ghost use Rattle.tk_core.specs.OpMeaning.{op_meaning};
ghost use Rattle.tk_core.specs.Op.{opening_row};
ghost use Rattle.tk_core.specs.OpWords.{words_of};
ghost use Rattle.tk_embed.specs.Border.{Makes};
ghost use Rattle.tk_ids.specs.Ids.{is_id};
ghost use Rattle.tk_embed.specs.Attr.{change_of, Opens};

use crate::attr::{Attr, change, value};
use crate::reply::code;
use crate::step::make;
use tk_core::{OpCall, OpRow};
use tk_ids::TaskId;

/// The words of an operation that was just created with these attributes. False, and nothing is written, where they are more than 6.
#[unsafe(no_mangle)]
pub extern "C" fn taskscope_op_open(created: u64, attrs: &[Attr], words: &mut [u64; 16]) -> bool
    ensures { Opens (λ values. words_of (opening_row created values)) attrs.now words.old words.new result }
{
    let row = match attrs {
        [] => OpRow::opening(created, &[]),
        [a] => OpRow::opening(created, &[value(a)]),
        [a, b] => OpRow::opening(created, &[value(a), value(b)]),
        [a, b, c] => OpRow::opening(created, &[value(a), value(b), value(c)]),
        [a, b, c, d] => OpRow::opening(created, &[value(a), value(b), value(c), value(d)]),
        [a, b, c, d, e] => OpRow::opening(
            created,
            &[value(a), value(b), value(c), value(d), value(e)],
        ),
        [a, b, c, d, e, f] => OpRow::opening(
            created,
            &[value(a), value(b), value(c), value(d), value(e), value(f)],
        ),
        _ => return false,
    };
    *words = row.to_words();
    true
}

/// The operation is closed. Refused with `Closed`.
#[unsafe(no_mangle)]
pub extern "C" fn taskscope_op_close(words: &mut [u64; 16], moment: u64) -> u32
    ensures { Makes op_meaning words.old (Close moment) words.new result }
{
    code(make::<OpRow>(words, OpCall::Close(moment)))
}

/// An attribute is changed: 0 adds, 1 takes away, and any other number sets. Refused with `Closed`, `NoAttribute`, `WrongKind`, `OutOfRange`.
#[unsafe(no_mangle)]
pub extern "C" fn taskscope_op_change(
    words: &mut [u64; 16],
    index: u64,
    how: u32,
    attr: &Attr,
) -> u32
    ensures { Makes op_meaning words.old (Change index (change_of how attr.now)) words.new result }
{
    code(make::<OpRow>(words, OpCall::Attr(index, change(how, attr))))
}

/// A poll starts. Refused with `AlreadyPolling`, `Closed`.
#[unsafe(no_mangle)]
pub extern "C" fn taskscope_op_start(words: &mut [u64; 16], moment: u64) -> u32
    ensures { Makes op_meaning words.old (PollStart moment) words.new result }
{
    code(make::<OpRow>(words, OpCall::PollStart(moment)))
}

/// The open poll ends. Refused with `NotPolling`, `Closed`.
#[unsafe(no_mangle)]
pub extern "C" fn taskscope_op_end(words: &mut [u64; 16], moment: u64) -> u32
    ensures { Makes op_meaning words.old (PollEnd moment) words.new result }
{
    code(make::<OpRow>(words, OpCall::PollEnd(moment)))
}

/// From now on this task polls the operation. 9, and nothing is changed, where no task has the id.
#[unsafe(no_mangle)]
pub extern "C" fn taskscope_op_set_task(words: &mut [u64; 16], task: u64) -> u32
    ensures made { is_id task ≡ true → Makes op_meaning words.old (SetTask task) words.new result }
    ensures refused { is_id task ≡ false → (words.new ≡ words.old) × (result ≡ 9) }
{
    match TaskId::from_value(task) {
        Ok(task) => code(make::<OpRow>(words, OpCall::SetTask(task))),
        Err(_) => 9,
    }
}
