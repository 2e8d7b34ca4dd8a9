//! The calls on a resource's row.
ghost use Rattle.tk_core.specs.declared.resource.call.ResourceCall.TheVariants.{Close, Attr as Change};
ghost use Rattle.tk_core.specs.ResourceMeaning.{resource_meaning};
ghost use Rattle.tk_core.specs.Resource.{opening_row};
ghost use Rattle.tk_core.specs.ResourceWords.{words_of};
ghost use Rattle.tk_embed.specs.Border.{Makes};
ghost use Rattle.tk_embed.specs.Attr.{change_of, Opens};

use crate::attr::{Attr, change, value};
use crate::reply::code;
use crate::step::make;
use tk_core::{ResourceCall, ResourceRow};

/// The words of a resource that was just created with these attributes. False, and nothing is written, where they are more than 6.
#[unsafe(no_mangle)]
pub extern "C" fn taskscope_resource_open(
    created: u64,
    attrs: &[Attr],
    words: &mut [u64; 16],
) -> bool
    ensures { Opens (λ values. words_of (opening_row created values)) attrs.now words.old words.new result }
{
    let row = match attrs {
        [] => ResourceRow::opening(created, &[]),
        [a] => ResourceRow::opening(created, &[value(a)]),
        [a, b] => ResourceRow::opening(created, &[value(a), value(b)]),
        [a, b, c] => ResourceRow::opening(created, &[value(a), value(b), value(c)]),
        [a, b, c, d] => ResourceRow::opening(created, &[value(a), value(b), value(c), value(d)]),
        [a, b, c, d, e] => ResourceRow::opening(
            created,
            &[value(a), value(b), value(c), value(d), value(e)],
        ),
        [a, b, c, d, e, f] => ResourceRow::opening(
            created,
            &[value(a), value(b), value(c), value(d), value(e), value(f)],
        ),
        _ => return false,
    };
    *words = row.to_words();
    true
}

/// The resource is closed. Refused with `Closed`.
#[unsafe(no_mangle)]
pub extern "C" fn taskscope_resource_close(words: &mut [u64; 16], moment: u64) -> u32
    ensures { Makes resource_meaning words.old (Close moment) words.new result }
{
    code(make::<ResourceRow>(words, ResourceCall::Close(moment)))
}

/// An attribute is changed: 0 adds, 1 takes away, and any other number sets. Refused with `Closed`, `NoAttribute`, `WrongKind`, `OutOfRange`.
#[unsafe(no_mangle)]
pub extern "C" fn taskscope_resource_change(
    words: &mut [u64; 16],
    index: u64,
    how: u32,
    attr: &Attr,
) -> u32
    ensures { Makes resource_meaning words.old (Change index (change_of how attr.now)) words.new result }
{
    code(make::<ResourceRow>(words, ResourceCall::Attr(index, change(how, attr))))
}
