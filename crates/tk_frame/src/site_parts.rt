//! The parts of a place's text.
ghost use Rattle.std.specs.Prelude.{◌≡◌, ◌≤◌, length, drop};
ghost use Rattle.tk_odd.specs.Places as odd;
ghost use Rattle.tk_frame.specs.Places as spec;

fn is_digit(byte: u8) -> bool
    ensures { result ≡ odd.is_digit byte }
{
    48 <= byte && byte <= 57
}

// A text without its first bytes.
fn without_first(text: &[u8], count: usize) -> &[u8]
    ensures { result.now ≡ drop count text.now }
{
    match text.get(count..) {
        Some(rest) => rest,
        None => &text[..0],
    }
}

fn behind_kind(site: &[u8]) -> &[u8]
    ensures { result.now ≡ spec.behind_kind site.now }
{
    let [first, rest @ ..] = site else {
        return site;
    };
    if *first == 32 {
        without_first(rest, 3)
    } else {
        behind_kind(rest)
    }
}

// Where the last digit of a text ends.
fn digits_end(text: &[u8]) -> usize
    ensures is { result ≡ spec.digits_end 0 0 text.now }
    ensures within { result ≤ length text.now }
{
    let mut end = 0;
    for (i, byte) in text.iter().enumerate() {
        if is_digit(*byte) {
            end = i + 1;
        }
    }
    end
}

/// Where the tasks of a place were spawned.
pub(crate) fn location_in(site: &[u8]) -> &[u8]
    ensures { result.now ≡ spec.location_in site.now }
{
    let rest = behind_kind(site);
    let end = digits_end(rest);
    &rest[..end]
}

fn behind_location(site: &[u8]) -> &[u8]
    ensures { result.now ≡ spec.behind_location site.now }
{
    let rest = behind_kind(site);
    let end = digits_end(rest);
    without_first(rest, end)
}

/// The name of the tasks of a place, but for numbers. It is empty where they have none of their own.
pub(crate) fn name_in(site: &[u8]) -> &[u8]
    ensures { result.now ≡ spec.name_in site.now }
{
    without_first(behind_location(site), 6)
}
