//! A text that is typed at keys.
ghost use Rattle.std.specs.Prelude.{◌≡◌};
ghost use Rattle.tk_frame.specs.Typed as spec;

/// A text that is typed at keys, of up to 24 bytes.
#[derive(Clone, Copy, Debug, PartialEq, Eq)]
pub struct Typed {
    bytes: [u8; 24],
    count: usize,
}

impl Typed {
    /// Nothing was typed.
    pub fn none() -> Typed
        ensures { result ≡ spec.nothing }
    {
        Typed {
            bytes: [0u8; 24],
            count: 0,
        }
    }

    /// Whether nothing was typed.
    pub fn is_empty(&self) -> bool
        ensures { result ≡ spec.is_empty self.now }
    {
        self.count == 0
    }

    /// What was typed.
    pub fn text(&self) -> &[u8]
        ensures { result.now ≡ spec.typed_text self.now }
    {
        match self.bytes.get(..self.count) {
            Some(text) => text,
            None => &self.bytes,
        }
    }
}

/// The same with one byte more, where there is room for it.
pub(crate) fn with_byte(byte: u8, typed: Typed) -> Typed
    ensures { result ≡ spec.with_byte byte typed }
{
    if typed.count < 24 {
        let mut bytes = typed.bytes;
        bytes[typed.count] = byte;
        Typed {
            bytes,
            count: typed.count + 1,
        }
    } else {
        typed
    }
}

/// The same without its last byte.
pub(crate) fn without_last(typed: Typed) -> Typed
    ensures { result ≡ spec.without_last typed }
{
    Typed {
        count: typed.count.saturating_sub(1),
        ..typed
    }
}
