//! Names of tasks, resources, attributes and files.
ghost use Rattle.std.specs.Prelude.{◌≡◌, true, Some, if◌then◌else◌, IfOk, IfErr, nat_eq};
ghost use Rattle.std.specs.Cmp.{partial_equiv_from_equiv};
ghost use Rattle.std.specs.Cmp.Lexicographic.{pointwise, nat_list_eq_equiv};
ghost use Rattle.std.specs.List.{list_all};
ghost use Rattle.tk_ids.specs.Names as spec;

use crate::error::IdError;
use std::alloc::{AllocError, Global};
use std::fmt;
use std::marker::Model;

/// A name: 1 to 1,024 bytes of printable ASCII, each 0x20 to 0x7E.
#[derive(Debug, Drop)]
pub struct Name {
    text: String,
}

impl Model for Name {
    ghost use Rattle.std.specs.Prelude.{◌≡◌, List, ℕ, true, string_bytes};
    ghost use Rattle.tk_ids.specs.Names.{is_name};

    ghost Value = { List ℕ };

    ghost view = { λ n. string_bytes n.text };

    ghost invariant = { λ n. is_name (string_bytes n.text) ≡ true };
}

/// Whether bytes are a name.
pub fn is_name(bytes: &[u8]) -> bool
    ensures { result ≡ spec.is_name bytes.now }
{
    1 <= bytes.len() && bytes.len() <= 1024 && are_printable(bytes)
}

fn are_printable(bytes: &[u8]) -> bool
    ensures { result ≡ list_all spec.is_printable bytes.now }
{
    bytes.iter().all(|b| 0x20 <= *b && *b <= 0x7E)
}

impl Name {
    /// The name with these bytes.
    ///
    /// `BadName` where they are no name, and `Memory` where they are one and there is no memory to keep it.
    pub fn new(alloc: Global, bytes: &[u8]) -> Result<Name, IdError>
        ensures ok { IfOk result (λ name. (name ≡ bytes.now) × (spec.is_name bytes.now ≡ true)) }
        ensures err { IfErr result (λ e. e ≡
            if spec.is_name bytes.now then IdError.Memory else IdError.BadName) }
    {
        if !is_name(bytes) {
            return Err(IdError::BadName);
        }
        Ok(Name::from_checked(alloc, bytes)?)
    }

    /// The name with these bytes, which are known to be one: nothing of them is checked again.
    ///
    /// It fails where there is no memory to keep the name.
    pub fn from_checked(alloc: Global, bytes: &[u8]) -> Result<Name, AllocError>
        requires { spec.is_name bytes.now ≡ true }
        ensures { IfOk result (λ name. name ≡ bytes.now) }
    {
        // Printable bytes are ASCII, and so they are text.
        let text = unsafe { str::from_utf8_unchecked(bytes) };
        let text = String::from_str(alloc, text)?;
        Ok(Name { text })
    }

    /// The name's bytes.
    pub fn as_bytes(&self) -> &[u8]
        ensures bytes { result.now ≡ self.now }
        ensures name { spec.is_name result.now ≡ true }
    {
        self.text.as_bytes()
    }

    /// The name as text.
    pub fn as_str(&self) -> &str
        ensures text { result.now ≡ self.now }
        ensures name { spec.is_name result.now ≡ true }
    {
        self.text.as_str()
    }

    /// An equal name. Its one error is `Memory`.
    pub fn copy(&self) -> Result<Name, IdError>
        ensures ok { IfOk result (λ name. name ≡ self.now) }
        ensures memory { IfErr result (λ e. e ≡ IdError.Memory) }
    {
        Ok(self.clone()?)
    }
}

impl Clone for Name {
    ghost is_clone = { λ a b. a ≡ b };

    fn clone(&self) -> Result<Name, AllocError> {
        let text = self.text.clone()?;
        Ok(Name { text })
    }
}

impl PartialEq for Name {
    ghost eq = { pointwise nat_eq };

    ghost laws = { partial_equiv_from_equiv nat_list_eq_equiv };

    fn eq(&self, other: &Name) -> bool {
        self.as_str() == other.as_str()
    }
}

impl Eq for Name {
    ghost laws = { nat_list_eq_equiv };
}

/// The text itself.
impl fmt::Display for Name {
    ghost output = { λ name. Some name };

    fn fmt<W: fmt::Write>(&self, f: &mut fmt::Formatter<W>) -> fmt::Result {
        f.write_str(self.as_str())
    }
}
