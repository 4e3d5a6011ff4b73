//! Names of sections.
ghost use Rattle.std.specs.Prelude.{◌≡◌, ◌&&◌, IsTrue, IfOk, length, nat_lt};
ghost use Rattle.std.specs.List.{list_all};
ghost use Rattle.plain_text.specs.Numbers.{is_name, may_follow};

use std::alloc::{AllocError, Global};
use std::marker::Model;

/// A name: a letter, then letters, digits and `_`, 1 to 32 bytes. All letters are ASCII.
#[derive(Debug, Drop)]
pub struct Name {
    bytes: Vec<u8>,
}

impl Model for Name {
    ghost use Rattle.std.specs.Prelude.{List, ℕ, IsTrue};
    ghost use Rattle.plain_text.specs.Numbers.{is_name};

    ghost Value = { List ℕ };

    ghost view = { λ n. n.bytes.items };

    ghost invariant = { λ n. IsTrue (is_name n.bytes.items) };
}

impl Name {
    /// Keeps a copy of these bytes.
    pub fn of(alloc: Global, bytes: &[u8]) -> Result<Name, AllocError>
        requires { IsTrue (is_name bytes.now) }
        ensures { IfOk result (λ name. name ≡ bytes.now) }
    {
        let bytes = Vec::from_slice(alloc, bytes)?;
        Ok(Name { bytes })
    }

    /// The name that these bytes are. Nothing is copied.
    pub fn of_vec(bytes: Vec<u8>) -> Name
        requires { IsTrue (is_name bytes.items) }
        ensures { result ≡ bytes.items }
    {
        Name { bytes }
    }

    /// The bytes themselves.
    pub fn bytes(&self) -> &[u8]
        ensures value { result.now ≡ self.now }
        ensures form { IsTrue (is_name self.now) }
    {
        &self.bytes
    }
}

fn may_follow(b: u8) -> bool
    ensures { result ≡ may_follow b }
{
    b.is_ascii_alphanumeric() || b == b'_'
}

fn all_may_follow(bytes: &[u8]) -> bool
    ensures { result ≡ list_all may_follow bytes.now }
{
    bytes.iter().all(|b| may_follow(*b))
}

// Whether these bytes may follow the first of a name.
fn is_name_tail(bytes: &[u8]) -> bool
    ensures { result ≡ (list_all may_follow bytes.now && nat_lt (length bytes.now) 32) }
{
    all_may_follow(bytes) && bytes.len() < 32
}

/// Whether bytes are a name.
pub fn is_name(bytes: &[u8]) -> bool
    ensures { result ≡ is_name bytes.now }
{
    match bytes.split_first() {
        None => false,
        Some((first, rest)) => first.is_ascii_alphabetic() && is_name_tail(rest),
    }
}
