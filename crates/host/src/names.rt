ghost use Rattle.std.specs.Prelude.{◌≡◌, ℕ, ◌≤◌, true, List, length, ◌==◌, MatchOption, Decides};
ghost use Rattle.std.specs.List.{AllByRecursion, position};
ghost use Rattle.host.specs.Names.{letter_or_digit, NameForm, IsName, packed, bytes_of, up_to_zero, name_bytes, same_name};

use std::marker::Model;

/// Whether a byte is an ASCII letter or digit.
pub fn is_letter_or_digit(b: u8) -> bool
    ensures { result ≡ letter_or_digit b }
{
    b.is_ascii_alphanumeric()
}

fn all_plain(bytes: &[u8]) -> bool
    ensures { Decides result (AllByRecursion (λ b. letter_or_digit b ≡ true) bytes.now) }
{
    bytes.iter().all(|b| is_letter_or_digit(*b))
}

/// The 64 bits of a name, where the bytes may stand as one.
pub fn pack_name(bytes: &[u8]) -> Option<u64>
    ensures { MatchOption result (NameForm bytes.now → ⊥) (λ n. NameForm bytes.now × (n ≡ packed bytes.now)) }
{
    if bytes.is_empty() || bytes.len() > 8 || !all_plain(bytes) {
        return None;
    }
    let mut eight = [0; 8];
    eight[..bytes.len()].copy_from_slice(bytes);
    Some(u64::from_be_bytes(eight))
}

fn first_zero(bytes: &[u8]) -> Option<usize>
    ensures { result ≡ position (λ b. b == 0) bytes.now }
{
    bytes.iter().position(|b| *b == 0)
}

/// How 64 bits are written as a name: the bytes up to the first zero byte of eight.
#[derive(Clone, Copy, PartialEq, Eq, PartialOrd, Ord, Hash, Debug)]
pub struct NameBytes {
    eight: [u8; 8],
}

impl Model for NameBytes {
    ghost Value = { List ℕ };

    ghost view = { λ n. n.eight };

    ghost inverse = { λ bs. record { eight = bs } };
}

impl NameBytes {
    /// All eight bytes, those behind the name too.
    pub fn eight(self) -> [u8; 8]
        ensures { result ≡ self }
    {
        self.eight
    }

    /// The bytes of the name.
    pub fn as_slice(&self) -> &[u8]
        ensures bytes { result.now ≡ up_to_zero self.now }
        ensures few { length result.now ≤ 8 }
    {
        match first_zero(&self.eight) {
            Some(len) => &self.eight[..len],
            None => &self.eight,
        }
    }
}

/// How 64 bits are written as a name.
pub fn unpack_name(name: u64) -> NameBytes
    ensures all { result ≡ bytes_of name }
    ensures few { length result ≡ 8 }
    ensures part { up_to_zero result ≡ name_bytes name }
{
    NameBytes {
        eight: name.to_be_bytes(),
    }
}

/// Whether 64 bits hold a name.
// Stays: a match and no `== Some(name)`, since a wrong comparison is then refused for what it answers, not for the form of the proof.
pub fn is_name(name: u64) -> bool
    ensures { Decides result (IsName name) }
{
    match pack_name(unpack_name(name).as_slice()) {
        Some(packed) => packed == name,
        None => false,
    }
}

/// Whether two names are one name.
// Stays: `==` under a name of its own, so that of two names nothing but its three laws is used.
pub fn same_name(a: u64, b: u64) -> bool
    ensures { result ≡ same_name a b }
{
    a == b
}
