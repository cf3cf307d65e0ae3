//! Byte strings by what they are.

ghost use Rattle.std.specs.Prelude.{◌≡◌};
ghost use Rattle.std.specs.Int.{is_in_range};
ghost use Rattle.sql_base.specs.Rows.{is_printable};

use std::marker::Model;

/// The name of a table or column: a letter, then letters, digits and `_`.
#[derive(Clone, Debug, Drop)]
pub struct Name {
    bytes: Vec<u8>,
}

impl Model for Name {
    ghost use Rattle.std.specs.Prelude.{List, ℕ};

    ghost Value = { List ℕ };

    ghost view = { λ it. it.bytes.items };
}

impl Name {
    pub fn from_vec(bytes: Vec<u8>) -> Name
        ensures { result ≡ bytes.items }
    {
        Name { bytes }
    }

    pub fn bytes(&self) -> &[u8]
        ensures { result.now ≡ self.now }
    {
        self.bytes.as_slice()
    }
}

/// A text value. In a row it has just the length of its column, each byte in 32..126.
#[derive(Clone, Debug, Drop)]
pub struct Text {
    bytes: Vec<u8>,
}

impl Model for Text {
    ghost use Rattle.std.specs.Prelude.{List, ℕ};

    ghost Value = { List ℕ };

    ghost view = { λ it. it.bytes.items };
}

impl Text {
    pub fn from_vec(bytes: Vec<u8>) -> Text
        ensures { result ≡ bytes.items }
    {
        Text { bytes }
    }

    pub fn bytes(&self) -> &[u8]
        ensures { result.now ≡ self.now }
    {
        self.bytes.as_slice()
    }
}

/// A key: the encoded key columns of a row, in byte order the order of the values.
#[derive(Clone, Debug, Drop)]
pub struct Key {
    bytes: Vec<u8>,
}

impl Model for Key {
    ghost use Rattle.std.specs.Prelude.{List, ℕ};

    ghost Value = { List ℕ };

    ghost view = { λ it. it.bytes.items };
}

impl Key {
    pub fn from_vec(bytes: Vec<u8>) -> Key
        ensures { result ≡ bytes.items }
    {
        Key { bytes }
    }

    pub fn bytes(&self) -> &[u8]
        ensures { result.now ≡ self.now }
    {
        self.bytes.as_slice()
    }
}

/// A granule of locks: the leading bytes of keys. The empty one is the whole file, a whole key one record.
#[derive(Clone, Debug, Drop)]
pub struct Prefix {
    bytes: Vec<u8>,
}

impl Model for Prefix {
    ghost use Rattle.std.specs.Prelude.{List, ℕ};

    ghost Value = { List ℕ };

    ghost view = { λ it. it.bytes.items };
}

impl Prefix {
    pub fn from_vec(bytes: Vec<u8>) -> Prefix
        ensures { result ≡ bytes.items }
    {
        Prefix { bytes }
    }

    pub fn bytes(&self) -> &[u8]
        ensures { result.now ≡ self.now }
    {
        self.bytes.as_slice()
    }
}

/// The columns of a row, one after the other: an INT as 8 bytes big-endian, a text as its bytes.
#[derive(Clone, Debug, Drop)]
pub struct Packed {
    bytes: Vec<u8>,
}

impl Model for Packed {
    ghost use Rattle.std.specs.Prelude.{List, ℕ};

    ghost Value = { List ℕ };

    ghost view = { λ it. it.bytes.items };
}

impl Packed {
    pub fn from_vec(bytes: Vec<u8>) -> Packed
        ensures { result ≡ bytes.items }
    {
        Packed { bytes }
    }

    pub fn bytes(&self) -> &[u8]
        ensures { result.now ≡ self.now }
    {
        self.bytes.as_slice()
    }
}

/// The bytes of a compiled expression or SET list.
#[derive(Clone, Debug, Drop)]
pub struct Code {
    bytes: Vec<u8>,
}

impl Model for Code {
    ghost use Rattle.std.specs.Prelude.{List, ℕ};

    ghost Value = { List ℕ };

    ghost view = { λ it. it.bytes.items };
}

impl Code {
    pub fn from_vec(bytes: Vec<u8>) -> Code
        ensures { result ≡ bytes.items }
    {
        Code { bytes }
    }

    pub fn bytes(&self) -> &[u8]
        ensures { result.now ≡ self.now }
    {
        self.bytes.as_slice()
    }
}

/// Whether each byte is in 32..126.
pub fn is_printable(bytes: &[u8]) -> bool
    ensures { result ≡ is_printable bytes.now }
{
    bytes.iter().all(|byte| is_text_byte(*byte))
}

fn is_text_byte(byte: u8) -> bool
    ensures { result ≡ is_in_range 32 126 byte }
{
    matches!(byte, 32..=126)
}
