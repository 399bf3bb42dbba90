ghost use Rattle.std.specs.Prelude.{◌≡◌, [], ◌++◌, ◌≤◌, ◌↔◌, length, take, IsTrue, IfOk, OnOk, OnErr, IsUtf8, encode_utf8};
ghost use Rattle.std.specs.Option.{SomeIff};

use crate::utf8::as_utf8;
use std::alloc::{AllocError, Global};
use std::marker::Model;

/// How many bytes of a text are kept inline at most.
const SHORT: usize = 30;

/// A growing text. Contracts see it as its bytes, which are UTF-8.
///
/// A copy of up to 30 bytes is kept inline and allocates nothing.
#[derive(Debug, Drop)]
pub struct Text {
    letters: Letters,
}

/// Where the bytes of a text are kept.
#[derive(Debug, Drop)]
enum Letters {
    Short(Short),
    Long(String),
}

/// The first `len` of some bytes.
#[derive(Debug, Drop)]
struct Short {
    alloc: Global,
    len: u8,
    bytes: [u8; SHORT],
}

impl Short {
    #[inline(always)]
    fn new(alloc: Global) -> Short
        ensures { result.len ≡ 0 }
    {
        Short {
            alloc,
            len: 0,
            bytes: [0; SHORT],
        }
    }

    /// Makes them a copy of the part.
    #[inline(always)]
    fn set(&mut self, part: &str)
        requires { length part.now ≤ 30 }
        ensures bytes { take self.new.len self.new.bytes ≡ part.now }
        ensures len { self.new.len ≤ 30 }
    {
        let part = part.as_bytes();
        self.bytes[..part.len()].copy_from_slice(part);
        self.len = part.len() as u8;
    }
}

impl Model for Text {
    ghost use Rattle.std.specs.Prelude.{List, ℕ};

    ghost Value = { List ℕ };

    ghost use Rattle.lists.specs.Held.{letters_in, HasLetters};

    ghost view = { λ a. letters_in a.letters };

    ghost invariant = { λ a. HasLetters a.letters };
}

impl Text {
    /// An empty text.
    #[inline]
    pub fn new(alloc: Global) -> Text
        ensures { result ≡ [] }
    {
        Text {
            letters: Letters::Short(Short::new(alloc)),
        }
    }

    /// A copy of the part, or `None` exactly where it isn't UTF-8 (RFC 3629).
    #[inline]
    pub fn from_utf8(alloc: Global, part: &[u8]) -> Result<Option<Text>, AllocError>
        ensures { IfOk result (λ text. SomeIff text (IsUtf8 part.now) part.now) }
    {
        match as_utf8(part) {
            Some(part) => Ok(Some(Text::from_str(alloc, part)?)),
            None => Ok(None),
        }
    }

    /// A copy of the part.
    #[inline]
    pub fn from_str(alloc: Global, part: &str) -> Result<Text, AllocError>
        ensures { IfOk result (λ text. text ≡ part.now) }
    {
        if part.len() <= SHORT {
            Ok(Text::short(alloc, part))
        } else {
            let letters = Letters::Long(String::from_str(alloc, part)?);
            Ok(Text { letters })
        }
    }

    /// Makes the text a copy of the part, inline where that is short. Out of memory, the text is as before.
    #[inline(always)]
    pub fn set(&mut self, alloc: Global, part: &str) -> Result<(), AllocError>
        ensures ok { OnOk result (self.new ≡ part.now) }
        ensures err { OnErr result (self.new ≡ self.old) }
    {
        if part.len() <= SHORT {
            if let Letters::Short(short) = &mut self.letters {
                short.set(part);
                return Ok(());
            }
        }
        *self = Text::from_str(alloc, part)?;
        Ok(())
    }

    /// The same for a part that is known to be UTF-8.
    #[inline(always)]
    pub fn set_slice(&mut self, alloc: Global, part: &[u8]) -> Result<(), AllocError>
        requires { IsUtf8 part.now }
        ensures ok { OnOk result (self.new ≡ part.now) }
        ensures err { OnErr result (self.new ≡ self.old) }
    {
        // SAFETY: the part is UTF-8, which the contract requires.
        self.set(alloc, unsafe { str::from_utf8_unchecked(part) })
    }

    #[inline]
    fn short(alloc: Global, part: &str) -> Text
        requires { length part.now ≤ 30 }
        ensures { result ≡ part.now }
    {
        let mut short = Short::new(alloc);
        short.set(part);
        let letters = Letters::Short(short);
        Text { letters }
    }

    /// How many bytes the text has.
    #[inline]
    pub fn len(&self) -> usize
        ensures { result ≡ length self.now }
    {
        self.as_slice().len()
    }

    /// Whether it has no bytes.
    #[inline]
    pub fn is_empty(&self) -> bool
        ensures { IsTrue result ↔ (self.now ≡ []) }
    {
        self.as_slice().is_empty()
    }

    /// The bytes of the text.
    #[inline]
    pub fn as_slice(&self) -> &[u8]
        ensures value { result.now ≡ self.now }
        ensures utf8 { IsUtf8 self.now }
    {
        match &self.letters {
            Letters::Short(short) => &short.bytes[..usize::from(short.len)],
            Letters::Long(text) => text.as_str().as_bytes(),
        }
    }

    /// All of it, borrowed.
    pub fn as_str(&self) -> &str
        ensures { result.now ≡ self.now }
    {
        if let Letters::Long(text) = &self.letters {
            return text.as_str();
        }
        // SAFETY: the bytes of a text are UTF-8.
        unsafe { str::from_utf8_unchecked(self.as_slice()) }
    }

    /// Appends the UTF-8 bytes of the letter. Out of memory, the text is as before.
    #[inline]
    pub fn push(&mut self, letter: char) -> Result<(), AllocError>
        ensures ok { OnOk result (self.new ≡ self.old ++ encode_utf8 letter) }
        ensures err { OnErr result (self.new ≡ self.old) }
    {
        match &mut self.letters {
            Letters::Long(text) => text.push(letter),
            Letters::Short(short) => {
                let mut text = String::from_str(short.alloc, self.as_str())?;
                text.push(letter)?;
                self.letters = Letters::Long(text);
                Ok(())
            }
        }
    }
}
