ghost use Rattle.std.specs.Prelude.{◌≡◌, [], ◌∷◌, ◌++◌, ◌<◌, ◌≤◌, ◌↔◌, length, IsTrue, IfOk, OnOk, OnErr, All};

use std::alloc::{AllocError, Global};
use std::marker::Model;

/// How many bytes of a byte string are kept inline at most.
const SHORT: usize = 30;

/// A growing list of bytes. Contracts see it as that list.
///
/// A copy of up to 30 bytes, as ids have, is kept inline and allocates nothing.
#[derive(Debug, Drop)]
pub struct Octets {
    held: Held,
}

/// Where the bytes are kept.
#[derive(Debug, Drop)]
enum Held {
    Short {
        alloc: Global,
        len: u8,
        bytes: [u8; SHORT],
    },
    Long(Vec<u8>),
}

impl Model for Octets {
    ghost use Rattle.std.specs.Prelude.{List, ℕ};

    ghost Value = { List ℕ };

    ghost use Rattle.lists.specs.Held.{bytes_in, HasBytes};

    ghost view = { λ a. bytes_in a.held };

    ghost invariant = { λ a. HasBytes a.held };
}

impl Octets {
    /// An empty byte string.
    #[inline]
    pub fn new(alloc: Global) -> Octets
        ensures { result ≡ [] }
    {
        Octets {
            held: Held::Short {
                alloc,
                len: 0,
                bytes: [0; SHORT],
            },
        }
    }

    /// A copy of the part.
    #[inline]
    pub fn from_slice(alloc: Global, part: &[u8]) -> Result<Octets, AllocError>
        ensures { IfOk result (λ octets. octets ≡ part.now) }
    {
        if part.len() <= SHORT {
            Ok(Octets::short(alloc, part))
        } else {
            let held = Held::Long(Vec::from_slice(alloc, part)?);
            Ok(Octets { held })
        }
    }

    #[inline]
    fn short(alloc: Global, part: &[u8]) -> Octets
        requires { length part.now ≤ 30 }
        ensures { result ≡ part.now }
    {
        let mut bytes = [0; SHORT];
        bytes[..part.len()].copy_from_slice(part);
        let len = part.len() as u8;
        let held = Held::Short { alloc, len, bytes };
        Octets { held }
    }

    /// How many bytes there are.
    #[inline]
    pub fn len(&self) -> usize
        ensures { result ≡ length self.now }
    {
        self.as_slice().len()
    }

    /// Whether there is none.
    #[inline]
    pub fn is_empty(&self) -> bool
        ensures { IsTrue result ↔ (self.now ≡ []) }
    {
        self.as_slice().is_empty()
    }

    /// All of it, borrowed.
    #[inline]
    pub fn as_slice(&self) -> &[u8]
        ensures value { result.now ≡ self.now }
        ensures bytes { All (λ byte. byte < 256) self.now }
    {
        // The variable shows the proof that each byte fits its type.
        let bytes = self.held();
        bytes
    }

    fn held(&self) -> &[u8]
        ensures { result.now ≡ self.now }
    {
        match &self.held {
            Held::Short { len, bytes, .. } => &bytes[..usize::from(*len)],
            Held::Long(bytes) => bytes.as_slice(),
        }
    }

    /// Appends the byte. Out of memory, the bytes are as before.
    #[inline]
    pub fn push(&mut self, byte: u8) -> Result<(), AllocError>
        ensures ok { OnOk result (self.new ≡ self.old ++ byte ∷ []) }
        ensures err { OnErr result (self.new ≡ self.old) }
    {
        match &mut self.held {
            Held::Long(bytes) => {
                bytes.push(byte)?;
                Ok(())
            }
            Held::Short { alloc, .. } => {
                let mut bytes = Vec::from_slice(*alloc, self.as_slice())?;
                bytes.push(byte)?;
                self.held = Held::Long(bytes);
                Ok(())
            }
        }
    }
}
