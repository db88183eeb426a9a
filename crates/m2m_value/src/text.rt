//! Lists of bytes, of numbers and of texts, which clauses see as the lists themselves.
ghost use Rattle.std.specs.Prelude.{◌≡◌, ◌++◌, ◌+◌, ◌≤◌, [], IfOk, IfErr, IfSome, nat_eq, length, take};
ghost use Rattle.std.specs.Cmp.Rules.{comparing};
ghost use Rattle.std.specs.Cmp.Lexicographic.{pointwise};
ghost use Rattle.std.proofs.Common.{rules};

use std::alloc::{AllocError as OutOfMemory, Global};
use std::marker::Model;

/// A text: bytes, of which the type promises nothing more. Clauses see it as the list of them. One
/// that was copied from at most 30 bytes takes no memory of its own.
#[derive(Debug)]
pub struct Text {
    place: Place,
}

// Where its bytes are.
#[derive(Debug, Drop)]
enum Place {
    Inside(u8, [u8; Text::ROOM]),
    Outside(Vec<u8>),
}

impl Model for Text {
    ghost use Rattle.std.specs.Prelude.{List, ℕ};

    ghost Value = { List ℕ };

    ghost use Rattle.m2m_value.specs.Texts.{bytes_at, IsPlace};

    ghost view = { λ t. bytes_at t.place };

    ghost invariant = { λ t. IsPlace t.place };
}

// Written out, so that where a text goes out of scope is a call, and no case of where it stands.
impl Drop for Text {
    fn drop(self) {
        let Text { place } = self;
        drop(place);
    }
}

// Puts a part behind so many bytes, and says how many there are then.
fn put_behind(inside: &mut [u8; Text::ROOM], len: usize, part: &[u8]) -> usize
    requires { len + length part.now ≤ 30 }
    ensures bytes { take result inside.new ≡ take len inside.old ++ part.now }
    ensures len { result ≡ len + length part.now }
{
    let end = len + part.len();
    inside[len..end].copy_from_slice(part);
    end
}

impl Text {
    /// A text of at most so many bytes needs no memory of its own.
    pub const ROOM: usize = 30;

    /// Takes no memory.
    pub fn of(bytes: Vec<u8>) -> Text
        ensures { result ≡ bytes.items }
    {
        Text {
            place: Place::Outside(bytes),
        }
    }

    /// The text of no byte. Takes no memory.
    pub fn empty() -> Text
        ensures { result ≡ [] }
    {
        Text {
            place: Place::Inside(0, [0; Text::ROOM]),
        }
    }

    /// A text of these bytes.
    pub fn from_slice(alloc: Global, bytes: &[u8]) -> Result<Text, OutOfMemory>
        ensures { IfOk result (λ t. t ≡ bytes.now) }
    {
        let len = bytes.len();
        if len <= Text::ROOM {
            let mut inside = [0; Text::ROOM];
            inside[..len].copy_from_slice(bytes);
            return Ok(Text {
                place: Place::Inside(len as u8, inside),
            });
        }
        Ok(Text::of(Vec::from_slice(alloc, bytes)?))
    }

    /// A text of three parts, one behind another.
    pub fn from_parts(
        alloc: Global,
        first: &[u8],
        second: &[u8],
        third: &[u8],
    ) -> Result<Text, OutOfMemory>
        ensures { IfOk result (λ t. t ≡ first.now ++ second.now ++ third.now) }
    {
        let len = first
            .len()
            .saturating_add(second.len())
            .saturating_add(third.len());
        if len <= Text::ROOM {
            let mut inside = [0; Text::ROOM];
            let one = put_behind(&mut inside, 0, first);
            let two = put_behind(&mut inside, one, second);
            let three = put_behind(&mut inside, two, third);
            return Ok(Text {
                place: Place::Inside(three as u8, inside),
            });
        }
        let mut bytes = Vec::with_capacity(alloc, len)?;
        bytes.extend_from_slice(first)?;
        bytes.extend_from_slice(second)?;
        bytes.extend_from_slice(third)?;
        Ok(Text::of(bytes))
    }

    /// Its memory, emptied, where it has some of its own.
    pub fn into_room(self) -> Option<Vec<u8>>
        ensures { IfSome result (λ v. v.items ≡ []) }
    {
        let Text { place } = self;
        match place {
            Place::Inside(_, _) => None,
            Place::Outside(mut bytes) => {
                bytes.clear();
                Some(bytes)
            }
        }
    }

    /// Its bytes. Takes no memory: a text of at most `Text::ROOM` bytes may have none of its own, and
    /// comes back then.
    pub fn into_vec(self) -> Result<Vec<u8>, Text>
        ensures ok { IfOk result (λ v. v.items ≡ self) }
        ensures err { IfErr result (λ t. (t ≡ self) × (length self ≤ 30)) }
    {
        let Text { place } = self;
        match place {
            Place::Outside(bytes) => Ok(bytes),
            inside => Err(Text { place: inside }),
        }
    }

    /// Its bytes.
    pub fn entries(&self) -> &[u8]
        ensures { result.now ≡ self.now }
    {
        match &self.place {
            Place::Inside(len, bytes) => &bytes[..*len as usize],
            Place::Outside(bytes) => bytes,
        }
    }

    /// An equal text.
    pub fn copy(&self, alloc: Global) -> Result<Text, OutOfMemory>
        ensures { IfOk result (λ t. t ≡ self.now) }
    {
        match &self.place {
            Place::Inside(len, bytes) => Ok(Text {
                place: Place::Inside(*len, *bytes),
            }),
            Place::Outside(bytes) => Text::from_slice(alloc, bytes),
        }
    }
}

/// A list of numbers. Clauses see it as that list.
#[derive(Debug, Drop)]
pub struct Numbers {
    numbers: Vec<u64>,
}

impl Model for Numbers {
    ghost use Rattle.std.specs.Prelude.{List, ℕ};

    ghost Value = { List ℕ };

    ghost view = { λ n. n.numbers.items };
}

impl Numbers {
    /// Takes no memory.
    pub fn of(numbers: Vec<u64>) -> Numbers
        ensures { result ≡ numbers.items }
    {
        Numbers { numbers }
    }

    /// Its numbers; nothing is copied.
    pub fn into_vec(self) -> Vec<u64>
        ensures { result.items ≡ self }
    {
        self.numbers
    }

    /// Its numbers.
    pub fn entries(&self) -> &[u64]
        ensures { result.now ≡ self.now }
    {
        &self.numbers
    }
}

/// A list of texts, such as labels or the segments of an address. Clauses see it as the list of
/// their bytes.
#[derive(Debug, Drop)]
pub struct Labels {
    texts: Vec<Text>,
}

impl Model for Labels {
    ghost use Rattle.std.specs.Prelude.{List, ℕ};

    ghost Value = { List (List ℕ) };

    ghost view = { λ l. l.texts.items };
}

impl Labels {
    /// Takes no memory.
    pub fn of(texts: Vec<Text>) -> Labels
        ensures { result ≡ texts.items }
    {
        Labels { texts }
    }

    /// Its texts; nothing is copied.
    pub fn into_vec(self) -> Vec<Text>
        ensures { result.items ≡ self }
    {
        self.texts
    }

    /// Its texts.
    pub fn entries(&self) -> &[Text]
        ensures { result.now ≡ self.now }
    {
        &self.texts
    }

    /// An equal list.
    pub fn copy(&self, alloc: Global) -> Result<Labels, OutOfMemory>
        ensures { IfOk result (λ l. l ≡ self.now) }
    {
        let mut texts = Vec::with_capacity(alloc, self.texts.len())?;
        for text in &self.texts {
            texts.push(text.copy(alloc)?)?;
        }
        Ok(Labels::of(texts))
    }
}

impl PartialEq for Text {
    ghost eq = { pointwise nat_eq };

    ghost laws = { Prim.search (comparing, rules) };

    fn eq(&self, other: &Text) -> bool {
        self.entries() == other.entries()
    }
}

impl Eq for Text {
    ghost laws = { Prim.search (comparing, rules) };
}

impl PartialEq for Numbers {
    ghost eq = { pointwise nat_eq };

    ghost laws = { Prim.search (comparing, rules) };

    fn eq(&self, other: &Numbers) -> bool {
        self.numbers == other.numbers
    }
}

impl Eq for Numbers {
    ghost laws = { Prim.search (comparing, rules) };
}

impl PartialEq for Labels {
    ghost eq = { pointwise (pointwise nat_eq) };

    ghost laws = { Prim.search (comparing, rules) };

    fn eq(&self, other: &Labels) -> bool {
        self.texts == other.texts
    }
}

impl Eq for Labels {
    ghost laws = { Prim.search (comparing, rules) };
}
