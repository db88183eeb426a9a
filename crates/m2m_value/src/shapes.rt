//! What values are: counts and labels.
ghost use Rattle.std.specs.Prelude.{◌≡◌, ◌<◌, IfSome};
ghost use Rattle.m2m_names.specs.Ids.{count_bound};
ghost use Rattle.m2m_value.specs.Shapes as spec;

use crate::value::Val;
use m2m_names::is_filled;

/// The most bytes that a label has.
const LABEL_LIMIT: usize = 256;

/// The count of a whole number from 0 on.
pub fn count_of(n: i64) -> Option<u64>
    ensures value { result ≡ spec.count_of n }
    ensures bound { IfSome result (λ n. n < count_bound) }
{
    if n < 0 { None } else { Some(n as u64) }
}

/// Whether the text is that of a label: 1 to 256 bytes.
pub fn is_label_text(text: &[u8]) -> bool
    ensures { result ≡ spec.is_label_text text.now }
{
    is_filled(text, LABEL_LIMIT)
}

impl Val {
    /// The value as a count: a whole number from 0 on.
    pub fn as_count(&self) -> Option<u64>
        ensures value { result ≡ spec.as_count self.now }
        ensures bound { IfSome result (λ n. n < count_bound) }
    {
        count_of(self.as_num()?)
    }

    /// Whether it is a label: a text of 1 to 256 bytes.
    pub fn is_label(&self) -> bool
        ensures { result ≡ spec.is_label self.now }
    {
        match self.as_text() {
            Some(text) => is_label_text(text.entries()),
            None => false,
        }
    }
}
