//! Two CSEs that are prepared by lines of JSON, compared for one originator, and asked the same.
//!
//! Callers hand in a home, a source of lines and a sink. `twin` opens two entities with that home,
//! prepares each by its lines, and brings both to one moment. It writes whether the originator has
//! the same sight of both, and then what each request of that originator gives in both. What a line
//! is depends on where it stands (`specs/Forms`); what it does, and what is written for it, is the
//! relation `TakesLine` (`specs/Sides`); the text of an outcome stands in `specs/Texts`; and what
//! is written in all, and why it ended, in `specs/Twins`.
//!
//! ```text
//! let home = Home::with_defaults(alloc)?;
//! let status = twin(alloc, home, input, out);
//! Ok(status) // Status::Done, or why it stopped
//! ```
#![tactic(auto)]

mod comparing;
mod lines;
mod sides;
mod texts;

pub use comparing::twin;
pub use lines::{Part, TwinLine};
pub use sides::Sides;
