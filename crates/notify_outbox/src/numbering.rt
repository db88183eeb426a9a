//! Notes under the numbers of their items.
ghost use Rattle.std.specs.Prelude.{◌≡◌, IsUtf8};
ghost use Rattle.notify_outbox.specs.Items as spec;

use m2m_value::Text;
use primitive_json::{Dest, Note, NoteParts, Request};

/// The note with this request identifier.
pub(crate) fn under_id(note: Note, id: Text) -> Note
    requires { IsUtf8 id }
    ensures { result ≡ spec.under_id id note }
{
    let NoteParts {
        kind,
        dest,
        request,
    } = note.into_parts();
    let mut parts = request.into_parts();
    parts.rqi = id;
    Note::of(NoteParts {
        kind,
        dest,
        request: Request::of(parts),
    })
}

// The channel into which a destination leads, where it leads into one.
fn polled_channel(dest: &Dest) -> Option<u64>
    ensures { result ≡ spec.polled_channel dest.now }
{
    match dest {
        Dest::Channel(number) => Some(*number),
        Dest::Direct(_) | Dest::Peer(_) | Dest::Nowhere => None,
    }
}

/// The channel into which a note leads, where it leads into one.
pub(crate) fn note_channel(note: &Note) -> Option<u64>
    ensures { result ≡ spec.polled_channel note.now.dest }
{
    polled_channel(&note.parts().dest)
}
