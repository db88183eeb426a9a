//! Room that frames gave back, for the texts and lines of the next ones.
ghost use Rattle.std.specs.Prelude.{◌≡◌, ◌≤◌, [], All, IfOk, length, vec_capacity};
ghost use Rattle.http_frames.specs.Frame.{lines_limit};
ghost use Rattle.http_frames.specs.Rooms.{buffer_limit, buffers_limit};

use crate::look::LINES_LIMIT;
use crate::{Frame, Start};
use m2m_value::Text;
use std::alloc::{AllocError, Global};
use std::mem::replace;

/// A buffer that is kept has room for at most so many bytes.
const MOST_ROOM: usize = 256;

/// At most so many buffers are kept: those of the lines, a method, a target and a body.
const MOST_BUFFERS: usize = 2 * LINES_LIMIT + 3;

/// A buffer that is made new has room for so many bytes at least.
const LEAST_ROOM: usize = 32;

/// Empty buffers that frames gave back: few and small ones, so that what is kept stays little.
#[derive(Debug, Drop)]
pub(crate) struct Rooms {
    buffers: Vec<Vec<u8>>,
    lines: Vec<(Text, Text)>,
    ghost few: { length buffers.items ≤ buffers_limit },
    ghost small: { All (λ b. (b.items ≡ []) × (vec_capacity b ≤ buffer_limit)) buffers.items },
    ghost none: { lines.items ≡ [] },
    ghost little: { vec_capacity lines ≤ lines_limit },
}

impl Rooms {
    /// None so far.
    pub(crate) fn new(alloc: Global) -> Rooms {
        Rooms {
            buffers: Vec::new(alloc),
            lines: Vec::new(alloc),
        }
    }

    /// An empty buffer: one that is kept, or a new one with room for so many bytes.
    fn buffer(&mut self, alloc: Global, len: usize) -> Result<Vec<u8>, AllocError>
        ensures { IfOk result (λ buffer. buffer.items ≡ []) }
    {
        match self.buffers.pop() {
            Some(buffer) => Ok(buffer),
            None => Vec::with_capacity(alloc, len.max(LEAST_ROOM)),
        }
    }

    /// A text of these bytes. That of a few needs no buffer.
    pub(crate) fn text(&mut self, alloc: Global, bytes: &[u8]) -> Result<Text, AllocError>
        ensures { IfOk result (λ text. text ≡ bytes.now) }
    {
        if bytes.len() <= Text::ROOM {
            return Text::from_slice(alloc, bytes);
        }
        let mut buffer = self.buffer(alloc, bytes.len())?;
        buffer.extend_from_slice(bytes)?;
        Ok(Text::of(buffer))
    }

    /// No lines, with room for so many.
    pub(crate) fn lines(
        &mut self,
        alloc: Global,
        count: usize,
    ) -> Result<Vec<(Text, Text)>, AllocError>
        ensures { IfOk result (λ lines. lines.items ≡ []) }
    {
        let mut lines = replace(&mut self.lines, Vec::new(alloc));
        lines.reserve(count)?;
        Ok(lines)
    }

    /// Keeps the room of a text that is done with, if there is some and it is little.
    fn keep(&mut self, text: Text) {
        let Some(buffer) = text.into_room() else {
            return;
        };
        if 0 < buffer.capacity()
            && buffer.capacity() <= MOST_ROOM
            && self.buffers.len() < MOST_BUFFERS
        {
            let _ = self.buffers.push(buffer);
        }
    }

    /// Keeps the room of lines that are done with. The last ones are kept first, so that the next
    /// frame has its buffers in the order in which this one had them.
    fn keep_lines(&mut self, mut lines: Vec<(Text, Text)>) {
        while let Some((name, value)) = lines.pop() {
            self.keep(value);
            self.keep(name);
        }
        if lines.capacity() <= LINES_LIMIT {
            self.lines = lines;
        }
    }

    /// Keeps the room of a frame that is done with.
    pub(crate) fn keep_frame(&mut self, frame: Frame) {
        let Frame { start, lines, body } = frame;
        self.keep(body);
        self.keep_lines(lines.into_vec());
        if let Start::Ask { method, target, .. } = start {
            self.keep(target);
            self.keep(method);
        }
    }
}
