//! A connection as a stream of std.
ghost use Rattle.std.specs.Prelude.{◌≡◌};

use m2m_io::{Failed, Sink, Source};
use std::io;
use std::io::{ErrorKind, Read, Write};

/// A connection as a stream that is read and written. Its errors are all of the kind `Other`, so
/// that nothing waits or tries again: a connection that failed has failed. A write is one put.
#[derive(Drop)]
pub(crate) struct ConnStream<'a, X> {
    conn: &'a mut X,
    is_ended: bool,
}

/// The error of a stream whose connection failed.
fn failing() -> io::Error {
    io::Error::from(ErrorKind::Other)
}

impl<'a, X> ConnStream<'a, X> {
    pub(crate) fn new(conn: &'a mut X) -> Self {
        ConnStream {
            conn,
            is_ended: false,
        }
    }

    /// Gives the connection back to who lent it.
    pub(crate) fn leave(self) {
        let ConnStream {
            conn: _,
            is_ended: _,
        } = self;
    }

    /// The connection.
    pub(crate) fn conn(&self) -> &X {
        self.conn
    }

    /// Whether a read has met the end.
    pub(crate) fn is_ended(&self) -> bool {
        self.is_ended
    }
}

impl<X: Source> Read for ConnStream<'_, X> {
    ghost remaining = { λ s. X.left s.conn.now };

    // A read into no room takes nothing, and isn't asked of the connection.
    fn read(&mut self, buf: &mut [u8]) -> io::Result<usize> {
        if buf.is_empty() {
            return Ok(0);
        }
        match self.conn.read(buf) {
            Ok(n) => {
                if n == 0 {
                    self.is_ended = true;
                }
                Ok(n)
            }
            Err(Failed) => Err(failing()),
        }
    }
}

impl<X: Sink> Write for ConnStream<'_, X> {
    fn write(&mut self, buf: &[u8]) -> io::Result<usize> {
        match self.conn.put(buf) {
            Ok(()) => Ok(buf.len()),
            Err(Failed) => Err(failing()),
        }
    }

    fn flush(&mut self) -> io::Result<()> {
        Ok(())
    }
}
