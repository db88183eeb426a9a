//! Two streams as one connection.
ghost use Rattle.std.specs.Prelude.{◌≡◌, [], ◌∷◌, None};
ghost use Rattle.m2m_io.specs.Sides.{side_of};

use http_frames::Frame;
use http_target::BindFault;
use m2m_io::{Connection, Failed, Sink, Source};
use m2m_names::Rsc;
use primitive_json::Reply;
use service_observer::ReplyObserver;

/// A source and a sink that were lent, as one connection that is read and written.
#[derive(Drop)]
pub struct Wire<'a, S, O> {
    pub input: &'a mut S,
    pub out: &'a mut O,
}

impl<'a, S: Source, O: Sink> Wire<'a, S, O> {
    /// The connection of these two.
    pub fn new(input: &'a mut S, out: &'a mut O) -> Wire<'a, S, O>
        ensures input { result.input.ghost_name ≡ input.entry.ghost_name }
        ensures reads { result.input.now ≡ input.old }
        ensures out { result.out.ghost_name ≡ out.entry.ghost_name }
        ensures writes { result.out.now ≡ out.old }
    {
        Wire { input, out }
    }
}

impl<S: Source, O: Sink> Source for Wire<'_, S, O> {
    ghost left = { λ w. S.left w.input.now };

    ghost faults = { λ w. S.faults w.input.now };

    ghost kept_by_read = { λ w. side_of (O.written w.out.now) (O.faults w.out.now)
        (O.puts w.out.now) (w.input.ghost_name ∷ w.out.ghost_name ∷ []) };

    fn read(&mut self, buf: &mut [u8]) -> Result<usize, Failed> {
        self.input.read(buf)
    }
}

impl<S: Source, O: Sink> Sink for Wire<'_, S, O> {
    ghost written = { λ w. O.written w.out.now };

    ghost faults = { λ w. O.faults w.out.now };

    ghost puts = { λ w. O.puts w.out.now };

    ghost kept_by_put = { λ w. side_of (S.left w.input.now) (S.faults w.input.now) None
        (w.input.ghost_name ∷ w.out.ghost_name ∷ []) };

    fn put(&mut self, bytes: &[u8]) -> Result<(), Failed> {
        self.out.put(bytes)
    }
}

impl<S: Source, O: Sink> Connection for Wire<'_, S, O> {
    ghost use Rattle.std.specs.Prelude.{refl};

    ghost keeps_sides = { record { read = λ w. refl; put = λ w. refl } };
}

impl<S: Source, O: Sink> ReplyObserver for Wire<'_, S, O> {
    fn replied(&self, _: &Frame, _: Option<&BindFault>, _: &Reply, _: &[u8]) {}

    fn refused(&self, _: &Reply, _: &[u8]) {}

    fn answered(&self, _: &[u8], _: Rsc) {}
}
