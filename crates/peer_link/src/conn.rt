//! The connection by which the bytes of a request are served.
ghost use Rattle.std.specs.Prelude.{◌≡◌, [], Some};
ghost use Rattle.m2m_io.specs.Counts.{no_calls, told_calls};
ghost use Rattle.m2m_io.specs.Sides.{side_of};

use http_frames::Frame;
use http_target::BindFault;
use m2m_io::{Connection, Failed, MemSink, MemSource, Sink, Source};
use m2m_names::Rsc;
use primitive_json::Reply;
use service_observer::ReplyObserver;
use std::alloc::Global;

/// A connection in memory that is read from a source and written to a sink.
#[derive(Drop)]
pub(crate) struct MemPair {
    pub(crate) input: MemSource,
    pub(crate) out: MemSink,
}

impl MemPair {
    /// A connection with these bytes to be read, to which nothing was written.
    pub(crate) fn new(alloc: Global, bytes: Vec<u8>) -> MemPair
        ensures left { result.input.left ≡ bytes.items }
        ensures written { result.out.written ≡ [] }
        ensures calls { result.out.calls ≡ no_calls [] }
    {
        MemPair {
            input: MemSource::new(bytes, Vec::new(alloc), Vec::new(alloc)),
            out: MemSink::new(Vec::new(alloc), Vec::new(alloc)),
        }
    }
}

impl Source for MemPair {
    ghost left = { λ c. Some c.input.left };

    ghost faults = { λ c. c.input.calls.faults };

    ghost kept_by_read = { λ c. side_of (Some c.out.written) c.out.calls.faults
        (told_calls c.out.calls) [] };

    fn read(&mut self, buf: &mut [u8]) -> Result<usize, Failed> {
        self.input.read(buf)
    }
}

impl Sink for MemPair {
    ghost use Rattle.std.specs.Prelude.{None};

    ghost written = { λ c. Some c.out.written };

    ghost faults = { λ c. c.out.calls.faults };

    ghost puts = { λ c. told_calls c.out.calls };

    ghost kept_by_put = { λ c. side_of (Some c.input.left) c.input.calls.faults None [] };

    fn put(&mut self, bytes: &[u8]) -> Result<(), Failed> {
        self.out.put(bytes)
    }
}

impl Connection for MemPair {
    ghost use Rattle.std.specs.Prelude.{refl};

    ghost keeps_sides = { record { read = λ c. refl; put = λ c. refl } };
}

impl ReplyObserver for MemPair {
    fn replied(&self, _: &Frame, _: Option<&BindFault>, _: &Reply, _: &[u8]) {}

    fn refused(&self, _: &Reply, _: &[u8]) {}

    fn answered(&self, _: &[u8], _: Rsc) {}
}
