//! What a case is.
use std::alloc::{AllocError, Global};

/// How a stream is cut into reads.
#[derive(Drop)]
pub enum Cuts {
    /// Read k gives at most the k-th number of bytes, and a later one as many as fit.
    List(Vec<usize>),
    /// Each read gives at most so many bytes.
    Every(usize),
    /// One form of the case for each place inside the stream, which is cut in two there.
    Each,
    /// Each block is given by a read of its own, once the blocks before it were answered.
    Turns,
}

/// A stream that is read and one that is written.
#[derive(Drop)]
pub struct Streams {
    pub input: Vec<u8>,
    /// How long the blocks of the input are.
    pub blocks: Vec<usize>,
    pub cuts: Cuts,
    pub read_fails: Vec<u64>,
    pub put_fails: Vec<u64>,
    /// What must be written.
    pub out: Vec<u8>,
    /// How often a connection of the door stands.
    pub times: usize,
}

impl Streams {
    /// Streams of one connection of which nothing is said yet: nothing is read, and nothing must be
    /// written.
    pub fn new(alloc: Global) -> Streams {
        Streams {
            input: Vec::new(alloc),
            blocks: Vec::new(alloc),
            cuts: Cuts::List(Vec::new(alloc)),
            read_fails: Vec::new(alloc),
            put_fails: Vec::new(alloc),
            out: Vec::new(alloc),
            times: 1,
        }
    }
}

/// The words of a command line, and what the clock tells.
#[derive(Drop)]
pub struct Setting {
    pub words: Option<Vec<String>>,
    pub clock: Option<Vec<u64>>,
}

impl Setting {
    /// Neither is said yet.
    pub fn new() -> Setting {
        Setting {
            words: None,
            clock: None,
        }
    }
}

/// A case: what goes into a run, and what must come of it.
#[derive(Drop)]
pub struct Case {
    pub title: String,
    /// The number of the line of its title, from 1.
    pub line: usize,
    pub setting: Setting,
    pub streams: Streams,
    /// The text whose proper prefixes stand behind the input.
    pub tail: Vec<u8>,
    pub err_fails: Vec<u64>,
    pub answers: Vec<Vec<u8>>,
    pub link_fails: Vec<u64>,
    pub conns: Vec<Streams>,
    pub door_fails: Vec<u64>,
    /// What must be written to standard error.
    pub err: Vec<u8>,
    pub status: Option<u64>,
    pub left: Option<u64>,
    /// The exchanges that must be made over the link, as `push_exchange` writes them.
    pub asked: Vec<u8>,
    /// How many connections of the door must get just what they must.
    pub served: Option<u64>,
}

impl Case {
    /// A case of this title, which stands on that line, of which nothing else is said yet.
    pub fn new(alloc: Global, title: &str, line: usize) -> Result<Case, AllocError> {
        Ok(Case {
            title: String::from_str(alloc, title)?,
            line,
            setting: Setting::new(),
            streams: Streams::new(alloc),
            tail: Vec::new(alloc),
            err_fails: Vec::new(alloc),
            answers: Vec::new(alloc),
            link_fails: Vec::new(alloc),
            conns: Vec::new(alloc),
            door_fails: Vec::new(alloc),
            err: Vec::new(alloc),
            status: None,
            left: None,
            asked: Vec::new(alloc),
            served: None,
        })
    }

    /// In how many forms the case is played.
    pub fn forms(&self) -> usize {
        match self.streams.cuts {
            Cuts::Each => self.streams.input.len().saturating_sub(1),
            _ if self.tail.is_empty() => 1,
            _ => self.tail.len().saturating_sub(1),
        }
    }

    /// How many connections the door has.
    pub fn conn_count(&self) -> u64 {
        let mut count = 0u64;
        for streams in &self.conns {
            count = count.saturating_add(streams.times as u64);
        }
        count
    }

    /// The streams behind the last line `conn`, or those of the run.
    pub fn last_streams(&mut self) -> &mut Streams {
        match self.conns.last_mut() {
            Some(streams) => streams,
            None => &mut self.streams,
        }
    }
}
