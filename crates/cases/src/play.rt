//! Playing a case.
ghost use Rattle.std.specs.Prelude.{◌≤◌, ◌<◌, All, IfOk, vec_len};

use crate::came::Came;
use crate::case::{Case, Cuts, Streams};
use crate::client::{Gets, Sends};
use crate::link::CaseLink;
use crate::verdict::difference;
use cse_cli::run;
use cse_server::Bench;
use m2m_io::{MemClock, MemConn, MemDoor, MemLink, MemSink, MemSource, Status};
use std::alloc::{AllocError, Global};
use std::sync::atomic::{AtomicU64, Ordering};
use std::sync::{Arc, Wait};
use std::thread::Threads;
use std::time;

/// The objects of a run.
#[derive(Drop)]
struct Stage {
    input: Sends,
    out: Gets,
    err: MemSink,
    door: MemDoor<MemConn>,
    first: Bench<MemClock, CaseLink>,
}

/// What a run leaves.
#[derive(Drop)]
struct Played {
    status: Status,
    input: Sends,
    out: Gets,
    err: MemSink,
    link: CaseLink,
}

/// How the reads of a stream are cut in a form of its case.
fn cuts_of(alloc: Global, streams: &Streams, form: usize) -> Result<Vec<usize>, AllocError> {
    match &streams.cuts {
        Cuts::List(cuts) => cuts.clone(),
        Cuts::Every(count) => vec![in alloc; *count; streams.input.len()],
        Cuts::Each => Ok(vec![in alloc; form.saturating_add(1)]?),
        Cuts::Turns => streams.blocks.clone(),
    }
}

/// A source of these bytes with the cuts and faults of these streams. A file has no cut of 0 bytes;
/// where one stood, none would be made.
fn source_of(
    alloc: Global,
    bytes: Vec<u8>,
    streams: &Streams,
    form: usize,
) -> Result<MemSource, AllocError> {
    let cuts = cuts_of(alloc, streams, form)?;
    let fails = streams.read_fails.clone()?;
    if cuts.iter().all(|cut| 0 < *cut) {
        Ok(MemSource::new(bytes, cuts, fails))
    } else {
        Ok(MemSource::new(bytes, Vec::new(alloc), fails))
    }
}

/// The input in a form of the case.
fn input_of(case: &Case, form: usize) -> Result<Vec<u8>, AllocError> {
    let mut input = case.streams.input.clone()?;
    let count = form.saturating_add(1).min(case.tail.len());
    if !matches!(case.streams.cuts, Cuts::Each) {
        input.extend_from_slice(case.tail.split_at(count).0)?;
    }
    Ok(input)
}

fn conn_of(
    alloc: Global,
    streams: &Streams,
    right: &Arc<AtomicU64>,
) -> Result<MemConn, AllocError> {
    let input = source_of(alloc, streams.input.clone()?, streams, 0)?;
    let out = sink_of(alloc, &streams.put_fails)?;
    Ok(MemConn::new(input, out, streams.out.clone()?, Arc::try_clone(right)?))
}

fn door_of(
    alloc: Global,
    case: &Case,
    right: &Arc<AtomicU64>,
) -> Result<MemDoor<MemConn>, AllocError> {
    let mut conns = Vec::new(alloc);
    for streams in &case.conns {
        for _ in 0..streams.times {
            conns.push(conn_of(alloc, streams, right)?)?;
        }
    }
    Ok(MemDoor::new(conns, case.door_fails.clone()?))
}

fn clock_of(alloc: Global, case: &Case) -> Result<MemClock, AllocError> {
    match &case.setting.clock {
        Some(readings) => Ok(MemClock::new(readings.clone()?)),
        None => Ok(MemClock::new(Vec::new(alloc))),
    }
}

/// The answers of the case.
fn answers_of(alloc: Global, case: &Case) -> Result<MemLink, AllocError> {
    let mut answers = Vec::new(alloc);
    for answer in &case.answers {
        answers.push(answer.clone()?)?;
    }
    Ok(MemLink::new(answers, case.link_fails.clone()?))
}

/// The bench of the run: the clock of the case, and its link.
fn first_bench(alloc: Global, case: &Case) -> Result<Bench<MemClock, CaseLink>, AllocError> {
    let clock = clock_of(alloc, case)?;
    let link = CaseLink::new(alloc, answers_of(alloc, case)?);
    Ok(Bench { clock, link })
}

/// The bench of a worker: the clock of the case, and a link without answers.
fn worker_bench(alloc: Global, case: &Case) -> Result<Bench<MemClock, CaseLink>, AllocError> {
    let none = MemLink::new(Vec::new(alloc), Vec::new(alloc));
    Ok(Bench {
        clock: clock_of(alloc, case)?,
        link: CaseLink::new(alloc, none),
    })
}

fn three_benches(alloc: Global, case: &Case) -> Result<Vec<Bench<MemClock, CaseLink>>, AllocError>
    ensures { IfOk result (λ benches. 2 ≤ vec_len benches) }
{
    Ok(vec![in alloc;
        worker_bench(alloc, case)?,
        worker_bench(alloc, case)?,
        worker_bench(alloc, case)?,
    ]?)
}

/// What the client sends and what it gets.
fn client_of(alloc: Global, case: &Case, form: usize) -> Result<(Sends, Gets), AllocError> {
    let puts = Arc::new(alloc, AtomicU64::new(0))?;
    let waits = matches!(case.streams.cuts, Cuts::Turns);
    let source = source_of(alloc, input_of(case, form)?, &case.streams, form)?;
    let sink = sink_of(alloc, &case.streams.put_fails)?;
    let sends = Sends::new(source, waits, Arc::try_clone(&puts)?);
    Ok((sends, Gets::new(sink, puts)))
}

/// A sink to which nothing was written, with these faults.
fn sink_of(alloc: Global, fails: &Vec<u64>) -> Result<MemSink, AllocError> {
    Ok(MemSink::new(Vec::new(alloc), fails.clone()?))
}

fn stage_of(
    alloc: Global,
    case: &Case,
    form: usize,
    right: &Arc<AtomicU64>,
) -> Result<Stage, AllocError> {
    let (input, out) = client_of(alloc, case, form)?;
    let err = sink_of(alloc, &case.err_fails)?;
    let door = door_of(alloc, case, right)?;
    let first = first_bench(alloc, case)?;
    Ok(Stage {
        input,
        out,
        err,
        door,
        first,
    })
}

fn run_on<R>(
    rt: &R,
    alloc: Global,
    words: &[&str],
    stage: Stage,
    benches: Vec<Bench<MemClock, CaseLink>>,
) -> Played
where
    R: Wait + Threads + time::Clock + Clone + Drop + Sync + Send,
    requires { 2 ≤ vec_len benches }
{
    let Stage {
        mut input,
        mut out,
        mut err,
        door,
        mut first,
    } = stage;
    let (status, _) = run(
        rt, alloc, words, &mut input, &mut out, &mut err, door, &mut first, benches,
    );
    Played {
        status,
        input,
        out,
        err,
        link: first.link,
    }
}

fn came_of(alloc: Global, played: &Played, right: &Arc<AtomicU64>) -> Result<Came, AllocError> {
    Ok(Came {
        status: u64::from(played.status.number()),
        out: Vec::from_slice(alloc, played.out.written())?,
        err: Vec::from_slice(alloc, played.err.written())?,
        asked: Vec::from_slice(alloc, played.link.asked())?,
        served: right.load(Ordering::SeqCst),
        left: played.input.left() as u64,
    })
}

fn case_words(alloc: Global, case: &Case) -> Result<Vec<&str>, AllocError> {
    match &case.setting.words {
        Some(words) => words.iter().map(|word| word.as_str()).collect(alloc),
        None => Ok(Vec::new(alloc)),
    }
}

/// Plays a case in one of its forms.
fn played_in_form<R>(
    rt: &R,
    alloc: Global,
    case: &Case,
    form: usize,
    right: &Arc<AtomicU64>,
) -> Result<Played, AllocError>
where
    R: Wait + Threads + time::Clock + Clone + Drop + Sync + Send,
{
    let words = case_words(alloc, case)?;
    let stage = stage_of(alloc, case, form, right)?;
    let benches = three_benches(alloc, case)?;
    Ok(run_on(rt, alloc, &words, stage, benches))
}

/// Plays a case in one of its forms, and tells what differs, if anything.
pub fn play<R>(
    rt: &R,
    alloc: Global,
    case: &Case,
    form: usize,
) -> Result<Option<String>, AllocError>
where
    R: Wait + Threads + time::Clock + Clone + Drop + Sync + Send,
{
    let right = Arc::new(alloc, AtomicU64::new(0))?;
    let played = played_in_form(rt, alloc, case, form, &right)?;
    let came = came_of(alloc, &played, &right)?;
    difference(alloc, case, &came)
}
