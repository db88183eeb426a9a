//! The program `cse`: its words are read once, and what they ask for is done with the real devices.
#![tactic(auto)]

mod counted;
mod journals;
mod later;

ghost use Rattle.std.specs.Prelude.{◌≤◌, IfOk, vec_len};

use crate::counted::CountedFile;
use crate::journals::{can_listen_for, own_home, say_differences};
use crate::later::LaterLog;
use command_words::{Asked, Command, HELP, LineFault, Logged, Task, VERSION, WordFault, read_line};
use cse_cli::{Server, run_command, seed, told};
use cse_server::Bench;
use devices::{Log, LogLevel, StdIn, StdOut, SystemClock, TcpDoor, words};
use disk_file::{DiskFile, DiskName, NamedDiskFile, OpenFault};
use journal_opening::first_text;
use journaled_cli::{CommandStreams, run_journaled, run_snapshot};
use m2m_io::{Clock as Reads, Link, Sink, Status};
use resource_model::Home;
use std::alloc::{AllocError, Global};
use std::io::Eprint;
use std::net::{Net, TcpListener, TcpStream};
use std::process::ExitCode;
use std::sync::Wait;
use std::thread::Threads;
use std::time::Clock;
use tcp_link::TcpLink;

/// As many workers as a server can be told to have.
const MOST_WORKERS: u64 = 4_096;

/// What the devices have to know of a server: how many workers it has, what it logs, and what the
/// CSE is called. A command that sends what waits does so by the first bench. Where connections
/// aren't counted, idle ones have no worker.
#[derive(Drop)]
struct DeviceSettings {
    workers: usize,
    parks: bool,
    log: LogLevel,
    whom: String,
    sends: bool,
}

/// A server has a worker at least.
fn workers_of(workers: u64) -> usize
    ensures { 1 ≤ result }
{
    workers.clamp(1, MOST_WORKERS) as usize
}

fn level_of(logged: Logged) -> LogLevel {
    match logged {
        Logged::Requests => LogLevel::Requests,
        Logged::Figures => LogLevel::Figures,
        Logged::Faults => LogLevel::Faults,
        Logged::Nothing => LogLevel::Nothing,
    }
}

/// Whether what waits is sent behind this task: the lines of a replay show it instead.
fn sends(task: Task<'_>) -> bool {
    matches!(task, Task::Http(_) | Task::Serve(_))
}

/// The settings that a command gives; at every other command than `serve` those of one worker that
/// logs nothing.
fn settings_by(alloc: Global, command: &Command<'_>) -> Result<DeviceSettings, AllocError>
    ensures { IfOk result (λ settings. 1 ≤ settings.workers) }
{
    let Task::Serve(serving) = command.task else {
        return Ok(DeviceSettings {
            workers: workers_of(1),
            parks: false,
            log: LogLevel::Nothing,
            whom: String::new(alloc),
            sends: sends(command.task),
        });
    };
    Ok(DeviceSettings {
        workers: workers_of(serving.workers),
        parks: serving.accept.is_none(),
        log: level_of(serving.log),
        whom: named_csi(alloc, &command.home)?,
        sends: sends(command.task),
    })
}

/// The CSE-ID of a home, with its slash.
fn named_csi(alloc: Global, home: &Home) -> Result<String, AllocError> {
    let mut csi = String::from_str(alloc, "/")?;
    if let Ok(text) = str::from_utf8(home.csi().entries()) {
        csi.push_str(text)?;
    }
    Ok(csi)
}

/// The system's clock, and a link over TCP that says on this log what fails.
fn bench<R>(
    system: HostRuntime,
    log: &Log<R>,
) -> Result<Bench<SystemClock<R>, TcpLink<R>>, AllocError>
where
    R: Net<Listener = TcpListener, Stream = TcpStream>
        + Clock
        + Eprint
        + Threads
        + Copy
        + Drop
        + Send,
{
    Ok(Bench {
        clock: SystemClock::new(log.runtime()),
        link: TcpLink::new(log.again()?, system),
    })
}

/// The bench beside those of workers and sender. Where what waits is sent by it, too, its link
/// leaves those alone who are mute, so that they hold up little that goes to others.
fn first_bench<R>(
    system: HostRuntime,
    log: &Log<R>,
    sends: bool,
) -> Result<Bench<SystemClock<R>, TcpLink<R>>, AllocError>
where
    R: Net<Listener = TcpListener, Stream = TcpStream>
        + Clock
        + Eprint
        + Threads
        + Copy
        + Drop
        + Send,
{
    if !sends {
        return bench(system, log);
    }
    Ok(Bench {
        clock: SystemClock::new(log.runtime()),
        link: TcpLink::sparing(log.again()?, system),
    })
}

/// What the sender works with: its link waits little, so that one who doesn't answer holds up
/// nothing that goes to others. The figures are said by it, as it reads its clock ten times a
/// second.
fn sender_bench<R>(
    system: HostRuntime,
    log: &Log<R>,
) -> Result<Bench<SystemClock<R>, TcpLink<R>>, AllocError>
where
    R: Net<Listener = TcpListener, Stream = TcpStream>
        + Clock
        + Eprint
        + Threads
        + Copy
        + Drop
        + Send,
{
    Ok(Bench {
        clock: SystemClock::telling(log.again()?),
        link: TcpLink::impatient(log.again()?, system),
    })
}

/// A bench for each of so many workers.
fn worker_benches<R>(
    system: HostRuntime,
    log: &Log<R>,
    count: usize,
) -> Result<Vec<Bench<SystemClock<R>, TcpLink<R>>>, AllocError>
where
    R: Net<Listener = TcpListener, Stream = TcpStream>
        + Clock
        + Eprint
        + Threads
        + Copy
        + Drop
        + Send,
    ensures { IfOk result (λ benches. count ≤ vec_len benches) }
{
    let mut benches = Vec::new(log.allocator());
    while benches.len() < count {
        benches.push(bench(system, log)?)?;
    }
    Ok(benches)
}

/// The benches of so many workers, and the sender's, which is also for what is left when they have
/// ended.
fn all_benches<R>(
    system: HostRuntime,
    log: &Log<R>,
    workers: usize,
) -> Result<Vec<Bench<SystemClock<R>, TcpLink<R>>>, AllocError>
where
    R: Net<Listener = TcpListener, Stream = TcpStream>
        + Clock
        + Eprint
        + Threads
        + Copy
        + Drop
        + Send,
    requires { 1 ≤ workers }
    ensures { IfOk result (λ benches. 2 ≤ vec_len benches) }
{
    let mut benches = worker_benches(system, log, workers)?;
    benches.push(sender_bench(system, log)?)?;
    Ok(benches)
}

/// Says why the file of this name isn't opened, and gives the status of that.
fn say_shut(rt: &HostRuntime, alloc: Global, name: &str, fault: OpenFault) -> Status {
    let mut err = StdOut::new(rt.stderr());
    if let Ok(why) = format!(in alloc; "cannot open {name}: {fault}\n") {
        let _ = err.put(why.as_str().as_bytes());
    }
    Status::ReadFault
}

/// The journal of this name, for a home. It is made where there is none.
fn journal_of(
    rt: &HostRuntime,
    alloc: Global,
    home: &Home,
    name: &str,
) -> Result<NamedDiskFile, Status> {
    let mut clock = SystemClock::new(*rt);
    let Ok(first) = first_text(alloc, home, clock.now()) else {
        return Err(Status::Memory);
    };
    match NamedDiskFile::open(rt, name, &first) {
        Ok(file) => Ok(file),
        Err(OpenFault::OutOfMemory) => Err(Status::Memory),
        Err(fault) => Err(say_shut(rt, alloc, name, fault)),
    }
}

/// The file of this name, and its name; or why not, as a status.
fn file_there(rt: &HostRuntime, alloc: Global, name: &str) -> Result<(DiskFile, DiskName), Status> {
    match DiskFile::open_there(rt, name) {
        Ok(file) => match DiskName::new(rt, &file, name) {
            Ok(place) => Ok((file, place)),
            Err(OpenFault::OutOfMemory) => Err(Status::Memory),
            Err(fault) => Err(say_shut(rt, alloc, name, fault)),
        },
        Err(OpenFault::OutOfMemory) => Err(Status::Memory),
        Err(fault) => Err(say_shut(rt, alloc, name, fault)),
    }
}

/// Replaces the journal of a home in the file of this name by a snapshot.
fn replace_journal(rt: &HostRuntime, alloc: Global, home: Home, name: &str) -> Status {
    let mut err = StdOut::new(rt.stderr());
    match file_there(rt, alloc, name) {
        Ok((mut file, mut place)) => {
            let own = own_home(alloc, &home);
            let status = run_snapshot(alloc, home, name, &mut place, &mut file, seed(rt), &mut err);
            if let Status::BadStream = status {
                say_differences(alloc, name, &mut file, own, &mut err);
            }
            status
        }
        Err(status) => {
            let _ = status.put_line(&mut err);
            status
        }
    }
}

/// The number of a status, which is told as a line before.
fn ended(rt: &HostRuntime, status: Status) -> ExitCode {
    let _ = status.put_line(&mut StdOut::new(rt.stderr()));
    ExitCode::from(status)
}

/// Says what is wrong with words, behind what is said at each faulty command line.
fn refuse(rt: &HostRuntime, alloc: Global, fault: WordFault<'_>) -> ExitCode {
    let mut err = StdOut::new(rt.stderr());
    let _ = Status::Usage.put_line(&mut err);
    if let Ok(why) = format!(in alloc; "{fault}\n") {
        let _ = err.put(why.as_str().as_bytes());
    }
    ExitCode::from(Status::Usage)
}

/// Says on standard output which version the program is.
fn say_version(rt: &HostRuntime, alloc: Global) -> ExitCode {
    match format!(in alloc; "cse {VERSION}\n") {
        Ok(line) => say(rt, line.as_str()),
        Err(_) => ended(rt, Status::Memory),
    }
}

/// Writes a text on standard output.
fn say(rt: &HostRuntime, text: &str) -> ExitCode {
    match StdOut::new(rt.stdout()).put(text.as_bytes()) {
        Ok(()) => ExitCode::from(Status::Done),
        Err(_) => ended(rt, Status::WriteFault),
    }
}

/// What a command over no journal or over one works with, beside its streams.
#[derive(Drop)]
struct Devices<R>
where
    R: Net<Listener = TcpListener, Stream = TcpStream>
        + Clock
        + Eprint
        + Threads
        + Copy
        + Drop
        + Send,
    SystemClock<R>: Reads,
    TcpLink<R>: Link,
{
    log: Log<R>,
    first: Bench<SystemClock<R>, TcpLink<R>>,
    server: Server<TcpDoor<R>, SystemClock<R>, TcpLink<R>, LaterLog<R>>,
}

/// The devices of a command.
fn devices_for<R>(
    rt: R,
    system: HostRuntime,
    alloc: Global,
    command: &Command<'_>,
) -> Result<Devices<R>, AllocError>
where
    R: Net<Listener = TcpListener, Stream = TcpStream>
        + Clock
        + Eprint
        + Threads
        + Copy
        + Drop
        + Send,
{
    let settings = settings_by(alloc, command)?;
    let log = Log::new(rt, alloc, settings.log, command.home.copy(alloc)?)?;
    let benches = all_benches(system, &log, settings.workers)?;
    let first = first_bench(system, &log, settings.sends)?;
    let own = log.again()?;
    let observer = LaterLog::new(log.again()?);
    let door = if settings.parks {
        TcpDoor::parking(log, settings.whom)
    } else {
        TcpDoor::new(log, settings.whom)
    };
    Ok(Devices {
        log: own,
        first,
        server: Server {
            door,
            benches,
            observer,
        },
    })
}

/// Does a command over an entity that is kept nowhere.
fn run_alone<R>(handle: &R, rt: HostRuntime, alloc: Global, command: Command<'_>) -> ExitCode
where
    R: Net<Listener = TcpListener, Stream = TcpStream>
        + Wait
        + Threads
        + Clock
        + Eprint
        + Copy
        + Drop
        + Send
        + Sync,
{
    let Ok(devices) = devices_for(*handle, rt, alloc, &command) else {
        return ended(&rt, Status::Memory);
    };
    let Devices {
        mut first,
        server,
        ..
    } = devices;
    let mut input = StdIn::new(rt.stdin());
    let mut out = StdOut::new(rt.stdout());
    let mut err = StdOut::new(rt.stderr());
    let (status, _) = told(
        &mut err,
        run_command(
            handle, alloc, command, &mut input, &mut out, &mut first, server,
        ),
    );
    ExitCode::from(status)
}

/// Does a command over the entity that is kept in the file of this name.
fn run_over<R>(
    handle: &R,
    rt: HostRuntime,
    alloc: Global,
    name: &str,
    command: Command<'_>,
) -> ExitCode
where
    R: Net<Listener = TcpListener, Stream = TcpStream>
        + Wait
        + Threads
        + Clock
        + Eprint
        + Copy
        + Drop
        + Send
        + Sync,
{
    let Ok(devices) = devices_for(*handle, rt, alloc, &command) else {
        return ended(&rt, Status::Memory);
    };
    let Devices {
        log,
        first,
        mut server,
    } = devices;
    if let Task::Serve(serving) = command.task
        && !can_listen_for(&rt, name, serving.listen, &mut server.door)
    {
        return ended(&rt, Status::ReadFault);
    }
    let own = own_home(alloc, &command.home);
    let file = match journal_of(&rt, alloc, &command.home, name) {
        Ok(file) => CountedFile::new(file, log),
        Err(status) => return ended(&rt, status),
    };
    let mut streams = CommandStreams {
        input: StdIn::new(rt.stdin()),
        out: StdOut::new(rt.stdout()),
        err: StdOut::new(rt.stderr()),
        first,
    };
    let (status, refused) = run_journaled(handle, alloc, command, name, file, &mut streams, server);
    if let (Status::BadStream, Some(mut file)) = (status, refused) {
        say_differences(alloc, name, &mut file, own, &mut streams.err);
    }
    ExitCode::from(status)
}

/// Does what a command line asks for. The handle is the runtime too, for what waits or starts
/// threads.
fn do_asked<R>(handle: &R, rt: HostRuntime, alloc: Global, asked: Asked<'_>) -> ExitCode
where
    R: Net<Listener = TcpListener, Stream = TcpStream>
        + Wait
        + Threads
        + Clock
        + Eprint
        + Copy
        + Drop
        + Send
        + Sync,
{
    match asked {
        Asked::Run(command) => run_alone(handle, rt, alloc, command),
        Asked::RunOver(name, command) => run_over(handle, rt, alloc, name, command),
        Asked::Snapshot(name, home) => ExitCode::from(replace_journal(&rt, alloc, home, name)),
        Asked::Help => say(&rt, HELP),
        Asked::Version => say_version(&rt, alloc),
    }
}

fn main(rt: HostRuntime) -> ExitCode {
    let alloc = rt.alloc();
    let Ok(words) = words(&rt) else {
        return ended(&rt, Status::Memory);
    };
    let Ok(texts) = words
        .iter()
        .map(|word| word.as_str())
        .collect::<Vec<&str>>(alloc)
    else {
        return ended(&rt, Status::Memory);
    };
    match read_line(alloc, &texts) {
        Ok(asked) => do_asked(&rt, rt, alloc, asked),
        Err(LineFault::Words(fault)) => refuse(&rt, alloc, fault),
        Err(LineFault::OutOfMemory) => ended(&rt, Status::Memory),
    }
}
