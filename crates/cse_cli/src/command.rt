//! The command line.
ghost use Rattle.std.specs.Prelude.{◌≡◌, ◌≤◌, vec_len, map};
ghost use Rattle.m2m_io.specs.Status.{status_line};
ghost use Rattle.m2m_io.specs.Told.{AppendsUnlessFault};
ghost use Rattle.command_words.specs.Line.{command_in};
ghost use Rattle.command_words.specs.Reading.{task_by};
ghost use Rattle.cse_cli.specs.Devices.{devices_by};
ghost use Rattle.cse_cli.specs.Running.{RunsCommand, RunsTask};
ghost use Rattle.cse_cli.specs.Serve.{ServesEntity};
ghost use Rattle.cse_server.specs.Attending.{conn_tells, link_tells};
ghost use Rattle.workers.specs.Gate.{door_tells};

use crate::http::serve_streams;
use crate::observed::{NoObserver, RunObserver};
use crate::replay::replay_lines;
use crate::serve::serve_door;
use crate::server::Server;
use crate::twin::compare_lines;
use command_words::{Command, Task, read_command};
use cse_server::Bench;
use m2m_io::{Clock, Door, Link, Sink, Source, Status};
use made_input::generate;
use service_observer::{ItemObserver, ReplyObserver};
use std::alloc::Global;
use std::sync::Wait;
use std::thread::Threads;
use std::time;

/// Does a command that was read, and answers with the status and the door. The devices are those of
/// `run`. Nobody is told how it ended.
pub fn run_command<
    R,
    S: Source,
    O: Sink,
    D: Door + Send,
    C: Clock + Send,
    L: Link + ItemObserver + Send,
    W: RunObserver + Send,
>(
    rt: &R,
    alloc: Global,
    command: Command,
    input: &mut S,
    out: &mut O,
    first: &mut Bench<C, L>,
    server: Server<D, C, L, W>,
) -> (Status, D)
where
    R: Wait + Threads + time::Clock + Clone + Drop + Sync,
    C: Drop,
    D::Conn: ReplyObserver,
    L: Drop,
    W: Drop,
    ensures { let devices = devices_by S.left S.faults O.written O.puts O.faults C.readings
        (link_tells L.exchanges L.faults) (door_tells D.opened D.given D.ended D.faults) in
        let conn = conn_tells D.Conn.left D.Conn.written D.Conn.puts
        D.Conn.Source.faults D.Conn.Sink.faults in
        let link = link_tells L.exchanges L.faults in
        RunsTask (ServesEntity conn C.readings link server.benches.items)
        (task_by command.entry.task) command.entry.home
        (devices input.old out.old first.old server.door)
        (devices input.new out.new first.new result.1) result.0 }
{
    let Command { task, home } = command;
    let Server {
        door,
        benches,
        observer,
    } = server;
    match task {
        Task::Http(later) => (
            serve_streams(rt, alloc, home, later, input, out, first),
            door,
        ),
        Task::Replay => (replay_lines(alloc, home, input, out, first), door),
        Task::Twin => (compare_lines(alloc, home, input, out), door),
        Task::Serve(serving) => serve_door(
            rt, alloc, home, serving, observer, door, first, benches,
        ),
        Task::Generate(requests) => (generate(alloc, requests, out), door),
    }
}

/// Says on `err` how a command ended, as a line, and hands that on.
pub fn told<E: Sink, X>(err: &mut E, ended: (Status, X)) -> (Status, X)
    ensures same { result ≡ ended }
    ensures err { AppendsUnlessFault (E.written err.old) (E.written err.new)
        (E.faults err.old) (E.faults err.new) (status_line result.0) }
{
    let _ = ended.0.put_line(err);
    ended
}

/// Runs the command that the words name, and answers with the status and the door. The words are
/// those behind the program's name. `input` and `out` are the streams of a command that has one
/// connection or one list of lines; `err` gets the text of the status as a line; `first` is the
/// bench of such a command, and `benches` are those of the workers. `http` serves `input` and `out`
/// as one connection, `replay` answers the lines of `input`, `twin` compares two entities that
/// these prepare, `serve` opens the door and serves its connections, each by a worker, and `gen`
/// makes so many requests and writes a line on what they are answered. The options say the home of
/// the entities, at `http` and `serve` whether requests that ask for it are answered later, and at
/// `serve` where the door is opened, how many connections are accepted, and whether each is one of
/// HTTP or a WebSocket.
pub fn run<
    R,
    S: Source,
    O: Sink,
    E: Sink,
    D: Door + Send,
    C: Clock + Send,
    L: Link + ItemObserver + Send,
>(
    rt: &R,
    alloc: Global,
    words: &[&str],
    input: &mut S,
    out: &mut O,
    err: &mut E,
    door: D,
    first: &mut Bench<C, L>,
    benches: Vec<Bench<C, L>>,
) -> (Status, D)
where
    R: Wait + Threads + time::Clock + Clone + Drop + Sync + Send,
    C: Drop,
    D::Conn: ReplyObserver,
    L: Drop,
    requires benches { 2 ≤ vec_len benches }

    // What the words ask for is done: `RunsCommand` has a case for each command, and one for words
    // that are none.
    ensures runs { let devices = devices_by S.left S.faults O.written O.puts O.faults C.readings
        (link_tells L.exchanges L.faults) (door_tells D.opened D.given D.ended D.faults) in
        let conn = conn_tells D.Conn.left D.Conn.written D.Conn.puts
        D.Conn.Source.faults D.Conn.Sink.faults in
        let link = link_tells L.exchanges L.faults in
        RunsCommand (ServesEntity conn C.readings link benches.items)
        (command_in (map (λ word. word.now) words.now))
        (devices input.old out.old first.old door)
        (devices input.new out.new first.new result.1) result.0 }

    // What is written to `err` is the text of the status as a line, or a prefix of it where a fault
    // came.
    ensures err { AppendsUnlessFault (E.written err.old) (E.written err.new)
        (E.faults err.old) (E.faults err.new) (status_line result.0) }
{
    match read_command(alloc, words) {
        Ok(Some(command)) => told(
            err,
            run_command(
                rt,
                alloc,
                command,
                input,
                out,
                first,
                Server {
                    door,
                    benches,
                    observer: NoObserver,
                },
            ),
        ),
        Ok(None) => told(err, (Status::Usage, door)),
        Err(_) => told(err, (Status::Memory, door)),
    }
}
