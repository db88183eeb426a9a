//! Commands over a journal.
ghost use Rattle.std.specs.Prelude.{◌≡◌, ◌≢◌, [], IfErr, IfOk};
ghost use Rattle.command_words.specs.Reading.{task_by};
ghost use Rattle.cse_cli.specs.Serve.{AttendsWidely};
ghost use Rattle.cse_server.specs.Attending.{conn_tells, link_tells};
ghost use Rattle.desk_replies.specs.Rule.{plainly};
ghost use Rattle.journal_opening.specs.Opening.{IsRefused, StaysAsItWas};
ghost use Rattle.journal_events.specs.Steps.{KeptEntityStep};
ghost use Rattle.journaled_cli.specs.Run.{DoesTask, RunsBy, RunsTask, ServesByWords};
ghost use Rattle.journaled_entity.specs.Keeping.{KeepsEntity};
ghost use Rattle.journaled_later.specs.Keeping.{KeepsLater};
ghost use Rattle.journaled_later.specs.Opened.{OpensLaterAt};
ghost use Rattle.journaled_later.specs.Steps.{KeptLaterStep};
ghost use Rattle.later_opening.specs.Opening.{IsRefusedLater};
ghost use Rattle.journaled_cli.specs.Run.{outside_by, refusal};
ghost use Rattle.journaled_entity.specs.Opened.{OpensAt};
ghost use Rattle.journaled_server.specs.Serving.{AnswersGrown, AttendsKeptBy, SendsKept};
ghost use Rattle.journaled_server.specs.Serving.{TurnsGrow};
ghost use Rattle.kept_file.specs.Crashes.{LeavesThis};
ghost use Rattle.ws_binding.specs.Binding.{TalksWs};

use crate::http::serve_streams;
use crate::observed::observe_runs;
use crate::serve::serve_door;
use crate::streams::CommandStreams;
use command_words::{Command, Task, answers_later, may_keep};
use cse_cli::{NoObserver, RunObserver, Server, seed, told};
use journal_events::{Came, KeptEvent};
use journal_opening::OpeningFault;
use journaled_entity::{Journaled, Unopened, open_kept};
use journaled_later::{JournaledLater, open_later};
use kept_file::NamedFile;
use kept_object::{KeptObject, Recorder};
use m2m_io::{Clock, Door, Link, Sink, Source, Status};
use resource_tree::IndexTree;
use service_observer::{ItemObserver, ReplyObserver};
use std::alloc::{AllocError as OutOfMemory, Global};
use std::sync::Wait;
use std::thread::Threads;
use std::time;
use tree_model::{Home, Tree};

/// The status where a file isn't opened for this fault.
pub(crate) fn refusal(fault: OpeningFault) -> Status
    ensures { result ≡ refusal fault }
{
    match fault {
        OpeningFault::NoHeader
        | OpeningFault::OtherFormat
        | OpeningFault::OtherHome
        | OpeningFault::BadSnapshot(_)
        | OpeningFault::Unsound
        | OpeningFault::BadLine(_)
        | OpeningFault::OldDeed(_)
        | OpeningFault::LaterWord(_) => Status::BadStream,
        OpeningFault::Failed => Status::ReadFault,
        OpeningFault::OutOfMemory => Status::Memory,
    }
}

/// Why the journal of this name isn't opened, which another program wrote, and what is to be done.
fn of_another(alloc: Global, name: &str, what: &str) -> Result<String, OutOfMemory> {
    let how = "by the program that wrote it, with the server's options, and start this one";
    format!(in alloc;
        "cannot open {name}: {what}: end the server, run `cse snapshot {name}` {how}\n"
    )
}

/// Why the journal of this name isn't opened, as a line.
pub(crate) fn reason(
    alloc: Global,
    name: &str,
    fault: OpeningFault,
) -> Result<String, OutOfMemory> {
    match fault {
        OpeningFault::NoHeader => format!(in alloc; "cannot open {name}: it is no journal\n"),
        OpeningFault::OtherFormat => of_another(alloc, name, "it is a journal of another format"),
        OpeningFault::OtherHome => {
            format!(in alloc; "cannot open {name}: it is the journal of another home\n")
        }
        OpeningFault::BadSnapshot(number) => {
            format!(in alloc; "cannot open {name}: line {number} doesn't fit in its snapshot\n")
        }
        OpeningFault::Unsound => {
            format!(in alloc; "cannot open {name}: its snapshot is that of no sound CSE\n")
        }
        OpeningFault::BadLine(number) => {
            format!(in alloc; "cannot open {name}: line {number} is no deed of a journal\n")
        }
        OpeningFault::OldDeed(number) => {
            let what = format!(in alloc; "line {number} is a deed of the format 1")?;
            of_another(alloc, name, what.as_str())
        }
        OpeningFault::LaterWord(number) => {
            format!(in alloc; "cannot open {name}: line {number} is of a CSE that answers later\n")
        }
        OpeningFault::Failed => format!(in alloc; "cannot open {name}: the file failed\n"),
        OpeningFault::OutOfMemory => format!(in alloc; "cannot open {name}: out of memory\n"),
    }
}

/// Why the journal of this name isn't opened, as a line, where words on accepted requests are read.
pub(crate) fn later_reason(
    alloc: Global,
    name: &str,
    fault: OpeningFault,
) -> Result<String, OutOfMemory> {
    match fault {
        OpeningFault::LaterWord(number) => {
            format!(in alloc; "cannot open {name}: line {number} is no word of a journal\n")
        }
        other => reason(alloc, name, other),
    }
}

/// Says why a journal isn't opened, and gives the status of that.
fn refuse<E: Sink>(err: &mut E, why: Result<String, OutOfMemory>, fault: OpeningFault) -> Status
    ensures { result ≡ refusal fault }
{
    if let Ok(why) = why {
        let _ = err.put(why.as_str().as_bytes());
    }
    refusal(fault)
}

/// The entity of a home that the journal in a file makes, as `open_kept` opens it. The home is
/// copied before the file is read; where memory runs out then, nothing was read.
fn open_at<F: NamedFile + Drop, T: Tree>(
    alloc: Global,
    home: &Home,
    tree: T,
    file: F,
) -> Result<KeptObject<Journaled<T>, F>, Unopened<F>>
    requires tree { T.nodes tree ≡ [] }
    requires kept { F.tells → LeavesThis (F.seen file) (F.may_leave file) }
    ensures opens { IfOk result (OpensAt F.tells F.seen F.may_leave home.now file) }
    ensures refused { F.tells → IfErr result (λ u. IsRefused home.now (F.seen file) u.fault) }
    ensures stays { F.tells → IfErr result (λ u. u.fault ≢ OpeningFault.Failed
        → StaysAsItWas F.seen F.may_leave F.moment F.left_since file u.file) }
{
    let Ok(own) = home.copy(alloc) else {
        return Err(Unopened {
            fault: OpeningFault::OutOfMemory,
            file,
        });
    };
    open_kept(alloc, own, tree, file)
}

/// The CSE that answers later of a home that the journal in a file makes, as `open_later` opens it.
/// The home is copied before the file is read; where memory runs out then, nothing was read.
fn open_later_at<F: NamedFile + Drop, T: Tree>(
    alloc: Global,
    home: &Home,
    tree: T,
    file: F,
) -> Result<KeptObject<JournaledLater<T>, F>, Unopened<F>>
    requires tree { T.nodes tree ≡ [] }
    requires kept { F.tells → LeavesThis (F.seen file) (F.may_leave file) }
    ensures opens { IfOk result (OpensLaterAt F.tells F.seen F.may_leave home.now file) }
    ensures refused { F.tells → IfErr result
        (λ u. IsRefusedLater home.now (F.seen file) u.fault) }
    ensures stays { F.tells → IfErr result (λ u. u.fault ≢ OpeningFault.Failed
        → StaysAsItWas F.seen F.may_leave F.moment F.left_since file u.file) }
{
    let Ok(own) = home.copy(alloc) else {
        return Err(Unopened {
            fault: OpeningFault::OutOfMemory,
            file,
        });
    };
    open_later(alloc, own, tree, file)
}

/// Does a task with what was opened at the journal of this home. `http` and `serve` alone are done
/// so.
fn do_task<
    R,
    S: Source,
    O: Sink,
    E: Sink,
    D: Door + Send,
    C: Clock + Send,
    L: Link + ItemObserver + Send,
    W,
    K,
    F,
>(
    rt: &R,
    alloc: Global,
    home: Home,
    task: Task,
    object: KeptObject<K, F>,
    streams: &mut CommandStreams<S, O, E, C, L>,
    server: Server<D, C, L, W>,
) -> Status
where
    R: Wait + Threads + Clone + Drop + Sync,
    K: Recorder<Event = KeptEvent, Outcome = Came> + Send + Drop,
    F: NamedFile + Send + Drop,
    D: Drop,
    C: Drop,
    D::Conn: ReplyObserver,
    L: Drop,
    W: Drop,
    ensures { let told = outside_by S.left O.written O.puts C.readings
        (link_tells L.exchanges L.faults) in
        let http = AttendsWidely (AnswersGrown TurnsGrow)
        (conn_tells D.Conn.left D.Conn.written D.Conn.puts D.Conn.Source.faults
        D.Conn.Sink.faults) C.readings (link_tells L.exchanges L.faults) in
        let ws = AttendsKeptBy TurnsGrow (TalksWs plainly) C.readings
        (link_tells L.exchanges L.faults) in
        let sends = SendsKept TurnsGrow C.readings (link_tells L.exchanges L.faults) in
        let served = ServesByWords K.step K.keeps F.tells F.seen F.may_leave F.moment F.left_since
        http ws sends server.benches.items streams.old.first streams.new.first in
        DoesTask K.step K.keeps F.tells F.seen F.may_leave F.moment F.left_since served
        (task_by task.entry) home object (told streams.old.input streams.old.out streams.old.first)
        (told streams.new.input streams.new.out streams.new.first) result }
{
    let CommandStreams {
        input,
        out,
        first,
        ..
    } = streams;
    let Server { door, benches, .. } = server;
    if !may_keep(task) {
        return Status::Usage;
    }
    match task {
        Task::Http(_) => serve_streams(alloc, &home, object, input, out, first),
        Task::Serve(serving) => serve_door(rt, alloc, home, object, serving, door, first, benches),
        Task::Replay => Status::Usage,
        Task::Twin => Status::Usage,
        Task::Generate(_) => Status::Usage,
    }
}

/// Runs a command over the entity that is kept in the file of a name, and tells nobody how that
/// ended.
fn run_plain<
    R,
    S: Source,
    O: Sink,
    E: Sink,
    D: Door + Send,
    C: Clock + Send,
    L: Link + ItemObserver + Send,
    W,
    F,
>(
    rt: &R,
    alloc: Global,
    task: Task,
    home: Home,
    name: &str,
    file: F,
    streams: &mut CommandStreams<S, O, E, C, L>,
    server: Server<D, C, L, W>,
) -> (Status, Option<F>)
where
    R: Wait + Threads + time::Clock + Clone + Drop + Sync,
    F: NamedFile + Send + Drop,
    D: Drop,
    C: Drop,
    D::Conn: ReplyObserver,
    L: Drop,
    W: Drop,
    requires kept { F.tells → LeavesThis (F.seen file) (F.may_leave file) }
    ensures runs { let told = outside_by S.left O.written O.puts C.readings
        (link_tells L.exchanges L.faults) in
        let http = AttendsWidely (AnswersGrown TurnsGrow)
        (conn_tells D.Conn.left D.Conn.written D.Conn.puts D.Conn.Source.faults
        D.Conn.Sink.faults) C.readings (link_tells L.exchanges L.faults) in
        let ws = AttendsKeptBy TurnsGrow (TalksWs plainly) C.readings
        (link_tells L.exchanges L.faults) in
        let sends = SendsKept TurnsGrow C.readings (link_tells L.exchanges L.faults) in
        let served = ServesByWords KeptEntityStep KeepsEntity F.tells F.seen F.may_leave F.moment
        F.left_since http ws sends server.benches.items streams.old.first streams.new.first in
        RunsBy KeptEntityStep KeepsEntity F.tells F.seen F.may_leave F.moment F.left_since
        (OpensAt F.tells F.seen F.may_leave) IsRefused served (task_by task.entry) home file
        (told streams.old.input streams.old.out streams.old.first)
        (told streams.new.input streams.new.out streams.new.first) result.1 result.0 }
{
    let tree = IndexTree::seeded(alloc, seed(rt));
    match open_at(alloc, &home, tree, file) {
        Ok(object) => {
            let status = do_task(rt, alloc, home, task, object, streams, server);
            (status, None)
        }
        Err(unopened) => {
            let Unopened { fault, file } = unopened;
            let status = refuse(&mut streams.err, reason(alloc, name, fault), fault);
            (status, Some(file))
        }
    }
}

/// Runs a command over the CSE that answers later which is kept in the file of a name, and tells
/// nobody how that ended.
fn run_later<
    R,
    S: Source,
    O: Sink,
    E: Sink,
    D: Door + Send,
    C: Clock + Send,
    L: Link + ItemObserver + Send,
    W: RunObserver + Send,
    F,
>(
    rt: &R,
    alloc: Global,
    task: Task,
    home: Home,
    name: &str,
    file: F,
    streams: &mut CommandStreams<S, O, E, C, L>,
    server: Server<D, C, L, W>,
) -> (Status, Option<F>)
where
    R: Wait + Threads + time::Clock + Clone + Drop + Sync,
    F: NamedFile + Send + Drop,
    D: Drop,
    C: Drop,
    D::Conn: ReplyObserver,
    L: Drop,
    W: Drop,
    requires kept { F.tells → LeavesThis (F.seen file) (F.may_leave file) }
    ensures runs { let told = outside_by S.left O.written O.puts C.readings
        (link_tells L.exchanges L.faults) in
        let http = AttendsWidely (AnswersGrown TurnsGrow)
        (conn_tells D.Conn.left D.Conn.written D.Conn.puts D.Conn.Source.faults
        D.Conn.Sink.faults) C.readings (link_tells L.exchanges L.faults) in
        let ws = AttendsKeptBy TurnsGrow (TalksWs plainly) C.readings
        (link_tells L.exchanges L.faults) in
        let sends = SendsKept TurnsGrow C.readings (link_tells L.exchanges L.faults) in
        let served = ServesByWords KeptLaterStep KeepsLater F.tells F.seen F.may_leave F.moment
        F.left_since http ws sends server.benches.items streams.old.first streams.new.first in
        RunsBy KeptLaterStep KeepsLater F.tells F.seen F.may_leave F.moment F.left_since
        (OpensLaterAt F.tells F.seen F.may_leave) IsRefusedLater served (task_by task.entry) home
        file (told streams.old.input streams.old.out streams.old.first)
        (told streams.new.input streams.new.out streams.new.first) result.1 result.0 }
{
    let tree = IndexTree::seeded(alloc, seed(rt));
    match open_later_at(alloc, &home, tree, file) {
        Ok(object) => {
            let Server {
                door,
                benches,
                observer,
            } = server;
            let kept = observe_runs(object, observer);
            let server = Server {
                door,
                benches,
                observer: NoObserver,
            };
            let status = do_task(rt, alloc, home, task, kept, streams, server);
            (status, None)
        }
        Err(unopened) => {
            let Unopened { fault, file } = unopened;
            let status = refuse(&mut streams.err, later_reason(alloc, name, fault), fault);
            (status, Some(file))
        }
    }
}

/// Runs a command, which is `http` or `serve`, over the entity that is kept in the file of a name,
/// and answers with the status. A file at which no entity is opened is given back. The other devices
/// are those of `run` of the crate cse_cli.
pub fn run_journaled<
    R,
    S: Source,
    O: Sink,
    E: Sink,
    D: Door + Send,
    C: Clock + Send,
    L: Link + ItemObserver + Send,
    W: RunObserver + Send,
    F,
>(
    rt: &R,
    alloc: Global,
    command: Command<'_>,
    name: &str,
    file: F,
    streams: &mut CommandStreams<S, O, E, C, L>,
    server: Server<D, C, L, W>,
) -> (Status, Option<F>)
where
    R: Wait + Threads + time::Clock + Clone + Drop + Sync,
    F: NamedFile + Send + Drop,
    D: Drop,
    C: Drop,
    D::Conn: ReplyObserver,
    L: Drop,
    W: Drop,

    // What is read of the file is what stands on the disk.
    requires kept { F.tells → LeavesThis (F.seen file) (F.may_leave file) }

    // The entity is opened that the journal in the file makes, beside its accepted requests where
    // the words say that requests are answered later. With `http` the output gets the
    // replies that may be given of it, and with `serve` connections are attended to by it. A file
    // that holds none of its home is refused and stays as it was. No other command is done.
    ensures runs { let told = outside_by S.left O.written O.puts C.readings
        (link_tells L.exchanges L.faults) in
        let http = AttendsWidely (AnswersGrown TurnsGrow)
        (conn_tells D.Conn.left D.Conn.written D.Conn.puts D.Conn.Source.faults
        D.Conn.Sink.faults) C.readings (link_tells L.exchanges L.faults) in
        let ws = AttendsKeptBy TurnsGrow (TalksWs plainly) C.readings
        (link_tells L.exchanges L.faults) in
        let sends = SendsKept TurnsGrow C.readings (link_tells L.exchanges L.faults) in
        let served = ServesByWords KeptEntityStep KeepsEntity F.tells F.seen F.may_leave F.moment
        F.left_since http ws sends server.benches.items streams.old.first streams.new.first in
        let http_later = AttendsWidely (AnswersGrown TurnsGrow)
        (conn_tells D.Conn.left D.Conn.written D.Conn.puts D.Conn.Source.faults
        D.Conn.Sink.faults) C.readings (link_tells L.exchanges L.faults) in
        let ws_later = AttendsKeptBy TurnsGrow (TalksWs plainly) C.readings
        (link_tells L.exchanges L.faults) in
        let sends_later = SendsKept TurnsGrow C.readings (link_tells L.exchanges L.faults) in
        let later = ServesByWords KeptLaterStep KeepsLater F.tells F.seen F.may_leave F.moment
        F.left_since http_later ws_later sends_later server.benches.items streams.old.first
        streams.new.first in
        RunsTask F.tells F.seen F.may_leave F.moment F.left_since served later
        (task_by command.entry.task) command.entry.home file
        (told streams.old.input streams.old.out streams.old.first)
        (told streams.new.input streams.new.out streams.new.first) result.1 result.0 }
{
    let Command { task, home } = command;
    if answers_later(task) {
        let ended = run_later(rt, alloc, task, home, name, file, streams, server);
        told(&mut streams.err, ended)
    } else {
        let ended = run_plain(rt, alloc, task, home, name, file, streams, server);
        told(&mut streams.err, ended)
    }
}
