//! What is left of a session whose file fails at one of its calls.
ghost use Rattle.kept_file.specs.Crashes.{LeavesThis};
ghost use Rattle.kept_file.specs.Memory.{MayLeave};

use crate::pictures::{picture, picture_by, pictures};
use crate::session::{LAST, OPENED, SENT, SESSION, event_of, home};
use entity_model::Entity;
use journal_opening::{Played, first_text, play_back};
use journaled_entity::{Journaled, open_kept};
use kept_desk::{Answer, KeptDesk, Report, Turn};
use kept_file::MemFile;
use kept_object::KeptObject;
use resource_tree::IndexTree;
use std::alloc::{AllocGlobal, Global};
use std::process::Abort;
use std::test::Fail;
use turn_desk::{Desk, Object, OwnDesk, OwnSeat};

/// The calls of the file by which it is opened: it is read, cut and synced, written and synced.
const OPENING_CALLS: u64 = 5;

/// More calls than the file gets in the session.
const MOST_CALLS: u64 = 300;

type Kept = KeptObject<Journaled<IndexTree>, MemFile>;

/// A file of these bytes, whose call of a number fails.
fn file_of(rt: &(impl Abort + AllocGlobal), bytes: &[u8], fails: u64) -> MemFile
    ensures { LeavesThis result.seen (MayLeave result) }
{
    let numbers = vec![in rt.alloc(); fails].expect(rt, "memory");
    MemFile::new(rt.alloc(), bytes, b'@', numbers).expect(rt, "memory")
}

/// The CSE, opened at a new file whose call of a number fails.
fn opened(rt: &(impl Abort + AllocGlobal), fails: u64) -> Kept {
    let alloc = rt.alloc();
    let first = first_text(alloc, &home(rt), OPENED).expect(rt, "a header");
    let file = file_of(rt, &first, fails);
    let opened = open_kept(alloc, home(rt), IndexTree::new(alloc), file);
    opened.ok().expect(rt, "a journal")
}

/// Asks an event at a seat that holds its object, and tells whether an answer is given.
fn is_answered<E, P, O>(seat: &mut OwnSeat<O>, reading: u64, event: E) -> bool
where
    E: Drop,
    P: Drop,
    O: Object<Event = Turn<E>, Outcome = Report<P>>,
{
    let desk = OwnDesk::new();
    let kept = KeptDesk::new(&desk);
    matches!(kept.ask(seat, reading, event), Answer::Kept(_))
}

/// Asks the events of the session up to a moment, and tells that of the last one to which an answer
/// was given.
fn run(rt: &(impl Abort + AllocGlobal), object: Kept, last: u64) -> (Kept, u64) {
    let mut seat = OwnSeat::new(object);
    let mut moment = OPENED;
    let mut answered = OPENED;
    for line in SESSION.lines() {
        moment = moment.saturating_add(1);
        if moment <= last && is_answered(&mut seat, moment, event_of(rt, line)) {
            answered = moment;
        }
    }
    (seat.into_object(), answered)
}

/// How many contents a crash might have left up to the answer to the event of a moment, but for the
/// one that it leaves then.
fn contents_before(rt: &(impl Abort + AllocGlobal), moment: u64) -> usize {
    let (object, _answered) = run(rt, opened(rt, 0), moment);
    object.file().images().len().saturating_sub(1)
}

fn reopened(rt: &(impl Abort + AllocGlobal), bytes: &[u8]) -> Entity<IndexTree> {
    let alloc = rt.alloc();
    let mut file = file_of(rt, bytes, 0);
    let played = play_back(alloc, &mut file, home(rt), IndexTree::new(alloc));
    let Played { entity, .. } = played.expect(rt, "a journal");
    entity
}

/// An item that was looked at, and of which it isn't said yet that it is sent, is there to be sent
/// next.
fn assert_waits(rt: &(impl Abort + AllocGlobal), entity: &Entity<IndexTree>) {
    let next = entity.outbox.first_to_send(&entity.tree);
    for (looked, sent, number) in SENT {
        if looked <= entity.last.saturating_add(1) && entity.last < sent {
            assert!(rt; next.is_some_and(|item| item.number == number));
        }
    }
}

/// What a crash has left opens as the CSE that the first events of the session made, and among
/// these is each one up to a moment.
fn assert_holds(
    rt: &(impl Abort + AllocGlobal),
    pictures: &[Vec<u8>],
    bytes: &[u8],
    answered: u64,
) {
    let entity = reopened(rt, bytes);
    let done = entity.last;
    assert_waits(rt, &entity);
    let there = picture(rt, entity);
    assert_eq!(rt; there.as_slice(), picture_by(rt, pictures, done));
    // What was answered behind that moment changed nothing but the moment.
    assert_eq!(rt;
        there.as_slice(),
        picture_by(rt, pictures, done.max(answered))
    );
}

/// Where the call of a number fails, each content that a crash may leave from the last answer on
/// holds what was answered. Tells whether that call is made.
fn assert_keeps(rt: &(impl Abort + AllocGlobal), pictures: &[Vec<u8>], call: u64) -> bool {
    let (object, answered) = run(rt, opened(rt, call), LAST);
    let before = contents_before(rt, answered);
    for content in object.file().images().iter().skip(before) {
        assert_holds(rt, pictures, content, answered);
    }
    assert_eq!(rt; object.is_failed(), answered < LAST);
    object.is_failed()
}

/// The file fails at each call of a session of fifty requests. Whichever it is, each content that a
/// crash may leave then opens as the CSE that the first of the requests made, among which is each
/// one that was answered.
#[test]
fn each_call_that_fails_leaves_what_was_answered(rt: HostRuntime) -> Result<(), Fail> {
    let pictures = pictures(&rt)?;
    let mut calls = 0u64;
    for call in OPENING_CALLS + 1..MOST_CALLS {
        if assert_keeps(&rt, &pictures, call) {
            calls = calls.saturating_add(1);
        }
    }
    // Each event that is written down takes five.
    assert!(rt; calls >= 150 && calls % 5 == 0);
    Ok(())
}
