//! What is said to payloads.

use cse_machine::{Event, Outcome};
use cse_server::Served;
use desk_replies::Plainly;
use entity_model::Entity;
use m2m_io::{MemClock, MemLink};
use m2m_value::Text;
use resource_model::Home;
use resource_tree::IndexTree;
use std::alloc::{AllocError as OutOfMemory, AllocGlobal, Global};
use std::process::Abort;
use std::test::Fail;
use turn_desk::{Object, OwnDesk, OwnSeat};
use ws_binding::{MemTalker, TalkEnded, serve_talk};

const NOW: u64 = 1_700_000_000;

const RETRIEVE: &str = r#"{"fr":"CAdmin","op":2,"rqi":"r1","to":"cse-in"}"#;

const BASE: &str =
    r#"{"pc":{"m2m:cb":{"acpi":["acp2"],"csi":"/id-in","cst":1,"ct":"20231114T221320","lt":"20231114T221320","pi":"","ri":"cb1","rn":"cse-in","srt":[1,2,3,4,5,9,15,16,23,10001,10002,10003,10004,10009],"ty":5}},"rqi":"r1","rsc":2000}"#;

// Payloads, and what is said to them.
const ROWS: [(&str, &str); 7] = [
    (RETRIEVE, BASE),
    (r#"{"op":9,"rqi":"r2"}"#, r#"{"rqi":"r2","rsc":4000}"#),
    ("{", r#"{"rsc":4000}"#),
    ("", r#"{"rsc":4000}"#),
    (r#"{"op":2,"rqi":7}"#, r#"{"rsc":4000}"#),
    (r#"["rqi"]"#, r#"{"rsc":4000}"#),
    (RETRIEVE, BASE),
];

fn payloads(alloc: Global) -> Result<Vec<Text>, OutOfMemory> {
    let mut payloads = Vec::new(alloc);
    for (payload, _) in ROWS {
        payloads.push(Text::from_slice(alloc, payload.as_bytes())?)?;
    }
    Ok(payloads)
}

// A talk with an object that nobody else asks.
fn talk_alone<O>(
    alloc: Global,
    seat: &mut OwnSeat<O>,
    talker: &mut MemTalker,
    clock: &mut MemClock,
    link: &mut MemLink,
) -> TalkEnded
where
    O: Object<Event = Event, Outcome = Outcome>,
{
    let desk = OwnDesk::new();
    serve_talk(alloc, &desk, seat, talker, clock, link, &Plainly)
}

// What is said in a talk with an entity whose calls of these numbers fail, and how it ends.
fn talked(alloc: Global, fails: Vec<u64>) -> Result<(MemTalker, TalkEnded), OutOfMemory> {
    let entity = Entity::open(
        alloc,
        Home::with_defaults(alloc)?,
        IndexTree::new(alloc),
        NOW,
    )?;
    let mut seat = OwnSeat::new(Served::new(alloc, entity));
    let mut readings = Vec::new(alloc);
    readings.push(NOW)?;
    let mut clock = MemClock::new(readings);
    let mut link = MemLink::new(Vec::new(alloc), Vec::new(alloc));
    let mut talker = MemTalker::new(payloads(alloc)?, fails);
    let ended = talk_alone(alloc, &mut seat, &mut talker, &mut clock, &mut link);
    Ok((talker, ended))
}

// The first of the replies, so many, were said.
fn assert_said(rt: &impl Abort, talker: &MemTalker, count: usize) {
    assert!(rt; talker.said().len() == count, "{count} payloads are said");
    for (said, (payload, reply)) in talker.said().iter().zip(ROWS) {
        assert!(rt; said.entries() == reply.as_bytes(), "{payload}");
    }
}

/// Each payload has its reply, in order; one that is no request is refused, and the talk goes on.
#[test]
fn each_payload_has_its_reply(rt: HostRuntime) -> Result<(), Fail> {
    let (talker, ended) = talked(rt.alloc(), Vec::new(rt.alloc()))?;
    assert!(&rt; ended == TalkEnded::Closed, "the talk is closed");
    assert_said(&rt, &talker, ROWS.len());
    Ok(())
}

/// A talk ends at the call that fails: here the second reply isn't said.
#[test]
fn a_fault_ends_the_talk(rt: HostRuntime) -> Result<(), Fail> {
    let mut fails = Vec::new(rt.alloc());
    fails.push(4)?;
    let (talker, ended) = talked(rt.alloc(), fails)?;
    assert!(&rt; ended == TalkEnded::Failed, "the talk failed");
    assert_said(&rt, &talker, 1);
    Ok(())
}
