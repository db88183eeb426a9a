//! What requests ask of a tree of 20,000 containers beside each other.
ghost use Rattle.std.specs.Prelude.{◌≡◌, []};

use counted_tree::CountedTree;
use cse_machine::{Event, Outcome, step};
use entity_model::Entity;
use m2m_value::{read, write};
use plain_tree::ListTree;
use primitive_json::{Request, reply_into, request_from};
use resource_model::Home;
use resource_tree::IndexTree;
use std::alloc::{AllocError as OutOfMemory, AllocGlobal, Global};
use std::process::Abort;
use std::test::Fail;
use tree_model::Tree;

const MANY: u64 = 20_000;

// The most calls of the tree that a request may make. One that goes over the containers makes as
// many as there are.
const MOST_CALLS: u64 = 40;

// The most that a fan-out to two members here may make.
const MOST_CALLS_OF_A_FAN_OUT: u64 = 80;

const FIRST: &str =
    r#"100 {"op":1,"to":"cse-in","fr":"CDev","rqi":"r","ty":2,"pc":{"m2m:ae":{"api":"N1","rn":"dev","rr":true}}}"#;

const SUBSCRIPTION: &str =
    r#"100 {"op":1,"to":"cse-in/dev","fr":"CDev","rqi":"r","ty":23,"pc":{"m2m:sub":{"rn":"s","nu":["http://127.0.0.1:9/n"]}}}"#;

const LAST: &str =
    r#"100 {"op":1,"to":"cse-in/dev","fr":"CDev","rqi":"r","ty":3,"pc":{"m2m:cnt":{"rn":"last"}}}"#;

// When a request comes, and what it asks for: Retrieves by name, by id and by AE-ID, one that is
// refused, one of nothing, one with descendants, one with references and one of the subscription;
// Creates, the last of which pushes out an instance; the newest and the oldest instance; a group, a
// fan-out to its members that creates and one that retrieves; a discovery below a container;
// Updates, the second of which pushes out an instance; a Delete; a Create that is refused since its
// name is taken; an access control policy, an Update that names it and a Retrieve that it allows; a
// subscription, a polling channel, a Create of which it is told, a poll that is given that, an
// Update of the subscription, a Notify to the application entity and its poll, a poll that is given
// nothing, and a Delete of the subscription; another CSE, and a Retrieve and a Notify that go on to
// it; and a Retrieve before which a container expires.
const ASKED: &str = r#"100 {"op":2,"to":"cse-in/dev/last","fr":"CDev","rqi":"r"}
100 {"op":2,"to":"cnt5","fr":"CDev","rqi":"r"}
100 {"op":2,"to":"CDev/last","fr":"CDev","rqi":"r"}
100 {"op":2,"to":"cse-in/dev/last","fr":"COther","rqi":"r"}
100 {"op":2,"to":"cse-in/dev/none","fr":"CDev","rqi":"r"}
100 {"op":2,"to":"cse-in/dev/last","fr":"CDev","rqi":"r","rcn":4}
100 {"op":2,"to":"cse-in/dev/last","fr":"CDev","rqi":"r","rcn":5}
100 {"op":2,"to":"cse-in/dev/s","fr":"CDev","rqi":"r"}
100 {"op":1,"to":"cse-in/dev/last","fr":"CDev","rqi":"r","ty":3,"pc":{"m2m:cnt":{"rn":"d","mni":1}}}
100 {"op":1,"to":"cse-in/dev/last/d","fr":"CDev","rqi":"r","ty":4,"pc":{"m2m:cin":{"con":"a"}}}
100 {"op":1,"to":"cse-in/dev/last/d","fr":"CDev","rqi":"r","ty":4,"pc":{"m2m:cin":{"con":"b"}}}
100 {"op":2,"to":"cse-in/dev/last/d/la","fr":"CDev","rqi":"r"}
100 {"op":2,"to":"cse-in/dev/last/d/ol","fr":"CDev","rqi":"r"}
100 {"op":1,"to":"cse-in/dev","fr":"CDev","rqi":"r","ty":9,"pc":{"m2m:grp":{"rn":"g","mnm":3,"mid":["cse-in/dev/last","cnt5","/id-mn/x"]}}}
100 {"op":1,"to":"cse-in/dev/g/fopt","fr":"CDev","rqi":"r","ty":4,"pc":{"m2m:cin":{"con":"c"}}}
100 {"op":2,"to":"cse-in/dev/g/fopt/la","fr":"CDev","rqi":"r"}
100 {"op":2,"to":"cse-in/dev/last","fr":"CDev","rqi":"r","fc":{"fu":1,"ty":4}}
100 {"op":3,"to":"cse-in/dev/last","fr":"CDev","rqi":"r","pc":{"m2m:cnt":{"lbl":["x"]}}}
100 {"op":3,"to":"cse-in/dev/last/d","fr":"CDev","rqi":"r","pc":{"m2m:cnt":{"mni":0}}}
100 {"op":4,"to":"cse-in/dev/last/d","fr":"CDev","rqi":"r"}
100 {"op":1,"to":"cse-in","fr":"COther","rqi":"r","ty":2,"pc":{"m2m:ae":{"api":"N2","rn":"other","rr":true}}}
100 {"op":1,"to":"cse-in/dev","fr":"CDev","rqi":"r","ty":3,"pc":{"m2m:cnt":{"rn":"c7"}}}
100 {"op":1,"to":"cse-in/dev","fr":"CDev","rqi":"r","ty":1,"pc":{"m2m:acp":{"rn":"p","pv":{"acr":[{"acor":["CDev"],"acop":63},{"acor":["COther"],"acop":2}]},"pvs":{"acr":[{"acor":["CDev"],"acop":63}]}}}}
100 {"op":3,"to":"cse-in/dev/last","fr":"CDev","rqi":"r","pc":{"m2m:cnt":{"acpi":["cse-in/dev/p"]}}}
100 {"op":2,"to":"cse-in/dev/last","fr":"COther","rqi":"r"}
100 {"op":1,"to":"cse-in/dev/last","fr":"CDev","rqi":"r","ty":23,"pc":{"m2m:sub":{"rn":"t","nu":["CDev"],"enc":{"net":[3]}}}}
100 {"op":1,"to":"cse-in/dev","fr":"CDev","rqi":"r","ty":15,"pc":{"m2m:pch":{"rn":"q"}}}
100 {"op":1,"to":"cse-in/dev/last","fr":"CDev","rqi":"r","ty":4,"pc":{"m2m:cin":{"con":"d"}}}
100 {"op":2,"to":"cse-in/dev/q/pcu","fr":"CDev","rqi":"r"}
100 {"op":3,"to":"cse-in/dev/last/t","fr":"CDev","rqi":"r","pc":{"m2m:sub":{"enc":{"net":[3,4]}}}}
100 {"op":5,"to":"cse-in/dev","fr":"CDev","rqi":"r","pc":{"m2m:sgn":{"sur":"cse-in/dev/last/t"}}}
100 {"op":2,"to":"cse-in/dev/q/pcu","fr":"CDev","rqi":"r"}
100 {"op":2,"to":"cse-in/dev/q/pcu","fr":"CDev","rqi":"r"}
100 {"op":4,"to":"cse-in/dev/last/t","fr":"CDev","rqi":"r"}
100 {"op":1,"to":"cse-in","fr":"CAdmin","rqi":"r","ty":16,"pc":{"m2m:csr":{"rn":"mn","csi":"/id-mn","cb":"/id-mn/cse-mn","poa":["http://127.0.0.1:9"],"rr":true}}}
100 {"op":2,"to":"/id-mn/cse-mn","fr":"CDev","rqi":"r"}
100 {"op":5,"to":"/id-mn/x","fr":"CDev","rqi":"r","pc":{"m2m:sgn":{"sur":"s"}}}
100 {"op":1,"to":"cse-in/dev","fr":"CDev","rqi":"r","ty":3,"pc":{"m2m:cnt":{"rn":"e","et":"19700101T000330"}}}
300 {"op":2,"to":"cse-in/dev/e","fr":"CDev","rqi":"r"}"#;

// What a request is told, and how many calls of the tree it makes.
#[derive(Drop)]
struct Answer {
    told: Vec<u8>,
    calls: u64,
}

fn request(alloc: Global, text: &str) -> Result<Request, OutOfMemory> {
    let value = read(alloc, text.as_bytes()).map_err(|_| OutOfMemory)?;
    request_from(alloc, value).map_err(|_| OutOfMemory)
}

// What an outcome tells: the text of the reply, or where the request goes on to.
fn text_of(alloc: Global, outcome: Outcome) -> Result<Vec<u8>, OutOfMemory> {
    let mut told = Vec::new(alloc);
    match outcome {
        Outcome::Done(reply) => write(&reply_into(alloc, reply)?, &mut told)?,
        Outcome::Forward {
            poa,
            request: _request,
        } => told.extend_from_slice(poa.entries())?,
        Outcome::Item(_item) => {}
        Outcome::Ticked | Outcome::Starved { .. } => {}
    }
    Ok(told)
}

// What a request at a reading is told.
fn reply<T: Tree>(
    alloc: Global,
    entity: &mut Entity<T>,
    reading: u64,
    text: &str,
) -> Result<Vec<u8>, OutOfMemory> {
    let event = Event::Ask(request(alloc, text)?);
    let outcome = step(alloc, entity, reading, &event);
    text_of(alloc, outcome)
}

// The same by a line: the reading, and the request.
fn told<T: Tree>(
    alloc: Global,
    entity: &mut Entity<T>,
    line: &str,
) -> Result<Vec<u8>, OutOfMemory> {
    match line.split_once(" ") {
        Some((reading, text)) => reply(alloc, entity, reading.parse::<u64>().unwrap_or(0), text),
        None => Ok(Vec::new(alloc)),
    }
}

// One application with a subscription, so many containers beside each other, and a last one.
fn grow<T: Tree>(alloc: Global, entity: &mut Entity<T>, count: u64) -> Result<(), OutOfMemory> {
    told(alloc, entity, FIRST)?;
    told(alloc, entity, SUBSCRIPTION)?;
    for k in 0..count {
        let members = format!(in alloc; "\"ty\":3,\"pc\":{{\"m2m:cnt\":{{\"rn\":\"c{k}\"}}}}")?;
        let head = r#"{"op":1,"to":"cse-in/dev","fr":"CDev","rqi":"r","rcn":0,"#;
        reply(
            alloc,
            entity,
            100,
            format!(in alloc; "{head}{members}}}")?.as_str(),
        )?;
    }
    told(alloc, entity, LAST)?;
    Ok(())
}

// A CSE over an empty tree, which many containers and the last one are put into.
fn grown<T: Tree>(alloc: Global, tree: T) -> Result<Entity<T>, OutOfMemory>
    requires { T.nodes tree ≡ [] }
{
    let mut entity = Entity::open(alloc, Home::with_defaults(alloc)?, tree, 100)?;
    grow(alloc, &mut entity, MANY)?;
    Ok(entity)
}

// What is answered to a line over a tree that counts its calls.
fn answer_to<T: Tree>(
    alloc: Global,
    entity: &mut Entity<CountedTree<T>>,
    line: &str,
) -> Result<Answer, OutOfMemory> {
    let before = entity.tree.calls();
    let told = told(alloc, entity, line)?;
    let calls = entity.tree.calls().saturating_sub(before);
    Ok(Answer { told, calls })
}

// How many calls the request of this line may make.
fn most_calls(line: &str) -> u64 {
    if line.contains("/fopt") {
        MOST_CALLS_OF_A_FAN_OUT
    } else {
        MOST_CALLS
    }
}

// Both trees give equal replies, and few calls are made.
fn assert_alike(
    rt: &(impl Abort + AllocGlobal),
    plain: &mut Entity<CountedTree<ListTree>>,
    indexed: &mut Entity<IndexTree>,
    line: &str,
) -> Result<(), OutOfMemory> {
    let answer = answer_to(rt.alloc(), plain, line)?;
    let told = told(rt.alloc(), indexed, line)?;
    assert!(rt; !told.is_empty() && told == answer.told, "{line}");
    let calls = answer.calls;
    assert!(rt; calls <= most_calls(line), "{line}: {calls} calls");
    Ok(())
}

/// How many calls a request makes is the same over each tree, so that one of them counts.
#[test]
fn a_request_makes_few_calls_and_both_trees_give_equal_replies(
    rt: HostRuntime,
) -> Result<(), Fail> {
    let alloc = rt.alloc();
    let mut plain = grown(alloc, CountedTree::of(ListTree::new(alloc)))?;
    let mut indexed = grown(alloc, IndexTree::new(alloc))?;
    for line in ASKED.lines() {
        assert_alike(&rt, &mut plain, &mut indexed, line)?;
    }
    Ok(())
}
