//! The session: what is asked of the CSE, one event a second.
use cse_machine::{Event, step};
use entity_model::Entity;
use journal_events::KeptEvent;
use m2m_value::read;
use primitive_json::request_from;
use resource_model::Home;
use resource_tree::IndexTree;
use std::alloc::{AllocGlobal, Global};
use std::process::Abort;

/// Fifty requests, and the sender, which takes an item now and then. Among them: what changes
/// nothing (refused, absent, a discovery, the newest instance); a container that expires before a
/// refused request, and one that expires before a poll; a subscription of which an URL and a
/// polling channel are told; polls, which take what they are given; instances that push others out;
/// and a fan-out.
pub(crate) const SESSION: &str =
    r#"{"op":1,"to":"cse-in","fr":"CDev","rqi":"1","ty":2,"pc":{"m2m:ae":{"api":"N1","rn":"dev","rr":true}}}
{"op":1,"to":"cse-in/dev","fr":"CDev","rqi":"2","ty":3,"pc":{"m2m:cnt":{"rn":"data","mni":3}}}
{"op":1,"to":"cse-in/dev","fr":"CDev","rqi":"3","ty":3,"pc":{"m2m:cnt":{"rn":"short","et":"19700101T000327"}}}
{"op":1,"to":"cse-in/dev/data","fr":"CDev","rqi":"4","ty":4,"pc":{"m2m:cin":{"rn":"one","con":"1"}}}
{"op":1,"to":"cse-in/dev","fr":"CDev","rqi":"5","ty":15,"pc":{"m2m:pch":{"rn":"q"}}}
{"op":1,"to":"cse-in/dev/data","fr":"CDev","rqi":"6","ty":23,"pc":{"m2m:sub":{"rn":"told","nu":["CDev"],"enc":{"net":[1,3]}}}}
{"op":4,"to":"cse-in/dev/data","fr":"COther","rqi":"7"}
{"op":1,"to":"cse-in/dev/none","fr":"CDev","rqi":"8","ty":4,"pc":{"m2m:cin":{"con":"2"}}}
{"op":2,"to":"cse-in","fr":"CDev","rqi":"9","fc":{"fu":1,"ty":4}}
{"op":2,"to":"cse-in/dev/data/la","fr":"CDev","rqi":"10"}
{"op":3,"to":"cse-in/dev","fr":"CDev","rqi":"11","pc":{"m2m:ae":{"lbl":["a"]}}}
{"op":1,"to":"cse-in/dev","fr":"CDev","rqi":"12","ty":3,"pc":{"m2m:cnt":{"rn":"more"}}}
{"op":1,"to":"cse-in/dev/more","fr":"CDev","rqi":"13","ty":23,"pc":{"m2m:sub":{"rn":"sent","nu":["http://127.0.0.1:1/"],"enc":{"net":[3]}}}}
{"op":1,"to":"cse-in/dev","fr":"CDev","rqi":"14","ty":9,"pc":{"m2m:grp":{"rn":"g","mnm":3,"mid":["cse-in/dev/data","cse-in/dev/more"]}}}
{"op":1,"to":"cse-in/dev/g/fopt","fr":"CDev","rqi":"15","ty":4,"pc":{"m2m:cin":{"con":"3"}}}
next
sent 2
{"op":2,"to":"cse-in/dev/q/pcu","fr":"CDev","rqi":"16"}
{"op":1,"to":"cse-in/dev","fr":"CDev","rqi":"17","ty":3,"pc":{"m2m:cnt":{"rn":"brief","et":"19700101T000346"}}}
{"op":1,"to":"cse-in/dev/data","fr":"CDev","rqi":"18","ty":4,"pc":{"m2m:cin":{"con":"4"}}}
{"op":1,"to":"cse-in/dev/data","fr":"CDev","rqi":"19","ty":4,"pc":{"m2m:cin":{"con":"5"}}}
{"op":3,"to":"cse-in/dev/data","fr":"CDev","rqi":"20","pc":{"m2m:cnt":{"lbl":["b"]}}}
{"op":2,"to":"cse-in/dev/data/ol","fr":"CDev","rqi":"21"}
{"op":1,"to":"cse-in/dev/data","fr":"CDev","rqi":"22","ty":4,"pc":{"m2m:cin":{"rn":"six","con":"6"}}}
{"op":4,"to":"cse-in/dev/data/six","fr":"CDev","rqi":"23"}
{"op":2,"to":"cse-in/dev/q/pcu","fr":"CDev","rqi":"24"}
{"op":2,"to":"cse-in/dev/q/pcu","fr":"CDev","rqi":"25"}
{"op":1,"to":"cse-in/dev/more","fr":"CDev","rqi":"26","ty":4,"pc":{"m2m:cin":{"con":"7"}}}
{"op":1,"to":"cse-in/dev/more","fr":"CDev","rqi":"27","ty":4,"pc":{"m2m:cin":{"con":"8"}}}
next
sent 7
next
sent 8
next
{"op":1,"to":"cse-in/dev","fr":"CDev","rqi":"28","ty":1,"pc":{"m2m:acp":{"rn":"p","pv":{"acr":[{"acor":["COther"],"acop":2}]},"pvs":{"acr":[{"acor":["CDev"],"acop":63}]}}}}
{"op":3,"to":"cse-in/dev/more","fr":"CDev","rqi":"29","pc":{"m2m:cnt":{"acpi":["cse-in/dev/p"]}}}
{"op":2,"to":"cse-in/dev/more/la","fr":"COther","rqi":"30"}
{"op":1,"to":"cse-in/dev/more","fr":"COther","rqi":"31","ty":4,"pc":{"m2m:cin":{"con":"9"}}}
{"op":3,"to":"cse-in/dev/p","fr":"CDev","rqi":"32","pc":{"m2m:acp":{"pv":{"acr":[{"acor":["COther"],"acop":3}]}}}}
{"op":1,"to":"cse-in/dev/more","fr":"COther","rqi":"33","ty":4,"pc":{"m2m:cin":{"con":"10"}}}
{"op":4,"to":"cse-in/dev/data/one","fr":"CDev","rqi":"34"}
{"op":3,"to":"cse-in/dev/data","fr":"CDev","rqi":"35","pc":{"m2m:cnt":{"mni":1}}}
{"op":2,"to":"cse-in/dev/g/fopt/la","fr":"CDev","rqi":"36"}
{"op":3,"to":"cse-in/dev/g","fr":"CDev","rqi":"37","pc":{"m2m:grp":{"mid":["cse-in/dev/data"]}}}
{"op":1,"to":"cse-in/dev/g/fopt","fr":"CDev","rqi":"38","ty":4,"pc":{"m2m:cin":{"con":"11"}}}
{"op":2,"to":"cse-in/dev/data","fr":"CDev","rqi":"39","rcn":4}
{"op":3,"to":"cse-in/dev/data/told","fr":"CDev","rqi":"40","pc":{"m2m:sub":{"enc":{"net":[1]}}}}
{"op":2,"to":"cse-in/dev/q/pcu","fr":"CDev","rqi":"41"}
{"op":1,"to":"cse-in/dev/data","fr":"CDev","rqi":"42","ty":4,"pc":{"m2m:cin":{"con":"12"}}}
{"op":3,"to":"cse-in/dev/data","fr":"CDev","rqi":"43","pc":{"m2m:cnt":{"lbl":null}}}
{"op":2,"to":"cse-in/dev/none","fr":"CDev","rqi":"44"}
{"op":4,"to":"cse-in/dev/more","fr":"CDev","rqi":"45"}
next
sent 9
{"op":1,"to":"cse-in","fr":"COther","rqi":"46","ty":2,"pc":{"m2m:ae":{"api":"N2","rn":"other","rr":true}}}
{"op":1,"to":"cse-in/other","fr":"COther","rqi":"47","ty":3,"pc":{"m2m:cnt":{"rn":"own"}}}
{"op":3,"to":"cse-in/dev","fr":"COther","rqi":"48","pc":{"m2m:ae":{"lbl":["c"]}}}
{"op":2,"to":"cse-in/other/own","fr":"COther","rqi":"49"}
{"op":4,"to":"cse-in/dev","fr":"CDev","rqi":"50"}"#;

/// The moment at which the CSE opens, in seconds since 1970.
pub(crate) const OPENED: u64 = 200;

/// The moment of the last event.
pub(crate) const LAST: u64 = 259;

/// The moments at which the sender looks for an item, and says that it is sent; and its number.
pub(crate) const SENT: [(u64, u64, u64); 4] = [
    (216, 217, 2),
    (230, 231, 7),
    (232, 233, 8),
    (253, 254, 9),
];

fn request_of(rt: &(impl Abort + AllocGlobal), line: &str) -> Event {
    let value = read(rt.alloc(), line.as_bytes()).expect(rt, "a value");
    Event::Ask(request_from(rt.alloc(), value).expect(rt, "a request"))
}

/// The event of a line.
pub(crate) fn event_of(rt: &(impl Abort + AllocGlobal), line: &str) -> KeptEvent {
    if line == "next" {
        return KeptEvent::Next;
    }
    match line.strip_prefix("sent ") {
        Some(number) => KeptEvent::Sent(number.parse::<u64>().expect(rt, "a number")),
        None => KeptEvent::OfMachine(request_of(rt, line)),
    }
}

/// What the machine is asked for the event of a line.
fn machine_event(rt: &(impl Abort + AllocGlobal), line: &str) -> Event {
    match event_of(rt, line) {
        KeptEvent::OfMachine(event) => event,
        KeptEvent::Next => Event::Tick,
        KeptEvent::Sent(_) => Event::Take,
    }
}

pub(crate) fn home(rt: &(impl Abort + AllocGlobal)) -> Home {
    Home::with_defaults(rt.alloc()).expect(rt, "a home")
}

fn begun(rt: &(impl Abort + AllocGlobal)) -> Entity<IndexTree> {
    let alloc = rt.alloc();
    Entity::open(alloc, home(rt), IndexTree::new(alloc), OPENED).expect(rt, "an entity")
}

/// The entity that the session makes up to a moment, where nothing fails.
pub(crate) fn made_by(rt: &(impl Abort + AllocGlobal), last: u64) -> Entity<IndexTree> {
    let mut entity = begun(rt);
    let mut moment = OPENED;
    for line in SESSION.lines() {
        moment = moment.saturating_add(1);
        if moment <= last {
            let _outcome = step(rt.alloc(), &mut entity, moment, &machine_event(rt, line));
        }
    }
    entity
}
