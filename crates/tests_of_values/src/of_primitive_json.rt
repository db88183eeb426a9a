//! Requests and replies read from JSON and written again, and the first faults of values that are
//! none.
use crate::lines::{parsed, parts, spelled, word};
use filter_criteria::{is_count, is_moment};
use m2m_value::{Text, Val};
use primitive_json::*;
use std::alloc::{AllocGlobal, Global};
use std::process::Abort;
use std::test::Fail;

// What is written of the request or the reply that is read; values that want a member or have two
// faults; members outside their kind; and texts that are request identifiers or none.
const TOLD: &str = r#"read {"op":3,"pc":{"a":null},"rcn":1,"rqi":"r","to":"a"} => same
read {"op":1,"pc":{"m2m:cnt":{}},"rcn":3,"rqi":"~","to":"/a","ty":65535} => same
read {"op":4,"pc":7,"rcn":0,"rqi":"r","to":"a"} => {"op":4,"rcn":0,"rqi":"r","to":"a"}
read {"op":5,"pc":{},"rcn":"any","rqi":"r","to":"a","ty":[]} => {"op":5,"pc":{},"rqi":"r","to":"a"}
read {"da":1,"drt":1,"ec":[],"op":2,"rqi":"r","to":"a"} => {"drt":1,"op":2,"rqi":"r","to":"a"}
read {"gid":{},"oet":"","op":2,"rqi":"r","to":"a"} => {"op":2,"rqi":"r","to":"a"}
read {"drt":2,"op":2,"ot":null,"rqi":"r","to":"a"} => {"drt":2,"op":2,"rqi":"r","to":"a"}
read {"op":2,"rp":true,"rqi":"r","rset":0,"rvi":-1,"to":"a"} => {"op":2,"rqi":"r","to":"a"}
read {"op":2,"rqi":"r","to":"a","vsi":[1]} => {"op":2,"rqi":"r","to":"a"}
read {"fr":"C","op":2,"pc":7,"rqi":"r","to":"a"} => {"fr":"C","op":2,"rqi":"r","to":"a"}
read {"op":2,"rcn":6,"rqi":"r","to":"a","ty":""} => {"op":2,"rcn":6,"rqi":"r","to":"a"}
read {"op":2,"rqi":"r","rt":{"nu":1,"rtv":3},"to":"a"} => {"op":2,"rqi":"r","rt":3,"to":"a"}
read {"op":2,"rqet":"007","rqi":"r","to":"a"} => {"op":2,"rqet":"7","rqi":"r","to":"a"}
read {"op":2,"rqi":"r","rt":-3,"to":"a"} => same
read {"op":2,"rqet":99,"rqi":"r","to":"a"} => {"op":2,"rqet":"99","rqi":"r","to":"a"}
read {"op":2,"rqet":"999999999999999999","rqi":"r","to":"a"} => same
read {"op":2,"rqet":"20240229T235959","rqi":"r","to":"a"} => same
read {"fc":{},"op":2,"rqi":"r","to":"a"} => same
read {"fc":{"lbl":"b"},"op":2,"rqi":"r","to":"a"} => {"fc":{"lbl":["b"]},"op":2,"rqi":"r","to":"a"}
read {"fc":{"ty":3},"op":2,"rqi":"r","to":"a"} => {"fc":{"ty":[3]},"op":2,"rqi":"r","to":"a"}
read {"fc":{"fu":2,"lim":0},"op":2,"rqi":"r","to":"a"} => same
read {"fc":{"fu":1,"lbl":["a","b"],"ty":[2,65535]},"op":2,"rqi":"r","to":"a"} => same
read {"fc":{"lbl":[],"ty":[]},"op":2,"rqi":"r","to":"a"} => {"fc":{},"op":2,"rqi":"r","to":"a"}
read {"fc":{"cra":"19700101T000000","crb":"19700101T000001"},"op":2,"rqi":"r","to":"a"} => same
read {"fc":{"exa":"19700101T000002","exb":"19700101T000003"},"op":2,"rqi":"r","to":"a"} => same
read {"fc":{"ms":"19700101T000004","us":"99991231T235959"},"op":2,"rqi":"r","to":"a"} => same
read {"fc":{"lim":9223372036854775807,"stb":1},"op":2,"rqi":"r","to":"a"} => same
read {"fc":{"sts":2,"sza":3,"szb":4},"op":2,"rqi":"r","to":"a"} => same
read [] => missing op
read {"rqi":"r","to":"a"} => missing op
read {"op":1,"rqi":"r","to":"a","ty":3} => missing pc
read {"op":3,"rqi":"r","to":"a"} => missing pc
read {"op":5,"rqi":"r","to":"a"} => missing pc
read {"op":2,"to":"a"} => missing rqi
read {"op":2,"rqi":"r"} => missing to
read {"op":1,"pc":{},"rqi":"r","to":"a"} => missing ty
read {"op":1} => missing pc
read {"drt":0,"op":2,"rqi":"r"} => missing to
read {"op":9,"rqi":1,"to":"a"} => bad op
read {"fr":"","op":2,"rqi":"r","to":"a","x":1} => bad fr
read {"fc":{},"op":7,"rqi":"r","to":"a"} => bad fc
read {"op":"2","rqi":"r","to":"a"} => bad op
read {"op":0,"rqi":"r","to":"a"} => bad op
read {"op":2,"rqi":"r s","to":"a"} => bad rqi
read {"op":2,"rqi":1,"to":"a"} => bad rqi
read {"op":2,"rqi":"r","to":""} => bad to
read {"op":2,"rqi":"r","to":["a"]} => bad to
read {"op":1,"pc":[],"rqi":"r","to":"a","ty":3} => bad pc
read {"op":5,"pc":null,"rqi":"r","to":"a"} => bad pc
read {"op":1,"pc":{},"rqi":"r","to":"a","ty":65536} => bad ty
read {"op":1,"pc":{},"rqi":"r","to":"a","ty":-1} => bad ty
read {"op":1,"pc":{},"rqi":"r","to":"a","ty":[3]} => bad ty
read {"fc":{},"op":1,"pc":{},"rqi":"r","to":"a","ty":3} => bad fc
read {"fc":{},"op":3,"pc":{},"rqi":"r","to":"a"} => bad fc
read {"fc":{},"op":4,"rqi":"r","to":"a"} => bad fc
read {"fc":{},"op":5,"pc":{},"rqi":"r","to":"a"} => bad fc
read {"op":1,"pc":{},"rcn":4,"rqi":"r","to":"a","ty":3} => bad rcn
read {"op":3,"pc":{},"rcn":2,"rqi":"r","to":"a"} => bad rcn
read {"op":4,"rcn":1,"rqi":"r","to":"a"} => bad rcn
read {"op":2,"rqi":"r","to":"a","drt":3} => bad drt
read {"op":2,"rqi":"r","to":"a","drt":null} => bad drt
read {"op":2,"rqi":"r","to":"a","fr":"a b"} => bad fr
read {"op":2,"rqi":"r","to":"a","fr":7} => bad fr
read {"op":2,"rqi":"r","to":"a","rcn":0} => bad rcn
read {"op":2,"rqi":"r","to":"a","rcn":null} => bad rcn
read {"op":2,"rqi":"r","to":"a","rqet":""} => bad rqet
read {"op":2,"rqi":"r","to":"a","rqet":-1} => bad rqet
read {"op":2,"rqi":"r","to":"a","rqet":"1000000000000000000"} => bad rqet
read {"op":2,"rqi":"r","to":"a","rqet":"20230229T000000"} => bad rqet
read {"op":2,"rqi":"r","to":"a","rt":"3"} => bad rt
read {"op":2,"rqi":"r","to":"a","rt":{"rtv":"3"}} => bad rt
read {"op":2,"rqi":"r","to":"a","rt":{}} => bad rt
read {"op":2,"rqi":"r","to":"a","x":1} => bad x
read {"op":2,"rqi":"r","to":"a","fc":[]} => bad fc
read {"op":2,"rqi":"r","to":"a","fc":{"x":1}} => bad fc
read {"op":2,"rqi":"r","to":"a","fc":{"cra":"1970"}} => bad fc
read {"op":2,"rqi":"r","to":"a","fc":{"crb":1}} => bad fc
read {"op":2,"rqi":"r","to":"a","fc":{"exa":null}} => bad fc
read {"op":2,"rqi":"r","to":"a","fc":{"exb":"19700230T000000"}} => bad fc
read {"op":2,"rqi":"r","to":"a","fc":{"fu":3}} => bad fc
read {"op":2,"rqi":"r","to":"a","fc":{"fu":"1"}} => bad fc
read {"op":2,"rqi":"r","to":"a","fc":{"lbl":["a",""]}} => bad fc
read {"op":2,"rqi":"r","to":"a","fc":{"lbl":[["a"]]}} => bad fc
read {"op":2,"rqi":"r","to":"a","fc":{"lbl":1}} => bad fc
read {"op":2,"rqi":"r","to":"a","fc":{"lim":-1}} => bad fc
read {"op":2,"rqi":"r","to":"a","fc":{"ms":{}}} => bad fc
read {"op":2,"rqi":"r","to":"a","fc":{"stb":true}} => bad fc
read {"op":2,"rqi":"r","to":"a","fc":{"sts":-1}} => bad fc
read {"op":2,"rqi":"r","to":"a","fc":{"sza":"3"}} => bad fc
read {"op":2,"rqi":"r","to":"a","fc":{"szb":[4]}} => bad fc
read {"op":2,"rqi":"r","to":"a","fc":{"ty":[3,65536]}} => bad fc
read {"op":2,"rqi":"r","to":"a","fc":{"ty":"3"}} => bad fc
read {"op":2,"rqi":"r","to":"a","fc":{"us":""}} => bad fc
reply {"rsc":1000} => same
reply {"ot":1,"pc":[null],"rqi":"r","rsc":9999,"to":{}} => {"pc":[null],"rqi":"r","rsc":9999}
reply null => missing rsc
reply {"rqi":""} => missing rsc
reply {"rqi":"","rsc":0} => bad rqi
reply {"rqi":1,"rsc":2000} => bad rqi
reply {"rsc":999} => bad rsc
reply {"rsc":10000} => bad rsc
reply {"rsc":"2000"} => bad rsc
id r => yes
id  => no
id r 1 => no
id é => no
moment 253402300799 => yes
moment 253402300800 => no
count 9223372036854775807 => yes
count 9223372036854775808 => no"#;

/// The kind of a fault, and the name in it.
fn fault_text(alloc: Global, kind: &str, name: &Text) -> Result<String, OutOfMemory> {
    let name = std::str::from_utf8(name.entries()).unwrap_or("");
    format!(in alloc; "{kind} {name}")
}

fn fault(alloc: Global, fault: &PrimFault) -> Result<String, OutOfMemory> {
    match fault {
        PrimFault::Missing(name) => fault_text(alloc, "missing", name),
        PrimFault::Bad(name) => fault_text(alloc, "bad", name),
        PrimFault::OutOfMemory => Err(OutOfMemory),
    }
}

/// The text of a copy of the request.
fn copied(alloc: Global, request: &Request) -> Result<String, OutOfMemory> {
    let copy = request.copy(alloc)?;
    spelled(alloc, &write_request(alloc, &copy)?)
}

/// The text of what was read, copied and written again, or of the fault.
fn request(alloc: Global, read: Result<Request, PrimFault>) -> Result<String, OutOfMemory> {
    match read {
        Ok(request) => copied(alloc, &request),
        Err(wrong) => fault(alloc, &wrong),
    }
}

fn lent(alloc: Global, value: &Val) -> Result<String, OutOfMemory> {
    request(alloc, read_request(alloc, value))
}

fn given(alloc: Global, value: Val) -> Result<String, OutOfMemory> {
    request(alloc, request_from(alloc, value))
}

/// The same of a value that is lent and of one that is given away.
fn read_again(alloc: Global, text: &str) -> Result<String, OutOfMemory> {
    let value = parsed(alloc, text)?;
    let lent = lent(alloc, &value)?;
    let given = given(alloc, value)?;
    if lent.as_str() == given.as_str() {
        Ok(given)
    } else {
        word(alloc, "they differ")
    }
}

fn reply_text(alloc: Global, reply: &Reply) -> Result<String, OutOfMemory> {
    spelled(alloc, &write_reply(alloc, reply)?)
}

fn reply(alloc: Global, text: &str) -> Result<String, OutOfMemory> {
    match read_reply(alloc, &parsed(alloc, text)?) {
        Ok(reply) => reply_text(alloc, &reply),
        Err(wrong) => fault(alloc, &wrong),
    }
}

fn yes_or_no(alloc: Global, fact: bool) -> Result<String, OutOfMemory> {
    word(alloc, if fact { "yes" } else { "no" })
}

fn told(alloc: Global, asked: &str, text: &str) -> Result<String, OutOfMemory> {
    match asked {
        "read" => read_again(alloc, text),
        "reply" => reply(alloc, text),
        "moment" => yes_or_no(alloc, is_moment(text.parse::<u64>().unwrap_or(0))),
        "count" => yes_or_no(alloc, is_count(text.parse::<u64>().unwrap_or(0))),
        _ => yes_or_no(alloc, is_request_id(text.as_bytes())),
    }
}

fn check(rt: &(impl Abort + AllocGlobal), line: &str) -> Result<(), Fail> {
    let (asked, text, want) = parts(rt, line);
    let want = if want == "same" { text } else { want };
    let told = told(rt.alloc(), asked, text)?;
    assert!(rt; told.as_str() == want, "{line}: {told}");
    Ok(())
}

#[test]
fn requests_and_replies_are_read_and_written(rt: HostRuntime) -> Result<(), Fail> {
    for line in TOLD.lines() {
        check(&rt, line)?;
    }
    Ok(())
}
