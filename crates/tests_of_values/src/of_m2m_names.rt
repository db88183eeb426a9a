//! Values from outside: dates as a calendar has them, and the tables as they are published.
use crate::lines::{number, parts, word};
use m2m_names::*;
use std::alloc::{AllocError, AllocGlobal, Global};
use std::process::Abort;
use std::test::Fail;

const TOLD: &str = "\
operation 1 => Create 1 1
operation 2 => Retrieve 2 2
operation 3 => Update 3 4
operation 4 => Delete 4 8
operation 5 => Notify 5 16
operation -1 => none
operation 0 => none
operation 6 => none
type 1 => AccessControlPolicy 1 acp m2m:acp
type 2 => Ae 2 ae m2m:ae
type 3 => Container 3 cnt m2m:cnt
type 4 => ContentInstance 4 cin m2m:cin
type 5 => CseBase 5 cb m2m:cb
type 9 => Group 9 grp m2m:grp
type 15 => PollingChannel 15 pch m2m:pch
type 16 => RemoteCse 16 csr m2m:csr
type 23 => Subscription 23 sub m2m:sub
type 10001 => AccessControlPolicyAnnc 10001 acpA m2m:acpA
type 10002 => AeAnnc 10002 aeA m2m:aeA
type 10003 => ContainerAnnc 10003 cntA m2m:cntA
type 10004 => ContentInstanceAnnc 10004 cinA m2m:cinA
type 10009 => GroupAnnc 10009 grpA m2m:grpA
type 0 => none
type 6 => none
type 13 => none
type 24 => none
type 10005 => none
type 65535 => none
code 1000 => Accepted 1000 202
code 2000 => Ok 2000 200
code 2001 => Created 2001 201
code 2002 => Deleted 2002 200
code 2004 => Updated 2004 200
code 4000 => BadRequest 4000 400
code 4004 => NotFound 4004 404
code 4005 => NotAllowed 4005 405
code 4008 => RequestTimeout 4008 408
code 4103 => NoPrivilege 4103 403
code 4105 => Conflict 4105 409
code 4108 => BadChild 4108 403
code 5000 => Internal 5000 500
code 5001 => NotImplemented 5001 501
code 5103 => NotReachable 5103 404
code 5203 => NotSubscribable 5203 403
code 5206 => NonBlocking 5206 501
code 5207 => NotAcceptable 5207 406
code 6010 => TooManyMembers 6010 400
code 6011 => WrongMember 6011 400
code 1001 => Other(OtherNumber { number: 1001 }) 1001 500
code 2003 => Other(OtherNumber { number: 2003 }) 2003 200
code 2999 => Other(OtherNumber { number: 2999 }) 2999 200
code 3000 => Other(OtherNumber { number: 3000 }) 3000 500
code 4999 => Other(OtherNumber { number: 4999 }) 4999 400
code 5002 => Other(OtherNumber { number: 5002 }) 5002 500
code 9999 => Other(OtherNumber { number: 9999 }) 9999 500
code 0 => none
code 999 => none
code 10000 => none
code 65535 => none
attribute aa => Aa aa
attribute acpi => Acpi acpi
attribute csi => Csi csi
attribute lbl => Lbl lbl
attribute macp => Macp macp
attribute pvs => Pvs pvs
attribute srt => Srt srt
attribute ty => Ty ty
attribute  => none
attribute a => none
attribute aaa => none
attribute or => none
attribute li => none
attribute LBL => none
attribute rn  => none
stamp 19700101T000000 => 0
stamp 20000229T235959 => 951868799
stamp 20231114T221320 => 1700000000
stamp 20231114T221320,1 => 1700000000
stamp 20231114T221320,123456 => 1700000000
stamp 99991231T235959 => 253402300799
stamp 21000229T000000 => none
stamp 00000101T000000 => none
stamp 19691231T235959 => none
stamp 20230001T000000 => none
stamp 20231301T000000 => none
stamp 20230431T000000 => none
stamp 20230100T000000 => none
stamp 20231114T240000 => none
stamp 20231114T226000 => none
stamp 20231114T221360 => none
stamp 20231114T221320, => none
stamp 20231114T221320,1234567 => none
stamp 20231114T221320.1 => none
stamp 20231114T221320Z => none
stamp 20231114 221320 => none
stamp 20231114T22132 => none
stamp  => none
moment 0 => 19700101T000000
moment 951868799 => 20000229T235959
moment 1700000000 => 20231114T221320
moment 1735689599 => 20241231T235959
moment 253402300799 => 99991231T235959
moment 253402300800 => none
url http://127.0.0.1:9000/n => 21
url http://a => 8
url http://a/ => 8
url http://a-b.c:80/x?y=%20&z => 15
url http://a:1 => 10
url http://a:65535 => 14
url http://a:00001 => 14
url http://a:0 => none
url http://a:65536 => none
url http://a:000001 => none
url http://a: => none
url http://a:8x => none
url http:// => none
url http:///n => none
url http://a_b/ => none
url http://[::1]/ => none
url http://a/ b => none
url http://a/#b => none
url http://a?b => none
url HTTP://a/ => none
url https://a/ => none
url  => none
url http://aaaaaaaaaaaaaaaaaaaaaaaaaaaaaaaaaaaaaaaaaaaaaaaaaaaaaaaaaaaaaaaaaaaaaaaaaaaaaaaa\
    aaaaaaaaaaaaaaaaaaaaaaaaaaaaaaaaaaaaaaaaaaaaaaaaaaaaaaaaaaaaaaaaaaaaaaaaaaaaaaaa\
    aaaaaaaaaaaaaaaaaaaaaaaaaaaaaaaaaaaaaaaaaaaaaaaaaaaaaaaaaaaaaaaaaaaaaaaaaaaaaaaa\
    aaaaaaaaaaaaa => 260
url http://aaaaaaaaaaaaaaaaaaaaaaaaaaaaaaaaaaaaaaaaaaaaaaaaaaaaaaaaaaaaaaaaaaaaaaaaaaaaaaaa\
    aaaaaaaaaaaaaaaaaaaaaaaaaaaaaaaaaaaaaaaaaaaaaaaaaaaaaaaaaaaaaaaaaaaaaaaaaaaaaaaa\
    aaaaaaaaaaaaaaaaaaaaaaaaaaaaaaaaaaaaaaaaaaaaaaaaaaaaaaaaaaaaaaaaaaaaaaaaaaaaaaaa\
    aaaaaaaaaaaaaa => none
url http://aaaaaaaaaa/aaaaaaaaaaaaaaaaaaaaaaaaaaaaaaaaaaaaaaaaaaaaaaaaaaaaaaaaaaaaaaaaaaaaa\
    aaaaaaaaaaaaaaaaaaaaaaaaaaaaaaaaaaaaaaaaaaaaaaaaaaaaaaaaaaaaaaaaaaaaaaaaaaaaaaaa\
    aaaaaaaaaaaaaaaaaaaaaaaaaaaaaaaaaaaaaaaaaaaaaaaaaaaaaaaaaaaaaaaaaaaaaaaaaaaaaaaa\
    aaaaaaaaaaaaaaaaaaaaaaaaaaaaaaaaaaaaaaaaaaaaaaaaaaaaaaaaaaaaaaaaaaaaaaaaaaaaaaaa\
    aaaaaaaaaaaaaaaaaaaaaaaaaaaaaaaaaaaaaaaaaaaaaaaaaaaaaaaaaaaaaaaaaaaaaaaaaaaaaaaa\
    aaaaaaaaaaaaaaaaaaaaaaaaaaaaaaaaaaaaaaaaaaaaaaaaaaaaaaaaaaaaaaaaaaaaaaaaaaaaaaaa\
    aaaaaaaaaaaaaaaaaaaaaaaaa => 17
url http://aaaaaaaaaa/aaaaaaaaaaaaaaaaaaaaaaaaaaaaaaaaaaaaaaaaaaaaaaaaaaaaaaaaaaaaaaaaaaaaa\
    aaaaaaaaaaaaaaaaaaaaaaaaaaaaaaaaaaaaaaaaaaaaaaaaaaaaaaaaaaaaaaaaaaaaaaaaaaaaaaaa\
    aaaaaaaaaaaaaaaaaaaaaaaaaaaaaaaaaaaaaaaaaaaaaaaaaaaaaaaaaaaaaaaaaaaaaaaaaaaaaaaa\
    aaaaaaaaaaaaaaaaaaaaaaaaaaaaaaaaaaaaaaaaaaaaaaaaaaaaaaaaaaaaaaaaaaaaaaaaaaaaaaaa\
    aaaaaaaaaaaaaaaaaaaaaaaaaaaaaaaaaaaaaaaaaaaaaaaaaaaaaaaaaaaaaaaaaaaaaaaaaaaaaaaa\
    aaaaaaaaaaaaaaaaaaaaaaaaaaaaaaaaaaaaaaaaaaaaaaaaaaaaaaaaaaaaaaaaaaaaaaaaaaaaaaaa\
    aaaaaaaaaaaaaaaaaaaaaaaaaa => none
id cb1 => CseBase 1
id cntA20 => ContainerAnnc 20
id cnt9223372036854775807 => Container 9223372036854775807
id cnt9223372036854775808 => none
id cnt0 => Container 0
id cnt07 => none
id cnt => none
id 7 => none
id cnt7x => none
id Cnt7 => none
form  => is
form cse-in => is name free originator
form a123456789-123456789_123456789.123456789~123456789-123456789-123 => is name free originator
form a123456789-123456789_123456789.123456789~123456789-123456789-1234 => is originator
form a b => is
form a/b => is originator
form caf\u{e9} => is
form la => is name originator
form ol => is name originator
form fopt => is name originator
form pcu => is name originator
form - => is name originator
form ~ => is name originator
form _ => is name originator
form . => is name originator
form .. => is name originator
form ... => is name free originator
form cnt7 => is name free id originator
form cntA07 => is name free id originator
form cnt => is name free originator
form cnt7x => is name free originator
form /id-in/C* => is originator
form !!!!!!!!!!!!!!!!!!!!!!!!!!!!!!!!!!!!!!!!!!!!!!!!!!!!!!!!!!!!!!!!!!!!!!!!!!!!!!!!\
    !!!!!!!!!!!!!!!!!!!!!!!!!!!!!!!!!!!!!!!!!!!!!!!!!!!!!!!!!!!!!!!!!!!!!!!!!!!!!!!!\
    !!!!!!!!!!!!!!!!!!!!!!!!!!!!!!!!!!!!!!!!!!!!!!!!!!!!!!!!!!!!!!!!!!!!!!!!!!!!!!!!\
    !!!!!!!!!!!!!!!! => is originator
form !!!!!!!!!!!!!!!!!!!!!!!!!!!!!!!!!!!!!!!!!!!!!!!!!!!!!!!!!!!!!!!!!!!!!!!!!!!!!!!!\
    !!!!!!!!!!!!!!!!!!!!!!!!!!!!!!!!!!!!!!!!!!!!!!!!!!!!!!!!!!!!!!!!!!!!!!!!!!!!!!!!\
    !!!!!!!!!!!!!!!!!!!!!!!!!!!!!!!!!!!!!!!!!!!!!!!!!!!!!!!!!!!!!!!!!!!!!!!!!!!!!!!!\
    !!!!!!!!!!!!!!!!! => is
local C => yes
local /id-in/C => no
local  => no";

fn operation(alloc: Global, text: &str) -> Result<String, AllocError> {
    match Op::from_number(text.parse::<i64>().unwrap_or(0)) {
        Some(op) => format!(in alloc; "{op:?} {} {}", op.number(), op.bit()),
        None => word(alloc, "none"),
    }
}

fn type_row(alloc: Global, text: &str) -> Result<String, AllocError> {
    match Ty::from_number(text.parse::<u32>().unwrap_or(0)) {
        Some(ty) => format!(in alloc; "{ty:?} {} {} {}", ty.number(), ty.word(), ty.member()),
        None => word(alloc, "none"),
    }
}

const CHILDREN: [(Ty, Ty, bool); 7] = [
    (Ty::CseBase, Ty::RemoteCse, true),
    (Ty::Container, Ty::ContentInstance, true),
    (Ty::RemoteCse, Ty::AccessControlPolicyAnnc, true),
    (Ty::ContainerAnnc, Ty::ContentInstanceAnnc, true),
    (Ty::RemoteCse, Ty::ContentInstanceAnnc, false),
    (Ty::Subscription, Ty::Subscription, false),
    (Ty::CseBase, Ty::PollingChannel, false),
];

#[test]
fn children_that_types_take(rt: HostRuntime) {
    for (parent, child, want) in CHILDREN {
        assert!(rt; parent.takes(child) == want);
    }
}

fn code(alloc: Global, text: &str) -> Result<String, AllocError> {
    match Rsc::from_number(text.parse::<u16>().unwrap_or(0)) {
        Some(code) => format!(in alloc; "{code:?} {} {}", code.number(), code.http_status()),
        None => word(alloc, "none"),
    }
}

fn attribute(alloc: Global, text: &str) -> Result<String, AllocError> {
    match Attr::from_short(text) {
        Some(attr) => format!(in alloc; "{attr:?} {}", attr.short()),
        None => word(alloc, "none"),
    }
}

fn moment(alloc: Global, text: &str) -> Result<String, AllocError> {
    let mut out = [b'.'; 15];
    if write_stamp(text.parse::<u64>().unwrap_or(0), &mut out) {
        String::from_str(alloc, std::str::from_utf8(&out).unwrap_or("no text"))
    } else {
        word(alloc, "none")
    }
}

fn host_end(text: &str) -> Option<u64> {
    Some(read_url(text.as_bytes())?.host_end as u64)
}

fn id(alloc: Global, text: &str) -> Result<String, AllocError> {
    match read_id(text.as_bytes()) {
        Some((ty, number)) => format!(in alloc; "{ty:?} {number}"),
        None => word(alloc, "none"),
    }
}

fn form(alloc: Global, text: &str) -> Result<String, AllocError> {
    let text = text.as_bytes();
    let name = if is_name(text) { " name" } else { "" };
    let free = if is_free_name(text) { " free" } else { "" };
    let id = if is_resource_id(text) { " id" } else { "" };
    let originator = if is_originator(text) {
        " originator"
    } else {
        ""
    };
    format!(in alloc; "is{name}{free}{id}{originator}")
}

fn local(alloc: Global, text: &str) -> Result<String, AllocError> {
    let local = is_local_originator(text.as_bytes());
    word(alloc, if local { "yes" } else { "no" })
}

fn told(alloc: Global, asked: &str, text: &str) -> Result<String, AllocError> {
    match asked {
        "operation" => operation(alloc, text),
        "type" => type_row(alloc, text),
        "code" => code(alloc, text),
        "attribute" => attribute(alloc, text),
        "stamp" => number(alloc, read_stamp(text.as_bytes())),
        "moment" => moment(alloc, text),
        "url" => number(alloc, host_end(text)),
        "id" => id(alloc, text),
        "form" => form(alloc, text),
        "local" => local(alloc, text),
        _ => word(alloc, "none"),
    }
}

fn check(rt: &(impl Abort + AllocGlobal), line: &str) -> Result<(), Fail> {
    let (asked, text, want) = parts(rt, line);
    let told = told(rt.alloc(), asked, text)?;
    assert!(rt; told.as_str() == want, "{line}: {told}");
    Ok(())
}

#[test]
fn names_are_told_as_they_are_published(rt: HostRuntime) -> Result<(), Fail> {
    for line in TOLD.lines() {
        check(&rt, line)?;
    }
    Ok(())
}
