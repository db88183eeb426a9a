//! Values of each kind and near misses, the columns of each type, and contents with their answers.
use crate::lines::{parsed, parts, word};
use attribute_rules::*;
use m2m_names::{Attr, Ty};
use m2m_value::{Text, Val, write};
use resource_model::{Attrs, Moments, OutOfMemory, Resource};
use std::alloc::{AllocGlobal, Global};
use std::process::Abort;
use std::test::Fail;

// Of each type the attributes, in the order of their names: the short name, the kind of what a
// request gives or `cse` where none does, M, O or - for a creation and for an update, + where it
// can be announced.
const COLUMNS: &str = "\
columns acp all => aa:labels:OO at:csis:OO ct:cse:-- et:stamp:OO lbl:labels:OO lt:cse:-- \
    pi:cse:-- pv:rules:MM+ pvs:rules:MM+ ri:cse:-- rn:name:O- ty:cse:--
columns ae all => aa:labels:OO acpi:policies:OO aei:cse:--+ api:label:M-+ apn:text:OO+ \
    at:csis:OO ct:cse:-- et:stamp:OO lbl:labels:OO lt:cse:-- pi:cse:-- poa:points:OO+ ri:cse:-- \
    rn:name:O- rr:bool:MM+ srv:labels:OO ty:cse:--
columns cnt all => aa:labels:OO acpi:policies:OO at:csis:OO cbs:cse:-- cni:cse:-- cr:null:O- \
    ct:cse:-- et:stamp:OO lbl:labels:OO lt:cse:-- mbs:count:OO+ mia:count:OO+ mni:count:OO+ \
    pi:cse:-- ri:cse:-- rn:name:O- st:cse:-- ty:cse:--
columns cin all => aa:labels:OO at:csis:OO cnf:text:O-+ con:content:M-+ cr:null:O- cs:cse:--+ \
    ct:cse:-- et:stamp:OO lbl:labels:OO lt:cse:-- pi:cse:-- ri:cse:-- rn:name:O- st:cse:-- \
    ty:cse:--
columns cb all => ct:cse:-- lt:cse:-- pi:cse:-- ri:cse:-- srt:cse:-- ty:cse:--
columns grp all => aa:labels:OO acpi:policies:OO at:csis:OO cnm:cse:-- cr:null:O- csy:1-3:O-+ \
    ct:cse:-- et:stamp:OO gn:text:OO+ lbl:labels:OO lt:cse:-- macp:policies:OO mid:points:MM+ \
    mnm:count:MM+ mt:mt:O- mtv:cse:-- pi:cse:-- ri:cse:-- rn:name:O- ty:cse:--
columns pch all => ct:cse:-- et:stamp:OO lbl:labels:OO lt:cse:-- pi:cse:-- ri:cse:-- rn:name:O- \
    ty:cse:--
columns csr all => acpi:policies:OO cb:label:M- csi:csi:M- cst:1-3:O- ct:cse:-- et:stamp:OO \
    lbl:labels:OO lt:cse:-- pi:cse:-- poa:points:OO ri:cse:-- rn:name:O- rr:bool:MM \
    srv:labels:OO ty:cse:--
columns sub all => acpi:policies:OO cr:null:O- ct:cse:-- enc:criteria:OO et:stamp:OO \
    lbl:labels:OO lt:cse:-- nct:1-3:OO nu:target:MM pi:cse:-- ri:cse:-- rn:name:O- su:label:O- \
    ty:cse:--
columns acpA all => acpi:policies:OO ct:cse:-- et:stamp:OO lbl:labels:OO lnk:label:M- lt:cse:-- \
    pi:cse:-- pv:rules:OO pvs:rules:OO ri:cse:-- rn:name:O- ty:cse:--
columns aeA all => acpi:policies:OO aei:label:OO api:label:OO apn:text:OO ct:cse:-- et:stamp:OO \
    lbl:labels:OO lnk:label:M- lt:cse:-- pi:cse:-- poa:points:OO ri:cse:-- rn:name:O- rr:bool:OO \
    ty:cse:--
columns cntA all => acpi:policies:OO ct:cse:-- et:stamp:OO lbl:labels:OO lnk:label:M- lt:cse:-- \
    mbs:count:OO mia:count:OO mni:count:OO pi:cse:-- ri:cse:-- rn:name:O- ty:cse:--
columns cinA all => acpi:policies:OO cnf:text:OO con:content:OO cs:count:OO ct:cse:-- \
    et:stamp:OO lbl:labels:OO lnk:label:M- lt:cse:-- pi:cse:-- ri:cse:-- rn:name:O- ty:cse:--
columns grpA all => acpi:policies:OO csy:1-3:OO ct:cse:-- et:stamp:OO gn:text:OO lbl:labels:OO \
    lnk:label:M- lt:cse:-- mid:points:OO mnm:count:OO pi:cse:-- ri:cse:-- rn:name:O- ty:cse:--";

// Of each type: a value of an attribute's kind, and a near miss; creations with the fewest
// attributes and with each that they may name, and updates with each, null where they can clear it;
// the fault of a creation and of an update, each once, and then two at a time; contents that are
// none; and what a creation wants and an update changes.
const CONTENTS: &str = r#"value ae lbl ["k","v"] => yes
value ae lbl ["k",1] => no
value ae apn "" => yes
value ae apn null => no
value ae api "k:v w" => yes
value ae api "" => no
value ae rr false => yes
value ae rr 0 => no
value cnt mni 9223372036854775807 => yes
value cnt mni -1 => no
value sub nct 3 => yes
value sub nct 4 => no
value csr csi "/la" => yes
value csr csi "/a/b" => no
value cnt at ["/a","/b"] => yes
value cnt at ["/a","b"] => no
value sub cr "/id-in/C1*" => yes
value sub cr "C 1" => no
value cnt acpi ["acp2",""] => yes
value cnt acpi ["acp2",2] => no
value ae poa ["http://h:80/p","C1"] => yes
value ae poa ["a b"] => no
value sub nu ["C1"] => yes
value sub nu ["C1","C1"] => no
value acp pv {"acr":[{"acor":["C1"],"acop":63}]} => yes
value acp pv {"acr":[{"acor":["C1"],"acop":64}]} => no
value sub enc {"atr":[],"net":[1]} => yes
value sub enc {"net":[]} => no
value grp mt 10009 => yes
value grp mt 6 => no
value cin con {"a":null} => yes
value cin con null => no
creates cnt "rn":"c-1._~Z" => yes
creates cnt "rn":"la" => no
creates cnt "et":"20240229T235959" => yes
creates cnt "et":"20230229T000000" => no
creates acp "pv":{"acr":[]},"pvs":{"acr":[]} => yes
creates acp "aa":["pv"],"pv":{"acr":[]},"pvs":{"acr":[{"acor":["C1"],"acop":63}]} => yes
creates acp "at":["/a"],"pv":{"acr":[]},"pvs":{"acr":[{"acor":["C1"],"acop":63}]} => yes
creates acp "et":"20240229T235959","pv":{"acr":[]},"pvs":{"acr":[{"acor":["C1"],"acop":63}]} => yes
creates acp "lbl":["l"],"pv":{"acr":[]},"pvs":{"acr":[{"acor":["C1"],"acop":63}]},"rn":"n" => yes
updates acp "aa":null,"at":null,"et":null,"lbl":null,"pv":{"acr":[]},"pvs":{"acr":[]} => yes
creates ae "api":"N1","rr":true => yes
creates ae "aa":["poa"],"acpi":["acp2"],"api":"N1","apn":"","at":[],"rr":false => yes
creates ae "api":"N1","et":"20240229T235959","lbl":[],"poa":["http://h/"],"rr":false => yes
creates ae "api":"N1","rn":"n","rr":false,"srv":["2a"] => yes
updates ae "aa":null,"apn":null,"at":null,"et":null,"lbl":null,"poa":null,"rr":false => yes
updates ae "srv":null => yes
creates cnt  => yes
keeps cnt "mia":1,"mni":2 => yes
creates cnt "aa":[],"acpi":[],"at":[],"cr":null,"et":"20240229T235959","lbl":[],"mbs":0 => yes
creates cnt "mia":1,"mni":2,"rn":"n" => yes
updates cnt "aa":null,"at":null,"et":null,"lbl":null,"mbs":null,"mia":null,"mni":null => yes
creates cin "con":0 => yes
creates cin "aa":["con"],"at":[],"cnf":"text/plain:0","con":"x","cr":null => yes
creates cin "con":"x","et":"20240229T235959","lbl":[],"rn":"n" => yes
updates cin "aa":null,"at":null,"et":null,"lbl":null => yes
creates cb  => yes
updates cb  => yes
creates grp "mid":[],"mnm":1 => yes
creates grp "aa":[],"acpi":["acp2"],"at":[],"cr":null,"csy":1,"mid":["cnt4"],"mnm":1 => yes
creates grp "et":"20240229T235959","gn":"g","lbl":[],"macp":[],"mid":["cnt4"],"mnm":1,"mt":3 => yes
creates grp "mid":["cnt4"],"mnm":1,"rn":"n" => yes
updates grp "aa":null,"at":null,"et":null,"gn":null,"lbl":null,"macp":null,"mid":[],"mnm":0 => yes
creates pch  => yes
creates pch "et":"20240229T235959","lbl":[],"rn":"n" => yes
updates pch "et":null,"lbl":null => yes
creates csr "cb":"/a/b","csi":"/a","rr":true => yes
creates csr "acpi":[],"cb":"/a/b","csi":"/a","cst":3,"et":"20240229T235959","rr":true => yes
creates csr "cb":"/a/b","csi":"/a","lbl":[],"poa":[],"rn":"n","rr":true,"srv":[] => yes
updates csr "et":null,"lbl":null,"poa":null,"rr":true,"srv":null => yes
creates sub "nu":["C1"] => yes
creates sub "acpi":[],"cr":null,"enc":{"net":[1]},"et":"20240229T235959","nu":["C1"] => yes
creates sub "exc":1,"lbl":[],"nct":1,"nu":["C1"],"rn":"n","su":"C1" => yes
updates sub "enc":null,"et":null,"exc":null,"lbl":null,"nct":null,"nu":["C2"] => yes
creates acpA "lnk":"/a/acp4" => yes
creates acpA "acpi":[],"et":"20240229T235959","lbl":[],"lnk":"/a/acp4","pv":{"acr":[]} => yes
creates acpA "lnk":"/a/acp4","pvs":{"acr":[]},"rn":"n" => yes
updates acpA "et":null,"lbl":null,"pv":null,"pvs":null => yes
creates aeA "lnk":"/a/ae4" => yes
creates aeA "acpi":[],"aei":"C 1","api":"N1","apn":"","et":"20240229T235959","lnk":"/a/ae4" => yes
creates aeA "lbl":[],"lnk":"/a/ae4","poa":[],"rn":"n","rr":true => yes
updates aeA "aei":null,"api":null,"apn":null,"et":null,"lbl":null,"poa":null,"rr":null => yes
creates cntA "lnk":"/a/cnt4" => yes
creates cntA "acpi":[],"et":"20240229T235959","lbl":[],"lnk":"/a/cnt4","mbs":1,"mia":1 => yes
creates cntA "lnk":"/a/cnt4","mni":1,"rn":"n" => yes
updates cntA "et":null,"lbl":null,"mbs":null,"mia":null,"mni":6 => yes
creates cinA "lnk":"/a/cin4" => yes
creates cinA "acpi":[],"cnf":"","con":[],"cs":2,"et":"20240229T235959","lnk":"/a/cin4" => yes
creates cinA "lbl":[],"lnk":"/a/cin4","rn":"n" => yes
updates cinA "cnf":null,"con":null,"cs":null,"et":null,"lbl":null => yes
creates grpA "lnk":"/a/grp4" => yes
creates grpA "acpi":[],"csy":1,"et":"20240229T235959","gn":"","lbl":[],"lnk":"/a/grp4" => yes
creates grpA "lnk":"/a/grp4","mid":[],"mnm":1,"rn":"n" => yes
updates grpA "csy":null,"et":null,"gn":null,"lbl":null,"mid":null,"mnm":null => yes
create cnt "x":1 => Unknown x
create sub "exc":0,"nu":["C1"] => Kind exc
create cb "srt":[] => NotAllowed srt
create cnt "st":1 => NotAllowed st
create cnt "mni":-1 => Kind mni
create cnt "cr":"C1" => Kind cr
create cnt "lbl":null => Kind lbl
create grp "mnm":1 => Missing mid
create aeA "rr":true => Missing lnk
create ae "b":1,"d":1 => Unknown b
create cb "acpi":[],"ty":5 => Unknown acpi
create ae "ri":"","x":1 => Unknown x
create ae "api":1,"b":1 => Unknown b
create ae "b":1,"rr":true => Unknown b
create ae "aei":"","ri":"" => NotAllowed aei
create ae "api":1,"ri":"","rr":true => NotAllowed ri
create ae "api":"N1","ri":"" => NotAllowed ri
create cnt "mbs":-1,"mni":-1 => Kind mbs
create grp "gn":1,"mid":[] => Kind gn
create grp "mid":1 => Kind mid
create grp  => Missing mnm
create csr "rr":true => Missing cb
update cnt "a":1 => Unknown a
update sub "exc":0 => Kind exc
update ae "api":null => NotAllowed api
update cin "con":null => NotAllowed con
update ae "rr":null => Kind rr
update cnt "acpi":null,"lbl":[] => AcpiNotAlone
update cnt "a":1,"rn":"n" => Unknown a
update cnt "a":1,"lbl":1 => Unknown a
update cnt "a":1,"acpi":[] => Unknown a
update cnt "cr":null,"lbl":1 => NotAllowed cr
update cnt "acpi":[],"cr":null => NotAllowed cr
update cnt "acpi":[],"lbl":1 => Kind lbl
update cnt "acpi":1,"lbl":1 => Kind acpi
update grp "mid":null,"mnm":null => Kind mid
whole cnt [] => Shape
whole cnt {} => Shape
whole cnt {"m2m:cnt":[]} => Shape
whole cnt {"m2m:cin":{}} => Shape
whole cnt {"m2m:cnt":{"x":1},"m2m:d":{}} => Shape
create grp "cr":null,"et":"19700101T000010","mid":[],"mnm":1,"rn":"n" => true 10 mid[]mnm1
create grp "acpi":[],"lbl":[],"macp":["acp2"],"mid":[],"mnm":1 => false 0 lbl[]macp["acp2"]mid[]mnm1
update grp "et":"19700101T000010","gn":null,"macp":[] => et"19700101T000010" gn macp
update grp "gn":"g","lbl":["l"],"mnm":1 => gn"g"lbl["l"]mnm1"#;

// All short names, in the order of bytes.
const NAMES: &str = "\
    aa acpi aei api apn at cb cbs cnf cni cnm con cr cs csi cst csy ct enc et gn lbl lnk lt macp \
    mbs mia mid mni mnm mt mtv nct nu pi poa pv pvs ri rn rr srt srv st su ty";

fn kind_word(kind: Kind) -> &'static str {
    match kind {
        Kind::Name => "name",
        Kind::Stamp => "stamp",
        Kind::Text => "text",
        Kind::Label => "label",
        Kind::Labels => "labels",
        Kind::Bool => "bool",
        Kind::Count => "count",
        Kind::OneOf(1, 3) => "1-3",
        Kind::OneOf(_, _) => "other-range",
        Kind::CseId => "csi",
        Kind::CseIds => "csis",
        Kind::Originator => "originator",
        Kind::Policies => "policies",
        Kind::Points => "points",
        Kind::Target => "target",
        Kind::Rules => "rules",
        Kind::Criteria => "criteria",
        Kind::MemberType => "mt",
        Kind::Content => "content",
    }
}

fn source_word(source: Source) -> &'static str {
    match source {
        Source::Given(kind) | Source::Apart(kind) => kind_word(kind),
        Source::Creator => "null",
        Source::Assigned(_) | Source::Derived => "cse",
    }
}

fn column_word(column: Optionality) -> &'static str {
    match column {
        Optionality::Mandatory => "M",
        Optionality::Optional => "O",
        Optionality::NotPermitted => "-",
    }
}

// What the table says of an attribute, as `COLUMNS` has it.
fn row(alloc: Global, short: &str, rule: Rule) -> Result<String, OutOfMemory> {
    let source = source_word(rule.source);
    let create = column_word(rule.create);
    let update = column_word(rule.update);
    let announced = if rule.announced { "+" } else { "" };
    format!(in alloc; "{short}:{source}:{create}{update}{announced} ")
}

fn rule_text(alloc: Global, ty: Ty, short: &str) -> Result<String, OutOfMemory> {
    match Attr::from_short(short).and_then(|attr| rule_of(ty, attr)) {
        Some(rule) => row(alloc, short, rule),
        None => word(alloc, ""),
    }
}

// The same of all attributes of a type.
fn columns(alloc: Global, ty: Ty) -> Result<String, OutOfMemory> {
    let mut text = String::new(alloc);
    for short in NAMES.split_whitespace() {
        text.push_str(rule_text(alloc, ty, short)?.as_str())?;
    }
    Ok(text)
}

fn has_kind(ty: Ty, short: &str, value: &Val) -> bool {
    match Attr::from_short(short).and_then(|attr| kind_of(ty, attr)) {
        Some(kind) => kind.has(value),
        None => false,
    }
}

// Whether an attribute that the type keeps may have this value.
fn value(alloc: Global, ty: Ty, text: &str) -> Result<String, OutOfMemory> {
    match text.split_once(' ') {
        Some((short, json)) => {
            let has = has_kind(ty, short, &parsed(alloc, json)?);
            word(alloc, if has { "yes" } else { "no" })
        }
        None => word(alloc, "no value"),
    }
}

// The content that names these attributes of a type.
fn content(alloc: Global, ty: Ty, attrs: &str) -> Result<Val, OutOfMemory> {
    let text = format!(in alloc; "{{\"{}\":{{{attrs}}}}}", ty.member())?;
    parsed(alloc, text.as_str())
}

// Whether a creation by these attributes is admitted, whose wants can be taken then.
fn creates(alloc: Global, ty: Ty, attrs: &str) -> Result<String, OutOfMemory> {
    let content = content(alloc, ty, attrs)?;
    match attributes_in(ty, &content) {
        Some(named) if are_admitted(Writing::Create, ty, named) => {
            let _wanted = wanted_in(alloc, ty, named)?;
            word(alloc, "yes")
        }
        _ => word(alloc, "no"),
    }
}

// The same of an update.
fn updates(alloc: Global, ty: Ty, attrs: &str) -> Result<String, OutOfMemory> {
    let content = content(alloc, ty, attrs)?;
    match attributes_in(ty, &content) {
        Some(named) if are_admitted(Writing::Update, ty, named) => {
            let _edit = edit_in(alloc, ty, named)?;
            word(alloc, "yes")
        }
        _ => word(alloc, "no"),
    }
}

// The fault, and the key or the attribute that it names.
fn fault_text(alloc: Global, fault: AttrFault) -> Result<String, OutOfMemory> {
    match fault {
        AttrFault::Shape => word(alloc, "Shape"),
        AttrFault::Unknown(key) => {
            let name = std::str::from_utf8(key.entries()).unwrap_or("");
            format!(in alloc; "Unknown {name}")
        }
        AttrFault::NotAllowed(attr) => format!(in alloc; "NotAllowed {}", attr.short()),
        AttrFault::Kind(attr) => format!(in alloc; "Kind {}", attr.short()),
        AttrFault::Missing(attr) => format!(in alloc; "Missing {}", attr.short()),
        AttrFault::AcpiNotAlone => word(alloc, "AcpiNotAlone"),
        AttrFault::OutOfMemory => Err(OutOfMemory),
    }
}

// The short names.
fn names(alloc: Global, attrs: &[Attr]) -> Result<String, OutOfMemory> {
    let mut text = String::new(alloc);
    for attr in attrs {
        text.push_str(attr.short())?;
        text.push_str(" ")?;
    }
    Ok(text)
}

// The short names, each with its value.
fn values(alloc: Global, attrs: &Attrs) -> Result<String, OutOfMemory> {
    let mut text = Vec::new(alloc);
    for row in attrs.entries() {
        text.extend_from_slice(row.0.short().as_bytes())?;
        write(&row.1, &mut text)?;
    }
    String::from_utf8_lossy(alloc, text.as_slice())
}

// What a creation wants: whether it keeps the originator, the moment of expiry, the attributes.
fn wish(alloc: Global, wanted: &Wanted) -> Result<String, OutOfMemory> {
    let attrs = values(alloc, &wanted.attrs)?;
    let et = wanted.et.unwrap_or(0);
    format!(in alloc; "{} {et} {attrs}", wanted.creator)
}

// What a creation by this content wants, or its first fault.
fn creation(alloc: Global, ty: Ty, content: Val) -> Result<String, OutOfMemory> {
    match admit_create(alloc, ty, content) {
        Ok(wanted) => wish(alloc, &wanted),
        Err(fault) => fault_text(alloc, fault),
    }
}

// A resource of these attributes.
fn resource(alloc: Global, ty: Ty, attrs: Attrs) -> Resource {
    let moments = Moments {
        ct: 0,
        lt: 0,
        et: 0,
    };
    let name = Text::of(Vec::new(alloc));
    let owner = Text::of(Vec::new(alloc));
    Resource::of(1, ty, name, 0, owner, moments, attrs)
}

// Whether these attributes are of the kinds that the type keeps.
fn kept(alloc: Global, ty: Ty, attrs: Attrs) -> Result<String, OutOfMemory> {
    let kept = keeps_kinds(&resource(alloc, ty, attrs));
    word(alloc, if kept { "yes" } else { "no" })
}

// Whether what a creation by this content wants is kept.
fn keeps(alloc: Global, ty: Ty, content: Val) -> Result<String, OutOfMemory> {
    match admit_create(alloc, ty, content) {
        Ok(wanted) => kept(alloc, ty, wanted.attrs),
        Err(fault) => fault_text(alloc, fault),
    }
}

// What an update changes: the attributes that it gives a value, and those that it clears.
fn changes(alloc: Global, edit: &Edit) -> Result<String, OutOfMemory> {
    let sets = values(alloc, &edit.sets)?;
    let clears = names(alloc, edit.clears.entries())?;
    format!(in alloc; "{sets} {clears}")
}

// What an update by this content changes, or its first fault.
fn update(alloc: Global, ty: Ty, content: Val) -> Result<String, OutOfMemory> {
    match admit_update(alloc, ty, content) {
        Ok(edit) => changes(alloc, &edit),
        Err(fault) => fault_text(alloc, fault),
    }
}

fn told(alloc: Global, asked: &str, ty: Ty, text: &str) -> Result<String, OutOfMemory> {
    match asked {
        "columns" => columns(alloc, ty),
        "value" => value(alloc, ty, text),
        "creates" => creates(alloc, ty, text),
        "keeps" => keeps(alloc, ty, content(alloc, ty, text)?),
        "updates" => updates(alloc, ty, text),
        "create" => creation(alloc, ty, content(alloc, ty, text)?),
        "update" => update(alloc, ty, content(alloc, ty, text)?),
        _ => creation(alloc, ty, parsed(alloc, text)?),
    }
}

fn check(rt: &(impl Abort + AllocGlobal), line: &str) -> Result<(), Fail> {
    let (asked, text, want) = parts(rt, line);
    let (ty, text) = text.split_once(' ').ok_or("no type")?;
    let ty = Ty::from_word(ty.as_bytes()).ok_or("an unknown type")?;
    let told = told(rt.alloc(), asked, ty, text)?;
    assert!(rt; told.as_str().trim() == want.trim(), "{line}: {told}");
    Ok(())
}

#[test]
fn each_type_has_the_rows_of_the_table(rt: HostRuntime) -> Result<(), Fail> {
    for line in COLUMNS.lines() {
        check(&rt, line)?;
    }
    Ok(())
}

#[test]
fn contents_are_admitted_or_told_their_first_fault(rt: HostRuntime) -> Result<(), Fail> {
    for line in CONTENTS.lines() {
        check(&rt, line)?;
    }
    Ok(())
}
