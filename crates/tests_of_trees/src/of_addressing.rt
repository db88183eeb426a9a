//! Addresses as they are written, what they name and how they print; the short form of an
//! originator, and where a resource stands.
ghost use Rattle.std.specs.Prelude.{◌≡◌, ◌<◌};

use crate::lines::{number, word};
use crate::samples::{parts, sample};
use addressing::*;
use m2m_value::Text;
use plain_tree::ListTree;
use std::alloc::{AllocError, AllocGlobal, Global};
use std::marker::Brand;
use std::process::Abort;
use std::sync::ledger::{Blank, Ledger};
use std::test::Fail;
use tree_model::{Home, Steps, Tree, stands_in};

// Among them names of 64 and of 65 bytes, and addresses of 512 and of 513.
const TOLD: &str = "\
names cse-in => resource 1
names - => resource 1
names /id-in => resource 1
names //sp.example/id-in => resource 1
names cse-in/dev/c => resource 4
names cse-in/- => nothing
names //sp.example/id-in/cnt4 => resource 4
names /id-in/CDev/c => resource 4
names cse-in/CDev => nothing
names cnt10 => resource 12
names cin11 => nothing
names cse-in/dev/short => nothing
names cnt04 => nothing
names ae4 => nothing
names cnt4/la => resource 7
names cnt4/ol => resource 6
names cnt5/la => nothing
names grp8/fopt => fan 8 2
names cse-in/dev/g/fopt/la => fan 8 4
names cnt4/fopt => nothing
names pch9/pcu => poll 9
names pch9/pcu/x => nothing
names /id-mn => foreign
names /id-in2/cse-in => foreign
names //sp.example/la/a => foreign
names //other/id-in/cse-in => other provider
names //la/id-in => other provider
names //other/id-in/a b => shapeless
names //sp.example => shapeless
names ///id-in => shapeless
names /id-in/ => shapeless
names  => shapeless
names cse-in//dev => shapeless
names a123456789-123456789-123456789-123456789-123456789-123456789-123 => nothing
names a123456789-123456789-123456789-123456789-123456789-123456789-1234 => shapeless
names grp8/fopt/a123456789-123456789-123456789-123456789-123456789-123456789-123/\
b123456789-123456789-123456789-123456789-123456789-123456789-123/\
c123456789-123456789-123456789-123456789-123456789-123456789-123/\
d123456789-123456789-123456789-123456789-123456789-123456789-123/\
e123456789-123456789-123456789-123456789-123456789-123456789-123/\
f123456789-123456789-123456789-123456789-123456789-123456789-123/\
g123456789-123456789-123456789-123456789-123456789-123456789-123/\
h123456789-123456789-123456789-123456789-123456 => fan 8 2
names grp8/fopt/a123456789-123456789-123456789-123456789-123456789-123456789-123/\
b123456789-123456789-123456789-123456789-123456789-123456789-123/\
c123456789-123456789-123456789-123456789-123456789-123456789-123/\
d123456789-123456789-123456789-123456789-123456789-123456789-123/\
e123456789-123456789-123456789-123456789-123456789-123456789-123/\
f123456789-123456789-123456789-123456789-123456789-123456789-123/\
g123456789-123456789-123456789-123456789-123456789-123456789-123/\
h123456789-123456789-123456789-123456789-1234567 => too long
short CDev => CDev
short /id-in/CDev => CDev
short //sp.example/id-in/CDev => CDev
short /id-in//id-in/x => /id-in/x
short /id-in => /id-in
short /id-mn/CDev => /id-mn/CDev
short //sp.example/id-mn => /id-mn
short //sp.examples/id-in/x => //sp.examples/id-in/x
short //other/id-in/x => //other/id-in/x
short //sp.example => none
short /id-in/ => none
short //sp.example/id-in/ => none
short  => none
short a b => none
prints cse-in/dev => cse-in/dev
prints /id-mn/x => /id-mn/x
prints //sp.example/id-in/-/la => -/la
prints //sp.example/id-in => /id-in
place 7 => cse-in/dev/c/new";

fn of_addr<L: Ledger>(tree: &ListTree, addr: &Addr, steps: &mut Steps<L>) -> Option<Spot> {
    match addr {
        Addr::Local(_) => resolve(tree, addr, steps),
        _ => None,
    }
}

fn spot_by<L: Ledger>(tree: &ListTree, addr: &Addr, blank: Blank) -> Option<Spot>
    requires name { blank.name ≡ L.name }
    requires parts { blank.parts ≡ L.parts }
    requires some { 0 < blank.parts }
{
    let mut steps = Steps::<L>::new(blank);
    of_addr(tree, addr, &mut steps)
}

fn spot_of(tree: &ListTree, addr: &Addr) -> Option<Spot> {
    spot_by::<Brand>(tree, addr, Blank::new(1))
}

fn spot_text(alloc: Global, spot: Option<Spot>) -> Result<String, AllocError> {
    match spot {
        Some(Spot::Resource(number)) => format!(in alloc; "resource {number}"),
        Some(Spot::Fan { group, rest }) => format!(in alloc; "fan {group} {rest}"),
        Some(Spot::Poll(number)) => format!(in alloc; "poll {number}"),
        None => word(alloc, "nothing"),
    }
}

fn addr_text(alloc: Global, tree: &ListTree, addr: &Addr) -> Result<String, AllocError> {
    match addr {
        Addr::Local(_) => spot_text(alloc, spot_of(tree, addr)),
        Addr::Foreign(_) => word(alloc, "foreign"),
        Addr::OtherProvider => word(alloc, "other provider"),
    }
}

fn fault_text(alloc: Global, fault: AddrFault) -> Result<String, AllocError> {
    match fault {
        AddrFault::TooLong => word(alloc, "too long"),
        AddrFault::Shape => word(alloc, "shapeless"),
        AddrFault::OutOfMemory => Err(AllocError),
    }
}

fn named(alloc: Global, tree: &ListTree, home: &Home, text: &str) -> Result<String, AllocError> {
    match parse(alloc, text.as_bytes(), home) {
        Ok(addr) => addr_text(alloc, tree, &addr),
        Err(fault) => fault_text(alloc, fault),
    }
}

fn printed(alloc: Global, addr: &Addr, home: &Home) -> Result<Text, AllocError> {
    match addr {
        Addr::Local(_) => print(alloc, addr, home),
        Addr::Foreign(_) => print(alloc, addr, home),
        Addr::OtherProvider => Ok(Text::of(Vec::new(alloc))),
    }
}

fn text_in(alloc: Global, text: &Text) -> Result<String, AllocError> {
    String::from_utf8_lossy(alloc, text.entries())
}

/// What is printed of the address that a text is.
fn printed_again(alloc: Global, home: &Home, text: &str) -> Result<String, AllocError> {
    match parse(alloc, text.as_bytes(), home) {
        Ok(addr) => text_in(alloc, &printed(alloc, &addr, home)?),
        Err(fault) => fault_text(alloc, fault),
    }
}

/// The short form of an originator.
fn short<'a>(text: &'a str, home: &Home) -> &'a str {
    match short_fr(text.as_bytes(), home) {
        Some(short) => std::str::from_utf8(short).unwrap_or("no text"),
        None => "none",
    }
}

/// The structured address of a resource.
fn place(alloc: Global, tree: &ListTree, number: u64) -> Result<String, AllocError> {
    if stands_in(tree, number) {
        text_in(alloc, &structured(alloc, tree, number)?)
    } else {
        word(alloc, "nothing")
    }
}

fn told(alloc: Global, tree: &ListTree, asked: &str, text: &str) -> Result<String, AllocError> {
    let home = Home::with_defaults(alloc)?;
    match asked {
        "names" => named(alloc, tree, &home, text),
        "prints" => printed_again(alloc, &home, text),
        "short" => word(alloc, short(text, &home)),
        _ => place(alloc, tree, number(text)),
    }
}

/// The sample after an expiry.
fn expired(alloc: Global) -> Result<ListTree, AllocError> {
    let mut tree = sample(alloc)?;
    tree.expire(300);
    Ok(tree)
}

fn check(rt: &(impl Abort + AllocGlobal), tree: &ListTree, line: &str) -> Result<(), Fail> {
    let (question, want) = parts(rt, line);
    let (asked, text) = question.split_once(' ').ok_or("no word")?;
    let told = told(rt.alloc(), tree, asked, text)?;
    assert!(rt; told.as_str() == want, "{line}: {told}");
    Ok(())
}

#[test]
fn addresses_and_originators_are_told(rt: HostRuntime) -> Result<(), Fail> {
    let tree = expired(rt.alloc())?;
    for line in TOLD.lines() {
        check(&rt, &tree, line)?;
    }
    Ok(())
}
