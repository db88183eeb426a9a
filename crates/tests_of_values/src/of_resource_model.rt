//! What an entity may be called, and resources that are copied and named.
use crate::lines::{parts, word};
use m2m_names::{Attr, Ty};
use m2m_value::{Text, Val};
use resource_model::{Attrs, Home, HomeFault, Moments, OutOfMemory, Resource};
use std::alloc::{AllocGlobal, Global};
use std::process::Abort;
use std::test::Fail;

// Names that are tried in the place of `sp.example`, `id-in`, `cse-in`, 1 and `CAdmin`, and the
// place of the first that is bad.
const TOLD: &str = "\
sp sp.example => kept
sp  => bad 0
sp sp example => bad 0
csi id-mn => kept
csi id/in => bad 1
csi .. => bad 1
base cnt7x => kept
base la => bad 2
base cnt7 => bad 2
cst 2 => kept
cst 0 => bad 3
cst 4 => bad 3
admin /id-in/C* => kept
admin  => bad 4
admin C Admin => bad 4
both ~ => bad 2";

// The service provider, the CSE-ID, the name of the base, the type of CSE and the administrator.
type Names<'a> = (&'a str, &'a str, &'a str, i64, &'a str);

fn home_of(alloc: Global, names: Names<'_>) -> Result<Home, HomeFault> {
    let (sp, csi, base, cst, admin) = names;
    Home::new(
        alloc,
        sp.as_bytes(),
        csi.as_bytes(),
        base.as_bytes(),
        cst,
        admin.as_bytes(),
    )
}

fn has_names(home: &Home, names: Names<'_>) -> bool {
    let (sp, csi, base, cst, admin) = names;
    home.sp().entries() == sp.as_bytes()
        && home.csi().entries() == csi.as_bytes()
        && home.base().entries() == base.as_bytes()
        && home.cst() == cst
        && home.admin().entries() == admin.as_bytes()
}

/// Whether a copy of the home has the names.
fn kept(alloc: Global, home: &Home, names: Names<'_>) -> Result<String, OutOfMemory> {
    let kept = has_names(&home.copy(alloc)?, names);
    word(alloc, if kept { "kept" } else { "lost" })
}

fn home(alloc: Global, names: Names<'_>) -> Result<String, OutOfMemory> {
    match home_of(alloc, names) {
        Ok(home) => kept(alloc, &home, names),
        Err(HomeFault::Bad(place)) => format!(in alloc; "bad {place}"),
        Err(HomeFault::OutOfMemory) => Err(OutOfMemory),
    }
}

fn told(alloc: Global, asked: &str, text: &str) -> Result<String, OutOfMemory> {
    match asked {
        "sp" => home(alloc, (text, "id-in", "cse-in", 1, "CAdmin")),
        "csi" => home(alloc, ("sp.example", text, "cse-in", 1, "CAdmin")),
        "base" => home(alloc, ("sp.example", "id-in", text, 1, "CAdmin")),
        "cst" => {
            let cst = text.parse::<i64>().unwrap_or(0);
            home(alloc, ("sp.example", "id-in", "cse-in", cst, "CAdmin"))
        }
        "admin" => home(alloc, ("sp.example", "id-in", "cse-in", 1, text)),
        _ => home(alloc, ("sp.example", "id-in", text, 9, "")),
    }
}

fn check(rt: &(impl Abort + AllocGlobal), line: &str) -> Result<(), Fail> {
    let (asked, text, want) = parts(rt, line);
    let told = told(rt.alloc(), asked, text)?;
    assert!(rt; told.as_str() == want, "{line}: {told}");
    Ok(())
}

#[test]
fn homes_keep_their_names(rt: HostRuntime) -> Result<(), Fail> {
    for line in TOLD.lines() {
        check(&rt, line)?;
    }
    Ok(())
}

/// A container with two attributes, which expires at 9.
fn container(alloc: Global) -> Result<Resource, OutOfMemory> {
    let moments = Moments {
        ct: 1,
        lt: 2,
        et: 3,
    };
    let name = Text::of(Vec::new(alloc));
    let owner = Text::of(Vec::new(alloc));
    let attrs = Attrs::new(alloc);
    let mut made = Resource::of(4, Ty::Container, name, 3, owner, moments, attrs);
    made.set(Attr::Mni, Val::of_num(4))?;
    made.set(Attr::Mbs, Val::of_num(5))?;
    made.set_et(9);
    Ok(made)
}

fn counts(resource: &Resource) -> (Option<u64>, Option<u64>) {
    let attrs = resource.attrs();
    (attrs.count(Attr::Mni), attrs.count(Attr::Mbs))
}

/// The id of the resource, if a copy of it keeps what is then cleared in it.
fn copied(alloc: Global, resource: &mut Resource) -> Result<Option<Text>, OutOfMemory> {
    let copy = resource.copy(alloc)?;
    resource.clear(Attr::Mbs);
    let kept = copy.et() == 9 && counts(&copy) == (Some(4), Some(5));
    if kept && counts(resource) == (Some(4), None) {
        Ok(Some(copy.id(alloc)?))
    } else {
        Ok(None)
    }
}

#[test]
fn a_resource_is_copied_and_has_an_id(rt: HostRuntime) -> Result<(), Fail> {
    let mut made = container(rt.alloc())?;
    let id = copied(rt.alloc(), &mut made)?.ok_or("the copy differs")?;
    assert!(rt; id.entries() == b"cnt4".as_slice());
    Ok(())
}
