//! The resources of an entity as it opens.
ghost use Rattle.std.specs.Prelude.{◌≡◌, ◌≤◌, [], ◌∷◌, ◌++◌, IfOk, OnOk, IsUtf8, IsTrue};
ghost use Rattle.m2m_names.specs.Stamps.{last_moment};
ghost use Rattle.m2m_value.specs.Data as json;
ghost use Rattle.tree_model.specs.Tree.{may_stand};
ghost use Rattle.policy_eval.specs.Rules as policies;
ghost use Rattle.entity_model.specs.Opening as spec;

use crate::contents::object_of_one;
use m2m_names::{ALL_BITS, Attr, LAST_MOMENT, Ty};
use m2m_value::{Items, MemberKey, Members, Text, Val};
use resource_model::id_text;
use std::alloc::{AllocError as OutOfMemory, Global};
use tree_model::{Attrs, Home, Moments, Resource, Tree};

/// The number of the CSEBase.
const BASE_NUMBER: u64 = 1;

/// The number of the administrator's policy.
const ADMIN_POLICY: u64 = 2;

// A list of one text.
fn list_of(alloc: Global, text: Text) -> Result<Val, OutOfMemory>
    requires { IsUtf8 text }
    ensures { IfOk result (λ v. v ≡ json.list (json.elements_of (json.text text ∷ []))) }
{
    let mut items = Vec::with_capacity(alloc, 1)?;
    items.push(Val::of_text(text))?;
    Ok(Val::of_list(Items::of(items)))
}

fn written_rule(alloc: Global, who: Text, bits: u32) -> Result<Val, OutOfMemory>
    requires { IsUtf8 who }
    ensures { IfOk result (λ v. v ≡ policies.written_rule who bits) }
{
    let mut members = Vec::with_capacity(alloc, 2)?;
    members.push((MemberKey::named("acop"), Val::of_num(bits as i64)))?;
    members.push((MemberKey::named("acor"), list_of(alloc, who)?))?;
    Ok(Val::of_obj(Members::of(members)))
}

fn written_rules(alloc: Global, rules: Vec<Val>) -> Result<Val, OutOfMemory>
    ensures { IfOk result (λ v. v ≡ policies.written_rules rules.items) }
{
    object_of_one(alloc, "acr", Val::of_list(Items::of(rules)))
}

// The administrator may do all.
fn admin_rule(alloc: Global, home: &Home) -> Result<Val, OutOfMemory>
    ensures { IfOk result (λ v. v ≡ spec.admin_rule home.now) }
{
    written_rule(alloc, home.admin().copy(alloc)?, ALL_BITS)
}

// Everyone may create.
fn entry_rule(alloc: Global) -> Result<Val, OutOfMemory>
    ensures { IfOk result (λ v. v ≡ spec.entry_rule) }
{
    written_rule(alloc, Text::from_slice(alloc, b"all")?, 1)
}

fn opening_pv(alloc: Global, home: &Home) -> Result<Val, OutOfMemory>
    ensures { IfOk result (λ v. v ≡ spec.opening_pv home.now) }
{
    let mut rules = Vec::with_capacity(alloc, 2)?;
    rules.push(admin_rule(alloc, home)?)?;
    rules.push(entry_rule(alloc)?)?;
    written_rules(alloc, rules)
}

fn opening_pvs(alloc: Global, home: &Home) -> Result<Val, OutOfMemory>
    ensures { IfOk result (λ v. v ≡ spec.opening_pvs home.now) }
{
    let mut rules = Vec::with_capacity(alloc, 1)?;
    rules.push(admin_rule(alloc, home)?)?;
    written_rules(alloc, rules)
}

fn policy_attrs(alloc: Global, home: &Home) -> Result<Attrs, OutOfMemory>
    ensures { IfOk result (λ a. a ≡ spec.policy_rows home.now) }
{
    let mut attrs = Attrs::new(alloc);
    attrs.set(Attr::Pv, opening_pv(alloc, home)?)?;
    attrs.set(Attr::Pvs, opening_pvs(alloc, home)?)?;
    Ok(attrs)
}

fn base_attrs(alloc: Global) -> Result<Attrs, OutOfMemory>
    ensures { IfOk result (λ a. a ≡ spec.opening_rows) }
{
    let mut attrs = Attrs::new(alloc);
    attrs.set(
        Attr::Acpi,
        list_of(
            alloc,
            id_text(alloc, Ty::AccessControlPolicy, ADMIN_POLICY)?,
        )?,
    )?;
    Ok(attrs)
}

// It is created at the moment, and expires at the last one.
fn moments_from(moment: u64) -> Moments
    ensures { result ≡ record { ct = moment; lt = moment; et = last_moment } }
{
    Moments {
        ct: moment,
        lt: moment,
        et: LAST_MOMENT,
    }
}

fn opening_base(alloc: Global, home: &Home, moment: u64) -> Result<Resource, OutOfMemory>
    requires { moment ≤ last_moment }
    ensures { IfOk result (λ r. r ≡ spec.opening_base home.now moment) }
{
    let name = home.base().copy(alloc)?;
    let owner = home.admin().copy(alloc)?;
    let attrs = base_attrs(alloc)?;
    let moments = moments_from(moment);
    Ok(Resource::of(BASE_NUMBER, Ty::CseBase, name, 0, owner, moments, attrs))
}

fn opening_policy(alloc: Global, home: &Home, moment: u64) -> Result<Resource, OutOfMemory>
    requires { moment ≤ last_moment }
    ensures { IfOk result (λ r. r ≡ spec.opening_policy home.now moment) }
{
    let name = Text::from_slice(alloc, b"acpAdmin")?;
    let owner = home.admin().copy(alloc)?;
    let attrs = policy_attrs(alloc, home)?;
    let moments = moments_from(moment);
    Ok(Resource::of(
        ADMIN_POLICY,
        Ty::AccessControlPolicy,
        name,
        BASE_NUMBER,
        owner,
        moments,
        attrs,
    ))
}

fn put_last<T: Tree>(tree: &mut T, resource: Resource) -> Result<(), OutOfMemory>
    requires { IsTrue (may_stand (T.nodes tree.old) resource) }
    ensures { OnOk result (T.nodes tree.new ≡ T.nodes tree.old ++ resource ∷ []) }
{
    match tree.insert(resource) {
        Ok(()) => Ok(()),
        Err((_, fault)) => Err(fault),
    }
}

// Puts the two resources of the opening into an empty tree.
pub(crate) fn put_opening<T: Tree>(
    alloc: Global,
    home: &Home,
    tree: &mut T,
    moment: u64,
) -> Result<(), OutOfMemory>
    requires none { T.nodes tree.old ≡ [] }
    requires moment { moment ≤ last_moment }
    ensures { OnOk result (T.nodes tree.new ≡ spec.opening_nodes home.now moment) }
{
    put_last(tree, opening_base(alloc, home, moment)?)?;
    put_last(tree, opening_policy(alloc, home, moment)?)
}
