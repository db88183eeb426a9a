//! The members that a group is to have.
ghost use Rattle.std.specs.Prelude.{◌≡◌, ◌==◌, ◌<◌, ◌&&◌, ◌||◌, ◌∷◌, ◌++◌, [], bytes_eq, length};
ghost use Rattle.std.specs.Prelude.{map, nat_le, pos, IfOk, IfSome, IsUtf8, OnOk, None, Some, ℕ};
ghost use Rattle.std.specs.Prelude.{List, false, option_map, if◌then◌else◌};
ghost use Rattle.std.specs.List.{AllByRecursion, list_all, list_any};
ghost use Rattle.std.specs.Option.{option_map_or};
ghost use Rattle.m2m_names.specs.Ids.{count_bound};
ghost use Rattle.m2m_names.specs.declared.attributes.Attr.TheVariants.{Cnm, Csy, Mid, Mt, Mtv};
ghost use Rattle.m2m_value.specs.Data.{boolean, elements_of, list, number, text};
ghost use Rattle.m2m_value.specs.Shapes.{is_text_of};
ghost use Rattle.resource_model.specs.Resource.{ResourceData};
ghost use Rattle.entity_model.specs.Entity.{EntityData};
ghost use Rattle.entity_model.specs.Places.{first_fault};
ghost use Rattle.policy_eval.specs.Rules.{texts_of};
ghost use Rattle.request_rules.specs.Groups as spec;
ghost use Rattle.request_rules.specs.Groups.{membership_of};
ghost use Rattle.request_rules.specs.Judged.{Judges};
ghost use Rattle.request_rules.specs.Order as order;

use crate::asking::is_ty;
use crate::judging::Refusal;
use crate::membership::Membership;
use crate::policies::{listed, spot_named};
use addressing::{Addr, AddrFault, Spot, parse};
use attribute_rules::{is_named, value_named};
use entity_model::Entity;
use m2m_names::{Attr, Rsc, Ty};
use m2m_value::{Items, Members, Text, Val};
use policy_eval::listed_in;
use std::alloc::{AllocError as OutOfMemory, Global};
use tree_model::{Home, Resource, Tree};

/// The number that stands for any type of member.
const ANY_TYPE: u64 = 0;

/// What becomes of members of another type: they are left out, the group is refused, or it is one
/// of any type.
const ABANDON_MEMBER: u64 = 1;

const ABANDON_GROUP: u64 = 2;

const SET_MIXED: u64 = 3;

/// How many members a group has at most.
const GREATEST_MEMBERS: u64 = 64;

/// In how many attributes a group keeps them.
const KEPT_ATTRS: usize = 5;

// ---- what is asked for

fn count_named(attr: Attr, named: &Members) -> Option<u64>
    ensures value { result ≡ spec.count_named attr named.now }
    ensures bound { IfSome result (λ n. n < count_bound) }
{
    value_named(attr, named)?.as_count()
}

fn members_wanted(named: &Members) -> Membership<'_>
    ensures { membership_of result ≡ spec.members_wanted named.now }
{
    Membership {
        values: listed(Attr::Mid, named),
        most: count_named(Attr::Mnm, named).unwrap_or(0),
        of_type: count_named(Attr::Mt, named).unwrap_or(ANY_TYPE),
        strategy: count_named(Attr::Csy, named).unwrap_or(ABANDON_MEMBER),
    }
}

// The values that name the members of a group after an Update.
fn values_edited<'a>(group: &'a Resource, named: &'a Members) -> &'a [Val]
    ensures { result.now ≡ (spec.members_edited group.now named.now).values }
{
    if is_named(Attr::Mid, named) {
        listed(Attr::Mid, named)
    } else {
        listed_in(group.attrs().get(Attr::Mid))
    }
}

// How many there may be after it.
fn most_edited(group: &Resource, named: &Members) -> u64
    ensures { result ≡ (spec.members_edited group.now named.now).most }
{
    match count_named(Attr::Mnm, named) {
        Some(most) => most,
        None => group.attrs().count(Attr::Mnm).unwrap_or(0),
    }
}

fn members_edited<'a>(group: &'a Resource, named: &'a Members) -> Membership<'a>
    ensures { membership_of result ≡ spec.members_edited group.now named.now }
{
    Membership {
        values: values_edited(group, named),
        most: most_edited(group, named),
        of_type: group.attrs().count(Attr::Mt).unwrap_or(ANY_TYPE),
        strategy: group.attrs().count(Attr::Csy).unwrap_or(ABANDON_MEMBER),
    }
}

/// The members that a Create of this type asks for by these attributes, where it is that of a
/// group.
pub fn membership_new(ty: Ty, named: &Members) -> Option<Membership<'_>>
    ensures { option_map membership_of result ≡ spec.membership_by ty named.now }
{
    if is_ty(ty, Ty::Group) {
        Some(members_wanted(named))
    } else {
        None
    }
}

fn does_edit_members(target: &Resource, named: &Members) -> bool
    ensures { result ≡ spec.does_edit_members target.now named.now }
{
    target.is(Ty::Group) && (is_named(Attr::Mid, named) || is_named(Attr::Mnm, named))
}

/// The members that an Update of the resource asks for by these attributes, where it names members
/// of a group, or how many there may be.
pub fn membership_edited<'a>(target: &'a Resource, named: &'a Members) -> Option<Membership<'a>>
    ensures { option_map membership_of result
        ≡ spec.membership_edited target.now named.now }
{
    if does_edit_members(target, named) {
        Some(members_edited(target, named))
    } else {
        None
    }
}

// ---- which texts may name a member

fn may_be_member(alloc: Global, home: &Home, address: &[u8]) -> Result<bool, OutOfMemory>
    ensures { IfOk result (λ b. b ≡ spec.may_be_member home.now address.now) }
{
    match parse(alloc, address, home) {
        Ok(Addr::Local(_)) => Ok(true),
        Ok(Addr::Foreign(_)) => Ok(true),
        Ok(Addr::OtherProvider) => Ok(false),
        Err(AddrFault::OutOfMemory) => Err(OutOfMemory),
        Err(_) => Ok(false),
    }
}

fn is_address(alloc: Global, home: &Home, value: &Val) -> Result<bool, OutOfMemory>
    ensures { IfOk result (λ b. b ≡ is_text_of (spec.may_be_member home.now) value.now) }
{
    match value.as_text() {
        Some(text) => may_be_member(alloc, home, text.entries()),
        None => Ok(false),
    }
}

fn are_addresses(alloc: Global, home: &Home, values: &[Val]) -> Result<bool, OutOfMemory>
    ensures { IfOk result (λ b. b ≡ spec.are_addresses home.now values.now) }
{
    for value in values {
        if !is_address(alloc, home, value)? {
            return Ok(false);
        }
    }
    Ok(true)
}

/// Whether each member that is asked for may be one by its address.
pub(crate) fn have_addresses(
    alloc: Global,
    home: &Home,
    group: Option<Membership<'_>>,
) -> Result<bool, OutOfMemory>
    ensures { IfOk result (λ b. b
        ≡ spec.have_addresses home.now (option_map membership_of group.entry)) }
{
    match group {
        Some(members) => are_addresses(alloc, home, members.values),
        None => Ok(true),
    }
}

// ---- how many there are

fn has_text(texts: &[Text], text: &Text) -> bool
    ensures { result ≡ list_any (bytes_eq text.now) texts.now }
{
    texts.iter().any(|other| text.entries() == other.entries())
}

// Puts the text of a value behind others, unless it stands there already.
fn add_text(alloc: Global, texts: &mut Vec<Text>, value: &Val) -> Result<(), OutOfMemory>
    ensures items { OnOk result (texts.new.items ≡ texts.old.items
        ++ spec.new_after texts.old.items (texts_of (value.now ∷ []))) }
    ensures utf8 { OnOk result (AllByRecursion IsUtf8 texts.old.items
        → AllByRecursion IsUtf8 texts.new.items) }
{
    if let Some(text) = value.as_text() {
        if !has_text(texts, text) {
            texts.push(text.copy(alloc)?)?;
        }
    }
    Ok(())
}

// The texts among values, without repeats, unless they are more than so many.
fn few_texts(alloc: Global, values: &[Val], most: u64) -> Result<Option<Vec<Text>>, OutOfMemory>
    ensures found { IfOk result (λ found. option_map (λ v. v.items) found
        ≡ (if nat_le (length (spec.distinct_texts values.now)) most
        then Some (spec.distinct_texts values.now) else None)) }
    ensures utf8 { IfOk result (λ found.
        IfSome found (λ texts. AllByRecursion IsUtf8 texts.items)) }
{
    let mut texts = Vec::new(alloc);
    for value in values {
        add_text(alloc, &mut texts, value)?;
        if most < texts.len() as u64 {
            return Ok(None);
        }
    }
    Ok(Some(texts))
}

// ---- of which type they are

/// The live resource that the address of a member names.
pub fn member_named<'a, T: Tree>(
    alloc: Global,
    entity: &'a Entity<T>,
    address: &[u8],
) -> Result<Option<&'a Resource>, OutOfMemory>
    ensures { IfOk result (λ found. option_map (λ r. r.now) found
        ≡ spec.member_named entity.now address.now) }
{
    match spot_named(alloc, entity, address)? {
        Some(Spot::Resource(number)) => Ok(entity.tree.get(number)),
        _ => Ok(None),
    }
}

fn differs_from(of_type: u64, resource: Option<&Resource>) -> bool
    ensures { result ≡ option_map_or (spec.differs_from of_type)
        (option_map (λ r. r.now) resource.entry) false }
{
    match resource {
        Some(resource) => resource.ty().number() as u64 != of_type,
        None => false,
    }
}

fn is_of_other_type(of_type: u64, resource: Option<&Resource>) -> bool
    ensures { (e : EntityData) (address : List ℕ) →
        option_map (λ r. r.now) resource.entry ≡ spec.member_named e address
        → result ≡ spec.is_of_other_type e of_type address }
{
    of_type != ANY_TYPE && differs_from(of_type, resource)
}

// ---- what is known of them

/// What is known of some members: those that the group keeps, whether one is of another type, and
/// whether each that is kept names a live resource.
#[derive(Drop)]
struct KnownMembers {
    kept: Vec<Val>,
    has_other: bool,
    are_live: bool,
}

// Looks at one more.
fn learn_member<T: Tree>(
    alloc: Global,
    entity: &Entity<T>,
    members: Membership<'_>,
    address: Text,
    known: &mut KnownMembers,
) -> Result<(), OutOfMemory>
    requires { IsUtf8 address }
    ensures kept { OnOk result (known.new.kept.items ≡ known.old.kept.items ++ map text
        (spec.kept_among entity.now (membership_of members.entry) (address ∷ []))) }
    ensures other { OnOk result (known.new.has_other ≡ (known.old.has_other
        || spec.is_of_other_type entity.now members.entry.of_type address)) }
    ensures live { OnOk result (known.new.are_live ≡ (known.old.are_live
        && list_all (spec.is_live_member entity.now)
        (spec.kept_among entity.now (membership_of members.entry) (address ∷ [])))) }
{
    let named = member_named(alloc, entity, address.entries())?;
    let is_live = named.is_some();
    let is_other = is_of_other_type(members.of_type, named);
    known.has_other = known.has_other || is_other;
    if members.strategy != ABANDON_MEMBER || !is_other {
        known.are_live = known.are_live && is_live;
        known.kept.push(Val::of_text(address))?;
    }
    Ok(())
}

fn learn_members<T: Tree>(
    alloc: Global,
    entity: &Entity<T>,
    members: Membership<'_>,
    texts: Vec<Text>,
) -> Result<KnownMembers, OutOfMemory>
    requires { AllByRecursion IsUtf8 texts.items }
    ensures kept { IfOk result (λ k. k.kept.items
        ≡ map text (spec.kept_among entity.now (membership_of members.entry) texts.items)) }
    ensures other { IfOk result (λ k. k.has_other
        ≡ list_any (spec.is_of_other_type entity.now members.entry.of_type) texts.items) }
    ensures live { IfOk result (λ k. k.are_live ≡ list_all (spec.is_live_member entity.now)
        (spec.kept_among entity.now (membership_of members.entry) texts.items)) }
{
    let mut known = KnownMembers {
        kept: Vec::with_capacity(alloc, texts.len())?,
        has_other: false,
        are_live: true,
    };
    for address in texts {
        learn_member(alloc, entity, members, address, &mut known)?;
    }
    Ok(known)
}

// ---- what the group keeps

fn number_of(n: u64) -> Val
    requires { n < count_bound }
    ensures { result ≡ number (pos n) }
{
    Val::of_num(n as i64)
}

fn type_kept(members: Membership<'_>, has_other: bool) -> u64
    ensures value { result ≡ (if (members.entry.strategy == spec.set_mixed) && has_other
        then spec.any_type else members.entry.of_type) }
    ensures bound { result < count_bound }
{
    if members.strategy == SET_MIXED && has_other {
        ANY_TYPE
    } else {
        members.of_type
    }
}

// The attributes that say who its members are, and of which type.
fn push_members(
    members: Membership<'_>,
    kept: Vec<Val>,
    has_other: bool,
    rows: &mut Vec<(Attr, Val)>,
) -> Result<(), OutOfMemory>
    ensures { OnOk result (rows.new.items ≡ rows.old.items
        ++ (Mid, list (elements_of kept.items)) ∷ (
          Mt,
          number (pos
              (if (members.entry.strategy == spec.set_mixed) && has_other
              then spec.any_type else members.entry.of_type)),
        ) ∷ []) }
{
    let alloc = *kept.allocator();
    rows.push((Attr::Mid, Val::of_shared_list(alloc, Items::of(kept))))?;
    rows.push((Attr::Mt, number_of(type_kept(members, has_other))))?;
    Ok(())
}

// Those that say what becomes of members of another type, how many they are, and whether they are
// known.
fn push_counts(
    strategy: u64,
    count: u64,
    are_live: bool,
    rows: &mut Vec<(Attr, Val)>,
) -> Result<(), OutOfMemory>
    requires strategy { strategy < count_bound }
    requires count { count < count_bound }
    ensures { OnOk result (rows.new.items ≡ rows.old.items
        ++ (Csy, number (pos strategy)) ∷ (Cnm, number (pos count)) ∷ (Mtv, boolean are_live)
        ∷ []) }
{
    rows.push((Attr::Csy, number_of(strategy)))?;
    rows.push((Attr::Cnm, number_of(count)))?;
    rows.push((Attr::Mtv, Val::of_bool(are_live)))?;
    Ok(())
}

// The attributes in which a group keeps what is known of all its members.
fn member_rows(
    alloc: Global,
    members: Membership<'_>,
    known: KnownMembers,
) -> Result<Vec<(Attr, Val)>, OutOfMemory>
    ensures { (e : EntityData) →
        known.kept.items ≡ map text (spec.members_kept e (membership_of members.entry))
        → known.has_other ≡ spec.has_other_type e (membership_of members.entry)
        → known.are_live ≡ spec.are_validated e (membership_of members.entry)
        → IfOk result (λ rows. rows.items ≡ spec.member_rows e (membership_of members.entry)) }
{
    let count = known.kept.len() as u64;
    let mut rows = Vec::with_capacity(alloc, KEPT_ATTRS)?;
    push_members(members, known.kept, known.has_other, &mut rows)?;
    push_counts(members.strategy, count, known.are_live, &mut rows)?;
    Ok(rows)
}

// ---- what refuses them

fn judge_members<T: Tree>(
    alloc: Global,
    entity: &Entity<T>,
    members: Membership<'_>,
) -> Result<Vec<(Attr, Val)>, Refusal>
    ensures { Judges result
        (first_fault (order.member_places entity.now (Some (membership_of members.entry))))
        (λ rows. rows.items ≡ spec.member_rows entity.now (membership_of members.entry)) }
{
    let limit = members.most.min(GREATEST_MEMBERS);
    let Some(texts) = few_texts(alloc, members.values, limit)? else {
        return Err(Refusal::Fault(Rsc::TooManyMembers));
    };
    let known = learn_members(alloc, entity, members, texts)?;
    if known.has_other && members.strategy == ABANDON_GROUP {
        return Err(Refusal::Fault(Rsc::WrongMember));
    }
    Ok(member_rows(alloc, members, known)?)
}

/// Judges the members that a group is to have by their number and their types. What isn't refused
/// gives the attributes in which the group keeps them, and none where no members are asked for.
pub(crate) fn judge_group<T: Tree>(
    alloc: Global,
    entity: &Entity<T>,
    group: Option<Membership<'_>>,
) -> Result<Vec<(Attr, Val)>, Refusal>
    ensures { Judges result
        (first_fault (order.member_places entity.now (option_map membership_of group.entry)))
        (λ rows. rows.items
        ≡ spec.group_rows entity.now (option_map membership_of group.entry)) }
{
    match group {
        Some(members) => judge_members(alloc, entity, members),
        None => Ok(Vec::new(alloc)),
    }
}
