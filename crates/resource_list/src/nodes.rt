//! The list of resources that every tree keeps.
ghost use Rattle.std.specs.Prelude.{◌≡◌, ◌≢◌, ◌<◌, ◌≤◌, IsSome, List, [], ◌∷◌, ◌++◌, length};
ghost use Rattle.std.specs.Prelude.{slice_get, IsTrue, IfOk, OnOk, OnErr, IfErr, Some, option_map};
ghost use Rattle.m2m_names.specs.Ids.{count_bound};
ghost use Rattle.m2m_names.specs.Stamps.{last_moment};
ghost use Rattle.m2m_names.specs.declared.attributes.Attr.TheVariants.{Exc, St};
ghost use Rattle.resource_model.specs.Attributes.{value_of};
ghost use Rattle.resource_model.specs.Resource.{ResourceData, has_number};
ghost use Rattle.tree_model.specs.Tree.{at, due, are_quiet, live, replaced, restamped, may_stand};
ghost use Rattle.tree_model.specs.Tree.{restamped_at, has_state, without, is_tree, standing};
ghost use Rattle.tree_model.specs.Tree.{AreAscending, DoAscend, next_after};
ghost use Rattle.tree_model.specs.Tree.{overdue_numbers, without_all};
ghost use Rattle.tree_model.specs.Tree.{has_counter, recounted, recounted_at};

use crate::overdue::overdue_in;
use crate::places::Places;
use crate::placing::{due_in, found, found_after, place};
use crate::removing::{Removal, quiet_in, sweep_out, sweep_out_all};
use m2m_names::Attr;
use m2m_value::Val;
use resource_model::Resource;
use std::alloc::{AllocError as OutOfMemory, Global};
use std::marker::Model;

/// The resources of a tree in order of creation.
#[derive(Drop)]
pub struct Nodes {
    resources: Vec<Resource>,
    places: Places,
}

impl Model for Nodes {
    ghost use Rattle.std.specs.Prelude.{List, IsTrue};
    ghost use Rattle.std.specs.Coded.{coded_list};
    ghost use Rattle.resource_model.specs.Resource.{ResourceData};
    ghost use Rattle.resource_model.specs.Codes.{resource_code};

    ghost Value = { List ResourceData };

    ghost coded = { coded_list resource_code };

    ghost use Rattle.tree_model.specs.Tree.{is_tree};

    ghost view = { λ n. n.resources.items };

    ghost invariant = { λ n. IsTrue (is_tree n.resources.items) };
}

impl Nodes {
    /// No resource; it takes no memory.
    pub fn new(alloc: Global) -> Nodes
        ensures { result ≡ [] }
    {
        Nodes {
            resources: Vec::new(alloc),
            places: Places::new(alloc),
        }
    }

    /// How many resources there are.
    pub fn len(&self) -> u64
        ensures value { result ≡ length self.now }
        ensures tree { IsTrue (is_tree self.now) }
    {
        self.resources.len() as u64
    }

    /// The resource at place k in order of creation, from 0.
    pub fn nth(&self, k: u64) -> Option<&Resource>
        ensures { option_map (λ r. r.now) result ≡ slice_get self.now k }
    {
        self.resources.get(k as usize)
    }

    /// All of them, for what is found by a walk.
    pub fn entries(&self) -> &[Resource]
        ensures value { result.now ≡ self.now }
        ensures tree { IsTrue (is_tree self.now) }
    {
        &self.resources
    }

    /// The resource of a number.
    pub fn look_up(&self, number: u64) -> Option<&Resource>
        ensures value { option_map (λ r. r.now) result ≡ at number self.now }
        ensures tree { IsTrue (is_tree self.now) }
    {
        found(&self.resources, number)
    }

    /// When a resource is due whose parent stands there.
    pub fn due(&self, resource: &Resource) -> Option<u64>
        ensures value { result ≡ due self.now resource.now }
        ensures tree { IsTrue (is_tree self.now) }
    {
        due_in(&self.resources, resource)
    }

    /// The first resource that comes after a number.
    pub fn after(&self, number: u64) -> Option<&Resource>
        ensures value { option_map (λ r. r.now) result ≡ next_after number self.now }
        ensures tree { IsTrue (is_tree self.now) }
    {
        found_after(&self.resources, number)
    }

    /// The numbers of what is overdue at a moment, where nothing is due before another.
    pub fn overdue(&self, alloc: Global, moment: u64, quiet: u64) -> Result<Vec<u64>, OutOfMemory>
        requires { IsTrue (are_quiet quiet self.now) }
        ensures value { IfOk result (λ v. v.items ≡ overdue_numbers moment self.now) }
        ensures memory { OnErr result (overdue_numbers moment self.now ≢ []) }
    {
        let resources = &self.resources;
        if moment < quiet {
            return Ok(Vec::new(alloc));
        }
        overdue_in(alloc, resources, moment)
    }

    /// A moment before which nothing is due.
    pub fn quiet(&self) -> u64
        ensures { IsTrue (are_quiet result self.now) }
    {
        quiet_in(&self.resources, &self.places)
    }

    /// Puts a resource last. Its number is greater than every other, its parent is there (or it is
    /// the CSEBase and the first), and its name, its AE-ID and its CSE-ID are free.
    pub fn push(&mut self, resource: Resource) -> Result<(), (Resource, OutOfMemory)>
        requires { IsTrue (may_stand self.old resource) }
        ensures ok { OnOk result (self.new ≡ self.old ++ resource ∷ []) }
        ensures err { OnErr result (self.new ≡ self.old) }
        ensures back { IfErr result (λ e. e.0 ≡ resource) }
    {
        let parent = place_of(&self.resources, resource.parent());
        if let Err(_) = self.places.note(self.resources.len(), parent) {
            return Err((resource, OutOfMemory));
        }
        match self.resources.push(resource) {
            Ok(()) => Ok(()),
            Err(refused) => Err((refused.value, OutOfMemory)),
        }
    }

    /// Puts a resource in the place of the one of its number, which has the same type, name,
    /// parent, AE-ID and CSE-ID.
    pub fn replace(&mut self, resource: Resource)
        requires { option_map standing (at resource.number self.old) ≡ Some (standing resource) }
        ensures { self.new ≡ replaced resource self.old }
    {
        write_over(&mut self.resources, resource)
    }

    /// Sets the moment of the last change and the state tag of a resource that has one, in place.
    pub fn restamp(&mut self, number: u64, lt: u64, st: u64)
        requires there { IsTrue (has_state number self.old) }
        requires lt { lt ≤ last_moment }
        requires st { st < count_bound }
        ensures value { self.new ≡ restamped_at number lt st self.old }
        ensures tree { IsTrue (is_tree self.old) }
    {
        restamp_in(&mut self.resources, number, lt, st)
    }

    /// Sets how many notifications are left to a subscription that counts them, in place.
    pub fn recount(&mut self, number: u64, left: u64)
        requires there { IsTrue (has_counter number self.old) }
        requires left { left < count_bound }
        ensures value { self.new ≡ recounted_at number left self.old }
        ensures tree { IsTrue (is_tree self.old) }
    {
        recount_in(&mut self.resources, number, left)
    }

    /// Removes a resource with all that stands below it.
    pub fn remove_subtree(&mut self, number: u64)
        ensures value { self.new ≡ without (has_number number) self.old }
        ensures tree { IsTrue (is_tree self.old) }
    {
        sweep_out(&mut self.resources, &mut self.places, Removal::Of(number))
    }

    /// Removes the resources of these numbers, which ascend, with all that stands below them.
    pub fn remove_all(&mut self, numbers: &[u64])
        requires { DoAscend numbers.now }
        ensures value { self.new ≡ without_all numbers.now self.old }
        ensures tree { IsTrue (is_tree self.old) }
    {
        sweep_out_all(&mut self.resources, &mut self.places, numbers)
    }

    /// Removes what is due at a moment, with all that stands below it.
    pub fn expire(&mut self, moment: u64)
        ensures { self.new ≡ live moment self.old }
    {
        sweep_out(&mut self.resources, &mut self.places, Removal::Due(moment))
    }
}

// Where the resource of a number stands, or else would stand.
fn place_of(resources: &[Resource], number: u64) -> usize
    requires { AreAscending resources.now }
{
    match place(resources, number) {
        Ok(at) => at,
        Err(at) => at,
    }
}

// Puts the resource in the place of the one of its number, where there is one.
fn write_over(resources: &mut Vec<Resource>, resource: Resource)
    requires { AreAscending resources.old.items }
    ensures { resources.new.items ≡ replaced resource resources.old.items }
{
    if let Ok(at) = place(resources, resource.number()) {
        resources[at] = resource;
    }
}

fn restamp_in(resources: &mut Vec<Resource>, number: u64, lt: u64, st: u64)
    requires order { AreAscending resources.old.items }
    requires there { IsTrue (has_state number resources.old.items) }
    requires lt { lt ≤ last_moment }
    requires st { st < count_bound }
    ensures { resources.new.items ≡ restamped_at number lt st resources.old.items }
{
    if let Ok(at) = place(resources, number) {
        restamp(&mut resources[at], lt, st);
    }
}

fn restamp(resource: &mut Resource, lt: u64, st: u64)
    requires there { IsSome (value_of St resource.old.attrs) }
    requires lt { lt ≤ last_moment }
    requires st { st < count_bound }
    ensures { resource.new ≡ restamped lt st resource.old }
{
    resource.set_lt(lt);
    // It has a value, so that this takes no memory.
    let _set = resource.set(Attr::St, Val::of_num(st as i64));
}

fn recount_in(resources: &mut Vec<Resource>, number: u64, left: u64)
    requires order { AreAscending resources.old.items }
    requires there { IsTrue (has_counter number resources.old.items) }
    requires left { left < count_bound }
    ensures { resources.new.items ≡ recounted_at number left resources.old.items }
{
    if let Ok(at) = place(resources, number) {
        recount(&mut resources[at], left);
    }
}

fn recount(resource: &mut Resource, left: u64)
    requires there { IsSome (value_of Exc resource.old.attrs) }
    requires left { left < count_bound }
    ensures { resource.new ≡ recounted left resource.old }
{
    // It has a value, so that this takes no memory.
    let _set = resource.set(Attr::Exc, Val::of_num(left as i64));
}
