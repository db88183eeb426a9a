//! Where the parents of resources stand.
use std::alloc::{AllocError as OutOfMemory, Global};

// Of a resource: the place of its parent, and the place that the last removal gave it, or where it
// would stand if it hadn't gone.
#[derive(Clone, Copy)]
struct ParentHint {
    parent: usize,
    own: usize,
}

// No resource stands there.
const NOWHERE: usize = usize::MAX;

/// The places of the parents of all resources, so that a pass over them searches for no parent,
/// whether that stays or goes. They are hints: a wrong one costs a search, and changes no answer.
#[derive(Drop)]
pub(crate) struct Places {
    places: Vec<ParentHint>,
}

impl Places {
    pub(crate) fn new(alloc: Global) -> Places {
        Places {
            places: Vec::new(alloc),
        }
    }

    /// Notes where the parent of the resource at a place stands, which is the last.
    pub(crate) fn note(&mut self, at: usize, parent: usize) -> Result<(), OutOfMemory> {
        self.places.truncate(at);
        self.places.push(ParentHint { parent, own: at })?;
        Ok(())
    }

    /// The place of the parent of the resource at a place.
    pub(crate) fn parent(&self, at: usize) -> usize {
        match self.places.get(at) {
            Some(place) => place.parent,
            None => NOWHERE,
        }
    }

    /// The place that a removal gave that parent, or where it would stand.
    pub(crate) fn moved_parent(&self, at: usize) -> usize {
        match self.places.get(self.parent(at)) {
            Some(parent) => parent.own,
            None => NOWHERE,
        }
    }

    /// A removal moves the resource at a place to another, with its parent at this one.
    pub(crate) fn keep(&mut self, at: usize, to: usize, parent: usize) {
        self.pass(at, to);
        if let Some(place) = self.places.get_mut(to) {
            place.parent = parent;
        }
    }

    /// A removal takes the resource at a place, or moves it: it stands, or would stand, at another.
    pub(crate) fn pass(&mut self, at: usize, to: usize) {
        if let Some(place) = self.places.get_mut(at) {
            place.own = to;
        }
    }

    /// So many are left.
    pub(crate) fn truncate(&mut self, len: usize) {
        self.places.truncate(len);
    }
}
