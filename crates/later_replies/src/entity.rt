//! A CSE that answers later.
ghost use Rattle.std.specs.Prelude.{◌≡◌, length};

use accepted_requests::LaterRequests;
use entity_model::Entity;
use std::alloc::Global;
use std::marker::Model;
use tree_model::Tree;

/// An entity, and the requests that it accepted. Contracts see it as these, with the last number
/// that was given (`LaterData` of specs/Entries).
#[derive(Drop)]
pub struct LaterEntity<T: Tree> {
    pub(crate) alloc: Global,
    pub(crate) entity: Entity<T>,
    pub(crate) requests: LaterRequests,
}

impl<T: Tree> Model for LaterEntity<T> {
    ghost use Rattle.later_replies.specs.Entries.{LaterData};

    ghost Value = { LaterData };

    ghost use Rattle.entity_model.specs.Codes.{entity_code};
    ghost use Rattle.m2m_value.specs.Code.{data_code};
    ghost use Rattle.std.specs.Coded.{codes};

    ghost coded = { Prim.hlevel (codes, data_code, entity_code) };

    ghost view = { λ s. record {
      inner = s.entity;
      requests = s.requests;
    } };
}

impl<T: Tree> LaterEntity<T> {
    ghost use Rattle.std.specs.Prelude.{◌≡◌, length};
    ghost use Rattle.later_replies.specs.Entries.{opened};

    /// The entity, by which no request was accepted yet. It takes memory by `alloc` as it answers.
    pub fn new(alloc: Global, entity: Entity<T>) -> LaterEntity<T>
        ensures { result ≡ opened entity }
    {
        LaterEntity {
            alloc,
            entity,
            requests: LaterRequests::new(alloc),
        }
    }

    /// The accepted requests that are kept.
    pub fn requests(&self) -> &LaterRequests
        ensures { result.now ≡ self.now.requests }
    {
        &self.requests
    }

    /// How many accepted requests are kept.
    pub fn entries(&self) -> u64
        ensures { result ≡ length self.now.requests.entries }
    {
        self.requests.len()
    }
}
