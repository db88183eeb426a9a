//! The contents of primitives.
ghost use Rattle.std.specs.Prelude.{◌≡◌, ◌∷◌, [], IfOk};
ghost use Rattle.m2m_value.specs.Data as json;

use m2m_value::{MemberKey, Members, Val};
use std::alloc::{AllocError as OutOfMemory, Global};

/// An object of one member.
#[tactic(auto, using(crate::proofs::WrittenLemmas::sorted_alone))]
pub fn object_of_one(alloc: Global, key: &'static str, value: Val) -> Result<Val, OutOfMemory>
    ensures { IfOk result (λ v. v ≡ json.object (json.pairs_of ((key.now, value) ∷ []))) }
{
    let mut members = Vec::with_capacity(alloc, 1)?;
    members.push((MemberKey::named(key), value))?;
    Ok(Val::of_obj(Members::of(members)))
}
