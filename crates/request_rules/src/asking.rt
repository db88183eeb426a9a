//! What a request to a resource asks for.
ghost use Rattle.std.specs.Prelude.{◌≡◌, IfSome, IsTrue, Some, option_map};
ghost use Rattle.resource_model.specs.Resource as resources;
ghost use Rattle.tree_model.specs.Tree.{at, has};
ghost use Rattle.entity_model.specs.Sound.{IsSoundEntity};
ghost use Rattle.request_rules.specs.Requests as spec;

use entity_model::Entity;
use m2m_names::{Op, Ty};
use primitive_json::Request;
use tree_model::{Resource, Tree};

/// The resource of a number.
pub fn find<T: Tree>(entity: &Entity<T>, number: u64) -> Option<&Resource>
    ensures value { option_map (λ r. r.now) result ≡ at number entity.now.nodes }
    ensures there { IfSome result (λ r. IsTrue (has r.now.number entity.now.nodes)) }
    ensures stands { IfSome result (λ r. at r.now.number entity.now.nodes ≡ Some r.now) }
    ensures sound { IsSoundEntity entity.now }
{
    entity.tree.get(number)
}

/// The type that a Create names.
pub fn child_ty(request: &Request) -> Option<Ty>
    ensures { result ≡ spec.child_ty request.now }
{
    Ty::from_number(request.parts().ty?)
}

// ---- types

/// Whether one type is another.
pub(crate) fn is_ty(ty: Ty, other: Ty) -> bool
    ensures { result ≡ resources.is_ty ty other }
{
    ty.number() == other.number()
}

/// Whether the operation is for resources of the type.
pub(crate) fn is_for(op: Op, ty: Ty) -> bool
    ensures { result ≡ spec.is_for op ty }
{
    match op {
        Op::Create => true,
        Op::Retrieve => true,
        Op::Update => !(is_ty(ty, Ty::CseBase) || is_ty(ty, Ty::ContentInstance)),
        Op::Delete => !is_ty(ty, Ty::CseBase),
        Op::Notify => is_ty(ty, Ty::Ae),
    }
}

/// Whether the target takes the child that is to be created.
pub(crate) fn takes_child(op: Op, request: &Request, target: &Resource) -> bool
    ensures { result ≡ spec.takes_child op request.now target.now }
{
    match op {
        Op::Create => match child_ty(request) {
            Some(ty) => target.ty().takes(ty),
            None => false,
        },
        Op::Retrieve => true,
        Op::Update => true,
        Op::Delete => true,
        Op::Notify => true,
    }
}
