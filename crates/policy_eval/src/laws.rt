//! Laws of policies, over every list.
ghost use Rattle.std.specs.Prelude.{◌≡◌, ◌<◌, List, IsTrue, Some};
ghost use Rattle.m2m_names.specs.Ids.{count_bound};
ghost use Rattle.m2m_names.specs.declared.types.Ty.TheVariants.{AccessControlPolicy};
ghost use Rattle.resource_model.specs.Resource.{ResourceData, id_of, is_ty};
ghost use Rattle.tree_model.specs.Tree.{at};
ghost use Rattle.policy_eval.specs.Rules.{policy_named, policy_number};

/// The resource id of a policy spells its number, and so names it in every list that has it at that
/// number.
pub fn a_policy_is_named_by_its_id()
    ensures number { (p : ResourceData) → IsTrue (is_ty p.ty AccessControlPolicy) →
        p.number < count_bound → policy_number (id_of p) ≡ Some p.number }
    ensures named { (nodes : List ResourceData) (p : ResourceData) →
        IsTrue (is_ty p.ty AccessControlPolicy) → p.number < count_bound →
        at p.number nodes ≡ Some p → policy_named nodes (id_of p) ≡ Some p }
{}
