//! What holds of every request to a resource.
ghost use Rattle.std.specs.Prelude.{◌≡◌, ℕ, ◌+◌, List, length, Some, None, IsTrue};
ghost use Rattle.m2m_names.specs.Name.{is_originator};
ghost use Rattle.m2m_names.specs.StatusCodes.{is_success};
ghost use Rattle.m2m_names.specs.declared.operations.Op.{Op};
ghost use Rattle.m2m_names.specs.declared.operations.Op.TheVariants.{Create, Update, Delete};
ghost use Rattle.m2m_names.specs.declared.types.Ty.{Ty};
ghost use Rattle.m2m_value.specs.Data.{Entry};
ghost use Rattle.primitive_json.specs.declared.request.RequestParts.{RequestParts};
ghost use Rattle.resource_model.specs.Resource.{ResourceData};
ghost use Rattle.tree_model.specs.Tree.{at, is_at_or_below};
ghost use Rattle.policy_eval.specs.Rights.{delete_bit, grants};
ghost use Rattle.entity_model.specs.Entity.{EntityData, telling};
ghost use Rattle.entity_model.specs.Sound.{IsSoundEntity};
ghost use Rattle.create_delete.specs.Changes.{changes_at, only_in};
ghost use Rattle.create_delete.specs.Changing.{create_effect, delete_effect, effect_at};
ghost use Rattle.create_delete.specs.Changing.{update_effect};
ghost use Rattle.create_delete.specs.Telling.{gone_numbers, told_effect_at};
ghost use Rattle.change_laws.specs.Served.{AddsOne, ChangesOne, ServesCreate, ServesDelete};
ghost use Rattle.change_laws.specs.Served.{MayCreate, MayDelete, MayUpdate, ServesUpdate};
ghost use Rattle.request_rules.specs.Creation.{creation_of};
ghost use Rattle.request_rules.specs.Order.{fault_at};

/// An operation that no place refuses is served: it gives its success, with the content that is
/// asked for, and does what is defined of it.
pub fn what_no_place_refuses_is_served()
    ensures creates { (e : EntityData) (originator : List ℕ) (request : RequestParts) (n : ℕ)
        → fault_at Create e originator request n ≡ None
        → ServesCreate e originator request n (effect_at Create e originator request n) }
    ensures updates { (e : EntityData) (originator : List ℕ) (request : RequestParts) (n : ℕ)
        → fault_at Update e originator request n ≡ None
        → ServesUpdate e request n (effect_at Update e originator request n) }
    ensures deletes { (e : EntityData) (originator : List ℕ) (request : RequestParts) (n : ℕ)
        → fault_at Delete e originator request n ≡ None
        → ServesDelete e request n (effect_at Delete e originator request n) }
{}

/// What an originator may do is served: a Create, an Update or a Delete of a resource that is
/// there, where the conditions of `MayCreate`, `MayUpdate` or `MayDelete` hold. No place asks for
/// more.
pub fn what_may_be_done_is_served()
    ensures creates { (e : EntityData) (originator : List ℕ) (request : RequestParts) (n : ℕ)
        (parent : ResourceData) (ty : Ty) (es : List Entry) → at n e.nodes ≡ Some parent
        → MayCreate e originator request parent ty es
        → effect_at Create e originator request n
        ≡ create_effect request (creation_of e originator ty parent es) }
    ensures updates { (e : EntityData) (originator : List ℕ) (request : RequestParts) (n : ℕ)
        (r : ResourceData) (es : List Entry) → at n e.nodes ≡ Some r
        → MayUpdate e originator request r es
        → effect_at Update e originator request n ≡ update_effect e request es r }
    ensures deletes { (e : EntityData) (originator : List ℕ) (request : RequestParts) (n : ℕ)
        (r : ResourceData) → at n e.nodes ≡ Some r → MayDelete e originator request r
        → effect_at Delete e originator request n ≡ delete_effect e request r }
{}

/// What an operation gives is what is defined of it before anybody is told: the same reply, and the
/// entity after it, of a sound one, with its changes told behind, and then sent to where copies
/// stand.
pub fn what_is_done_is_told_behind()
    ensures reply { (op : Op) (e : EntityData) (originator : List ℕ) (request : RequestParts)
        (n : ℕ) → (told_effect_at op e originator request n).reply
        ≡ (effect_at op e originator request n).reply }
    ensures after { (op : Op) (e : EntityData) (originator : List ℕ) (request : RequestParts)
        (n : ℕ) → IsSoundEntity e → (told_effect_at op e originator request n).after
        ≡ telling e.nodes (gone_numbers e (effect_at op e originator request n).after)
        (changes_at op e originator request n) (effect_at op e originator request n).after }
{}

/// A Create that is served adds exactly one resource to a sound entity, with the next number, under
/// its target. It changes besides at most that target, in its state tag and its last change, and
/// removes at most instances of it.
pub fn a_creation_adds_one_resource()
    ensures { (e : EntityData) (originator : List ℕ) (request : RequestParts) (n : ℕ)
        → IsSoundEntity e → IsTrue (is_originator originator)
        → IsTrue (is_success (effect_at Create e originator request n).reply.rsc)
        → AddsOne e n (effect_at Create e originator request n).after }
{}

/// An Update that is served changes of a sound entity its target alone, which stays, and removes at
/// most instances of it.
pub fn an_update_changes_its_target_alone()
    ensures { (e : EntityData) (originator : List ℕ) (request : RequestParts) (n : ℕ)
        → IsSoundEntity e
        → IsTrue (is_success (effect_at Update e originator request n).reply.rsc)
        → ChangesOne e n (effect_at Update e originator request n).after }
{}

/// The next number of a sound entity rises by just as many as are new.
pub fn the_next_number_rises_by_what_is_new()
    ensures { (op : Op) (e : EntityData) (originator : List ℕ) (request : RequestParts) (n : ℕ)
        → IsSoundEntity e → IsTrue (is_originator originator)
        → (effect_at op e originator request n).after.next
        ≡ e.next + length (only_in (effect_at op e originator request n).after.nodes e.nodes) }
{}

/// Of a sound entity, a deletion takes only what is its target or stands below it, and only where
/// the originator may delete the target; what stays, stays as it was.
pub fn a_deletion_takes_what_stands_at_or_below_its_target()
    ensures gone { (e : EntityData) (originator : List ℕ) (request : RequestParts) (n : ℕ)
        (r : ResourceData)
        → IsSoundEntity e → at r.number e.nodes ≡ Some r
        → at r.number (effect_at Delete e originator request n).after.nodes ≡ None
        → IsTrue (is_at_or_below n e.nodes r)
        × IsTrue (grants e.home e.nodes originator delete_bit n) }
    ensures kept { (e : EntityData) (originator : List ℕ) (request : RequestParts) (n : ℕ)
        (r : ResourceData)
        → IsSoundEntity e
        → at r.number (effect_at Delete e originator request n).after.nodes ≡ Some r
        → at r.number e.nodes ≡ Some r }
{}
