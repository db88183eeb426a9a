//! What holds of every entity.
ghost use Rattle.std.specs.Prelude.{◌≡◌, ℕ, ◌≤◌, List, [], Bool, IsTrue, filter, map, not, take};
ghost use Rattle.m2m_names.specs.declared.types.Ty.TheVariants.{CseBase};
ghost use Rattle.resource_model.specs.Home.{HomeData, IsHome};
ghost use Rattle.resource_model.specs.Resource.{ResourceData, is_ty};
ghost use Rattle.tree_model.specs.Changes.{ChangeData, deleted};
ghost use Rattle.tree_model.specs.Tree.{has, without};
ghost use Rattle.entity_model.specs.Entity.{EntityData, cut, expired, swept, telling};
ghost use Rattle.entity_model.specs.Expiry.{expiry_changes};
ghost use Rattle.entity_model.specs.Opening.{opening};
ghost use Rattle.entity_model.specs.Sound.{IsSoundEntity, spares_first};

/// An entity opens sound, and stays sound: under the expiry, and where some resources are removed
/// with all that stands below them, unless the CSEBase is.
pub fn opening_expiry_and_removal_are_sound()
    ensures opened { (home : HomeData) (reading : ℕ) → IsHome home
        → IsSoundEntity (opening home reading) }
    ensures swept { (reading : ℕ) (e : EntityData) → IsSoundEntity e
        → IsSoundEntity (swept reading e) }
    ensures removed { (picks : ResourceData → Bool) (e : EntityData) → IsSoundEntity e
        → IsTrue (spares_first picks e.nodes)
        → IsSoundEntity (record e { nodes = without picks e.nodes }) }
{}

/// The first resource of a sound entity is its only CSEBase.
pub fn a_sound_entity_has_one_base()
    ensures { (e : EntityData) → IsSoundEntity e
        → filter (λ (r : ResourceData). is_ty r.ty CseBase) e.nodes ≡ take 1 e.nodes }
{}

/// An event that doesn't come later than the last one finds the entity as that one left it.
pub fn nothing_expires_while_no_time_passes()
    ensures { (reading : ℕ) (e : EntityData) → IsSoundEntity e → cut reading ≤ e.last
        → swept reading e ≡ e }
{}

/// What an expiry tells is what it takes from a sound entity, in order of creation.
pub fn an_expiry_tells_what_it_takes()
    ensures { (moment : ℕ) (e : EntityData) → IsSoundEntity e → expiry_changes moment e.nodes
        ≡ map deleted (filter (λ r. not (has r.number (expired moment e).nodes)) e.nodes) }
{}

/// An entity stays sound where what an operation tells and sends is appended and subscriptions that
/// count are lowered; and where nothing changed, it stays as it is.
pub fn what_is_told_leaves_an_entity_sound()
    ensures sound { (before : List ResourceData) (going : List ℕ) (changes : List ChangeData)
        (e : EntityData) → IsSoundEntity e → IsSoundEntity (telling before going changes e) }
    ensures nothing { (before : List ResourceData) (e : EntityData) → IsSoundEntity e
        → telling before [] [] e ≡ e }
{}
