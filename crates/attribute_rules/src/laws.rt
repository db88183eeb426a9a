//! Laws of the table, and of what is admitted.
ghost use Rattle.std.specs.Prelude.{◌≡◌, IfSome, IsTrue, List, Some, false, is_none};
ghost use Rattle.std.specs.List.{list_all};
ghost use Rattle.m2m_names.specs.declared.attributes.Attr.{Attr};
ghost use Rattle.m2m_names.specs.declared.attributes.Attr.TheVariants.{Acpi, Cr, Et, Macp};
ghost use Rattle.m2m_names.specs.declared.types.Ty.{Ty};
ghost use Rattle.m2m_value.specs.Data.{Data, Entry};
ghost use Rattle.m2m_value.specs.Node.{AreSorted};
ghost use Rattle.resource_model.specs.Attributes.{Row, is_attr, value_of};
ghost use Rattle.attribute_kinds.specs.Kinds.{has_kind};
ghost use Rattle.attribute_kinds.specs.declared.kinds.Kind.TheVariants.{Originator, Policies};
ghost use Rattle.attribute_kinds.specs.declared.kinds.Kind.TheVariants.{Stamp};
ghost use Rattle.attribute_rules.specs.Admission.{fault_of, is_admitted, is_named, named_members};
ghost use Rattle.attribute_rules.specs.Contents.{edit_in, edit_of, edited, wanted_in, wanted_of};
ghost use Rattle.attribute_rules.specs.Contents.{value_created, value_updated};
ghost use Rattle.attribute_rules.specs.Kinds.{have_kinds, kind_of};
ghost use Rattle.attribute_rules.specs.Laws.{has_columns, has_needed, has_original, has_policies};
ghost use Rattle.attribute_rules.specs.Laws.{is_told_apart, may_clear, may_name, may_set};
ghost use Rattle.attribute_rules.specs.Laws.{stand_once};
ghost use Rattle.attribute_rules.specs.Table.{attr_rows};
ghost use Rattle.attribute_rules.specs.declared.table.Writing.{Writing};
ghost use Rattle.attribute_rules.specs.declared.table.Writing.TheVariants.{Create, Update};

/// Of the table, row by row: no type has an attribute twice; no request names what the CSE gives,
/// and a creation may name all else; what an update may name and not clear, a creation has to name;
/// what is announced is of types that can be; the attributes that a creation says beside those that
/// it keeps are those of such a source, and those that name policies are those of such a kind.
pub fn the_table_is_whole()
    ensures once { IsTrue (stand_once attr_rows) }
    ensures columns { IsTrue (list_all has_columns attr_rows) }
    ensures needed { IsTrue (list_all has_needed attr_rows) }
    ensures originals { IsTrue (list_all has_original attr_rows) }
    ensures beside { IsTrue (list_all is_told_apart attr_rows) }
    ensures policies { IsTrue (list_all has_policies attr_rows) }
{}

/// A content is admitted exactly where it has no fault.
pub fn what_is_admitted_has_no_fault()
    ensures { (writing : Writing) (ty : Ty) (content : Data) →
        is_admitted writing ty content ≡ is_none (fault_of writing ty content) }
{}

/// What an admitted creation gives a resource is of the kinds that its type keeps.
pub fn created_attributes_have_their_kinds()
    ensures { (ty : Ty) (content : Data) → IsTrue (is_admitted Create ty content) →
        IsTrue (have_kinds ty (wanted_of ty content).attrs) }
{}

/// Attributes of the kinds that a type keeps stay so after an admitted update, whatever it sets and
/// clears.
pub fn updated_attributes_have_their_kinds()
    ensures { (ty : Ty) (content : Data) (rows : List Row) →
        IsTrue (is_admitted Update ty content) → IsTrue (have_kinds ty rows) →
        IsTrue (have_kinds ty (edited (edit_of ty content) rows)) }
{}

/// Where an admitted content names policies, the type keeps a list of texts, as their ids are; and
/// where it asks for the creator, an originator.
pub fn what_is_named_is_kept()
    ensures policies { (writing : Writing) (ty : Ty) (content : Data) →
        IsTrue (is_admitted writing ty content) →
        IsTrue (is_named Acpi (named_members ty content)) → kind_of ty Acpi ≡ Some Policies }
    ensures fan_policies { (writing : Writing) (ty : Ty) (content : Data) →
        IsTrue (is_admitted writing ty content) →
        IsTrue (is_named Macp (named_members ty content)) → kind_of ty Macp ≡ Some Policies }
    ensures creator { (writing : Writing) (ty : Ty) (content : Data) →
        IsTrue (is_admitted writing ty content) →
        IsTrue (is_named Cr (named_members ty content)) → kind_of ty Cr ≡ Some Originator }
{}

/// What an admitted update sets is of the attribute's kind, so that an expiry is a timestamp; it
/// clears only what it may, and leaves as it is what it may not name.
pub fn an_update_does_what_it_may()
    ensures sets { (ty : Ty) (content : Data) → IsTrue (is_admitted Update ty content) →
        IsTrue (list_all (may_set ty) (edit_of ty content).sets) }
    ensures expiry { (ty : Ty) (content : Data) → IsTrue (is_admitted Update ty content) →
        IfSome (value_of Et (edit_of ty content).sets) (λ d. IsTrue (has_kind Stamp d)) }
    ensures clears { (ty : Ty) (content : Data) → IsTrue (is_admitted Update ty content) →
        IsTrue (list_all (may_clear ty) (edit_of ty content).clears) }
    ensures others { (ty : Ty) (content : Data) (attr : Attr) (rows : List Row) →
        IsTrue (is_admitted Update ty content) → may_name ty attr ≡ false →
        value_of attr (edited (edit_of ty content) rows) ≡ value_of attr rows }
{}

/// What a resource has of an attribute is what a creation gives it, and then what updates do to it;
/// but its expiry is kept beside its attributes.
pub fn attributes_have_the_values_that_are_named()
    ensures created { (attr : Attr) (members : List Entry) → AreSorted members →
        value_of attr (wanted_in members).attrs ≡ value_created attr members }
    ensures updated { (attr : Attr) (members : List Entry) (rows : List Row) →
        AreSorted members → is_attr attr Et ≡ false →
        value_of attr (edited (edit_in members) rows)
        ≡ value_updated attr members (value_of attr rows) }
{}
