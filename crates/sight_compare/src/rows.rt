//! What is seen of the attributes of a resource, row by row.
ghost use Rattle.std.specs.Prelude.{◌≡◌, [], ◌∷◌, MatchOption};
ghost use Rattle.std.specs.Cmp.Lexicographic.{pointwise};
ghost use Rattle.std.specs.List.{filter_map};
ghost use Rattle.resource_model.specs.Attributes.{same_row};
ghost use Rattle.sight_compare.specs.Shown as spec;

use crate::values::{Glance, Shown, are_seen_equal, seen_value};
use m2m_names::Attr;
use m2m_value::Val;

/// An attribute of which something is seen.
#[derive(Clone, Copy)]
pub struct SeenRow<'a> {
    pub attr: Attr,
    pub shown: Shown<'a>,
}

/// The first of these rows of which something is seen, and the rows behind it.
#[tactic(auto, using(crate::proofs::SeenLemmas::row_seen, crate::proofs::SeenLemmas::row_hidden))]
fn next_row<'a>(
    glance: &Glance,
    rows: &'a [(Attr, Val)],
) -> Option<(SeenRow<'a>, &'a [(Attr, Val)])>
    ensures { MatchOption result (filter_map (spec.row_at glance.now) rows.now ≡ [])
        (λ p. filter_map (spec.row_at glance.now) rows.now
        ≡ spec.row_of p.0 ∷ filter_map (spec.row_at glance.now) p.1.now) }
{
    for (i, row) in rows.iter().enumerate() {
        if let Some(shown) = seen_value(glance, row.0, &row.1) {
            let seen = SeenRow { attr: row.0, shown };
            return Some((seen, &rows[i + 1..]));
        }
    }
    None
}

fn is_row_alike(left: &SeenRow, right: &SeenRow) -> bool
    ensures { result ≡ same_row (spec.row_of left.now) (spec.row_of right.now) }
{
    left.attr.short() == right.attr.short() && are_seen_equal(&left.shown, &right.shown)
}

/// Whether equal rows are seen, the hidden ones left out on each side.
#[tactic(auto, using(crate::proofs::SeenLemmas::row_seen, crate::proofs::SeenLemmas::row_hidden))]
pub fn are_rows_alike(
    left: &Glance,
    right: &Glance,
    rows: &[(Attr, Val)],
    others: &[(Attr, Val)],
) -> bool
    ensures { result
        ≡ pointwise same_row (filter_map (spec.row_at left.now) rows.now)
        (filter_map (spec.row_at right.now) others.now) }
{
    let mut behind = others;
    for row in rows {
        if let Some(shown) = seen_value(left, row.0, &row.1) {
            let Some((other, beyond)) = next_row(right, behind) else {
                return false;
            };
            let seen = SeenRow { attr: row.0, shown };
            if !is_row_alike(&seen, &other) {
                return false;
            }
            behind = beyond;
        }
    }
    next_row(right, behind).is_none()
}
