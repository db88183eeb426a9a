//! The law of reading and writing filters, over the definitions that the calls cite.
ghost use Rattle.filter_criteria.specs.Laws.{FiltersAreOfKinds, FiltersAreReadBack};
ghost use Rattle.filter_criteria.specs.Laws.{WrittenFiltersAreFilters};

/// What is written of a filter whose conditions are of their sorts, as those of every reading are,
/// is a filter, and is read as it.
pub fn filters_are_read_back()
    ensures kinds { FiltersAreOfKinds }
    ensures filter { WrittenFiltersAreFilters }
    ensures back { FiltersAreReadBack }
{}
