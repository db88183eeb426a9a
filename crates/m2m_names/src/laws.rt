//! Laws of the tables.
ghost use Rattle.std.specs.Int.{IsInRange};
ghost use Rattle.m2m_names.specs.StatusCodes.{rsc_row};
ghost use Rattle.m2m_names.specs.StatusNumbers.{least_code, greatest_code};
ghost use Rattle.m2m_names.specs.declared.codes.Rsc.{Rsc};

/// Every status number has four digits, and every HTTP status three.
pub fn status_numbers_have_their_digits()
    ensures number { (r : Rsc) → IsInRange least_code greatest_code (rsc_row r).number }
    ensures http { (r : Rsc) → IsInRange 100 999 (rsc_row r).http }
{}
