//! A law of the definitions.
ghost use Rattle.retarget.specs.Routes.{FullFormTellsTheCse};

/// Where own CSE-ID isn't that of a registered CSE, an originator comes from a registered CSE where
/// the CSE-ID at the front of its full form is that of one.
pub fn the_full_form_tells_the_cse()
    ensures { FullFormTellsTheCse }
{}
