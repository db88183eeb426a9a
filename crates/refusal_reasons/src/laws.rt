//! Laws of the definitions.
ghost use Rattle.refusal_reasons.specs.Laws.{NothingIsToldOfSuccess, WhatIsToldHasTheStatus};
ghost use Rattle.refusal_reasons.specs.Laws.{WhatIsToldIsPrinted};

/// Nothing is told of a request that isn't refused.
pub fn nothing_is_told_of_success()
    ensures { NothingIsToldOfSuccess }
{}

/// Each cause that is told is one of the status.
pub fn what_is_told_has_the_status()
    ensures { WhatIsToldHasTheStatus }
{}

/// Whatever is told is text on one line: printable ASCII characters and spaces.
pub fn what_is_told_is_printed()
    ensures { WhatIsToldIsPrinted }
{}
