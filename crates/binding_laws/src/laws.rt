//! Laws of the definitions.
ghost use Rattle.binding_laws.specs.AsRead.{WhatALineSaysIsAsRead, WhatIsBoundIsAsRead};
ghost use Rattle.binding_laws.specs.OneMessage.{BytesAreTheMessageOrNone};
ghost use Rattle.binding_laws.specs.ReadBack.{RequestIsBoundBack};
ghost use Rattle.binding_laws.specs.Telling.{WhatCanNotBeToldSaysNone};

/// The frame of a request to another CSE binds to that request, where it says all that the request
/// has, and nothing that is read otherwise.
pub fn a_request_is_bound_back()
    ensures { RequestIsBoundBack }
{}

/// The bytes for a request to a URL are the message of that request, or begin with no message of a
/// request, where its head or its body is longer than a message's may be.
pub fn bytes_are_the_message_or_none()
    ensures { BytesAreTheMessageOrNone }
{}

/// A request that a message binds to, or that a line says, is as each is that is read: of its
/// kinds, with labels that are texts, and with content no deeper than a text is read.
pub fn what_is_read_is_as_read()
    ensures message { WhatIsBoundIsAsRead }
    ensures line { WhatALineSaysIsAsRead }
{}

/// The bytes of a reply whose text is too long for a message, or whose content is deeper than a
/// text is read, are no message that says a reply.
pub fn what_can_not_be_told_says_none()
    ensures { WhatCanNotBeToldSaysNone }
{}
