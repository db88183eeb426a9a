//! Laws of the definitions.
ghost use Rattle.http_target.specs.Laws.{AuthoritiesAreOfUris, TargetsAreOfUris};

/// What is taken for the authority of a target is what the crate `http_uri` reads as one.
pub fn authorities_are_of_uris()
    ensures { AuthoritiesAreOfUris }
{}

/// What is taken for a target is what the crate `http_uri` reads as a URI with a path, and its path
/// and query are those of that URI.
pub fn targets_are_of_uris()
    ensures { TargetsAreOfUris }
{}
