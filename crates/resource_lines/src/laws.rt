//! The law of what is written.
ghost use Rattle.resource_lines.specs.Laws.{ResourcesAreReadBack};

/// What is written of a resource is read back as it.
pub fn resources_are_read_back()
    ensures { ResourcesAreReadBack }
{}
