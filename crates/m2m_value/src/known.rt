//! Names that stand in the program.
ghost use Rattle.std.specs.Prelude.{◌≡◌, IfSome};

/// The name, where it is one of those that most requests have. As a key it then takes no memory.
pub(crate) fn known_name(name: &[u8]) -> Option<&'static str>
    ensures { IfSome result (λ known. known.now ≡ name.now) }
{
    match name.len() {
        2 => known_of_two(name),
        3 => known_of_three(name),
        4 => known_of_four(name),
        7 => known_of_seven(name),
        _ => None,
    }
}

// One of two bytes.
fn known_of_two(name: &[u8]) -> Option<&'static str>
    ensures { IfSome result (λ known. known.now ≡ name.now) }
{
    match name {
        b"op" => Some("op"),
        b"to" => Some("to"),
        b"fr" => Some("fr"),
        b"ty" => Some("ty"),
        b"pc" => Some("pc"),
        b"rn" => Some("rn"),
        b"fc" => Some("fc"),
        b"nu" => Some("nu"),
        _ => None,
    }
}

// One of three bytes.
fn known_of_three(name: &[u8]) -> Option<&'static str>
    ensures { IfSome result (λ known. known.now ≡ name.now) }
{
    match name {
        b"rqi" => Some("rqi"),
        b"con" => Some("con"),
        b"rcn" => Some("rcn"),
        b"lbl" => Some("lbl"),
        b"acr" => Some("acr"),
        b"rvi" => Some("rvi"),
        b"mni" => Some("mni"),
        _ => None,
    }
}

// One of four bytes.
fn known_of_four(name: &[u8]) -> Option<&'static str>
    ensures { IfSome result (λ known. known.now ≡ name.now) }
{
    match name {
        b"acor" => Some("acor"),
        b"acop" => Some("acop"),
        b"acpi" => Some("acpi"),
        _ => None,
    }
}

// One of seven bytes.
fn known_of_seven(name: &[u8]) -> Option<&'static str>
    ensures { IfSome result (λ known. known.now ≡ name.now) }
{
    match name {
        b"m2m:cin" => Some("m2m:cin"),
        b"m2m:cnt" => Some("m2m:cnt"),
        b"m2m:sub" => Some("m2m:sub"),
        b"m2m:acp" => Some("m2m:acp"),
        b"m2m:grp" => Some("m2m:grp"),
        _ => None,
    }
}
