// The tags of a plan file, and the lengths that each allows.
ghost use Rattle.std.specs.Prelude.{◌≡◌, ◌&&◌, leb};
ghost use Rattle.rules_plan.specs.Fields.{is_tag, comes_once, length_allowed};

// "tag not 01 to 05", and 06 and 07 are spared
pub fn is_tag(tag: u8) -> bool
    ensures { result ≡ is_tag tag }
{
    matches!(tag, 1..=7)
}

// "05 occurs once", 06 "at most once"
pub fn comes_once(tag: u8) -> bool
    ensures { result ≡ comes_once tag }
{
    matches!(tag, 5..=6)
}

fn between(least: u16, size: u16, most: u16) -> bool
    ensures { result ≡ (leb least size && leb size most) }
{
    (least..=most).contains(&size)
}

// The table "tag, length".
pub fn length_allowed(tag: u8, size: u16) -> bool
    ensures { result ≡ length_allowed tag size }
{
    match tag {
        1 => between(2, size, 2),
        2 => between(3, size, 3),
        3 => between(3, size, 10),
        4 => between(4, size, 19),
        5 => between(8, size, 8),
        6 => between(22, size, 22),
        7 => between(3, size, 10),
        _ => false,
    }
}
