// Lines in a buffer of bytes.
ghost use Rattle.std.specs.Prelude.{◌≡◌, ◌-◌, ◌≤◌, length};
ghost use Rattle.lists.specs.Options.{if_below};
ghost use Rattle.replay.specs.Lines.{line_end, shifted};

// The place of the newline that ends the line which begins at a place, where it is there.
pub fn find_newline(s: &[u8], from: usize) -> Option<usize>
    ensures { result ≡ if_below (length s.now) (line_end s.now from) }
{
    for i in from..s.len() {
        if s[i] == b'\n' {
            return Some(i);
        }
    }
    None
}

// Moves the bytes from a place up to another to the front, and answers how many they are; what stands behind these stays.
pub fn shift(s: &mut [u8], from: usize, to: usize) -> usize
    requires { (from ≤ to) × (to ≤ length s.old) }
    ensures { (result ≡ to - from) × (s.new ≡ shifted from to s.old) }
{
    s.copy_within(from..to, 0);
    to - from
}
