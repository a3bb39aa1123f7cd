//! Whether bytes are the same. A page is compared in as many bytes at once as one comparison takes.

ghost use Rattle.std.specs.Prelude.{◌≡◌, ◌↔◌, length, IsTrue};

/// How many bytes are compared before a difference among them is looked at. Whole pages have so many several times.
const BLOCK: usize = 1024;

/// Whether these bytes are the same, and as many.
pub fn same_bytes(one: &[u8], two: &[u8]) -> bool
    ensures { IsTrue result ↔ (one.now ≡ two.now) }
{
    if one.len() != two.len() {
        return false;
    }
    let mut at = 0;
    while one.len() - at >= BLOCK {
        if !same_block(&one[at..at + BLOCK], &two[at..at + BLOCK]) {
            return false;
        }
        at += BLOCK;
    }
    same_block(&one[at..], &two[at..])
}

/// Whether as many bytes are the same. It does not stop at the first that differs, so that many are compared at once.
#[inline(always)]
fn same_block(one: &[u8], two: &[u8]) -> bool
    requires { length one.now ≡ length two.now }
    ensures { IsTrue result ↔ (one.now ≡ two.now) }
{
    let mut same = true;
    for (place, byte) in one.iter().enumerate() {
        same &= *byte == two[place];
    }
    same
}
