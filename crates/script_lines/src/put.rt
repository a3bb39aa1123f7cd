//! Pieces of a line, written from its end on.

ghost use Rattle.std.specs.Prelude.{◌≡◌, ◌+◌, ◌≤◌, ◌∷◌, ◌++◌, length, drop};
ghost use Rattle.std.specs.Fmt.{decimal};
ghost use Rattle.std.specs.Option.{option_to_list};
ghost use Rattle.store_spec.specs.BallotLine.{group_text, space};

use itoa::write_digits;

/// Puts a byte before `end`, and says where it stands.
#[inline(always)]
pub fn put_byte(byte: u8, line: &mut [u8], end: usize) -> usize
    requires room { 1 ≤ end }
    requires within { end ≤ length line.old }
    ensures start { result + 1 ≡ end }
    ensures text { drop result line.new ≡ byte ∷ drop end line.old }
{
    line[end - 1] = byte;
    end - 1
}

/// Puts bytes where they end at `end`, and says where they begin.
#[inline(always)]
pub fn put_bytes(bytes: &[u8], line: &mut [u8], end: usize) -> usize
    requires room { length bytes.now ≤ end }
    requires within { end ≤ length line.old }
    ensures start { result + length bytes.now ≡ end }
    ensures text { drop result line.new ≡ bytes.now ++ drop end line.old }
{
    let start = end - bytes.len();
    line[start..end].copy_from_slice(bytes);
    start
}

/// Puts a number in decimal digits where they end at `end`, and says where they begin.
pub fn put_number(number: u64, line: &mut [u8], end: usize) -> usize
    requires room { 20 ≤ end }
    requires within { end ≤ length line.old }
    ensures text { drop result line.new ≡ decimal number ++ drop end line.old }
    ensures start { (result ≤ end) × (end ≤ result + 20) }
{
    write_digits(number, line, end)
}

/// Puts a number with a space behind it, which ends at `end`, and says where it begins.
pub fn put_word(number: u64, line: &mut [u8], end: usize) -> usize
    requires room { 21 ≤ end }
    requires within { end ≤ length line.old }
    ensures text { drop result line.new ≡ decimal number ++ space ∷ drop end line.old }
    ensures start { (result ≤ end) × (end ≤ result + 21) }
{
    let digits_end = put_byte(b' ', line, end);
    put_number(number, line, digits_end)
}

/// Puts the group of a contest where this choice is marked, or none is. It ends at `end`; says where it begins.
pub fn put_group(choice: Option<u64>, line: &mut [u8], end: usize) -> usize
    requires room { 20 ≤ end }
    requires within { end ≤ length line.old }
    ensures text { drop result line.new ≡ group_text (option_to_list choice) ++ drop end line.old }
    ensures start { (result ≤ end) × (end ≤ result + 20) }
{
    match choice {
        Some(choice) => put_number(choice, line, end),
        None => put_byte(b'-', line, end),
    }
}
