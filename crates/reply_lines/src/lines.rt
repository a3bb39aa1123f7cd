//! The lines of the replies.

ghost use Rattle.std.specs.Prelude.{◌≡◌, ◌+◌, ◌≤◌, ◌++◌, IfOk, drop, length, map, string_bytes, take};
ghost use Rattle.std.specs.Str.{IsUtf8};
ghost use Rattle.store_spec.specs.Session.{all_reply_lines, reply_line, reply_lines};

use crate::Reply;
use itoa::write_digits;
use outside_io::Memory;
use std::str::from_utf8;

/// Appends a line for each reply of each list.
pub fn push_all_replies<R: Reply>(text: &mut String, lists: &[Vec<R>]) -> Result<(), Memory>
    ensures { IfOk result
        (λ _. string_bytes text.new ≡ string_bytes text.old
        ++ all_reply_lines 1 (map (λ list. map R.word list.items) lists.now)) }
{
    text.reserve(usual_bytes(lists))?;
    'lists: for (at, replies) in lists.iter().enumerate() {
        push_replies(text, at + 1, replies)?;
    }
    Ok(())
}

/// How many bytes the lines of these replies take at most, in general. A text that is as long at once is not copied as it
/// grows.
fn usual_bytes<R: Reply>(lists: &[Vec<R>]) -> usize {
    let mut count: usize = 0;
    for replies in lists {
        count = count.saturating_add(replies.len());
    }
    count.saturating_mul(USUAL_LINE)
}

/// How many bytes the line of a reply has at most, in general.
const USUAL_LINE: usize = 20;

/// The most bytes of a word.
pub const MAX_WORD: usize = 20;

/// Room for the line of a reply.
const LINE_ROOM: usize = 64;

/// Room for the lines that are gathered before they are appended at once.
const BLOCK_ROOM: usize = 4096;

/// Appends a line for each reply of a list.
pub fn push_replies<R: Reply>(text: &mut String, list: usize, replies: &[R]) -> Result<(), Memory>
    ensures { IfOk result
        (λ _. string_bytes text.new
        ≡ string_bytes text.old ++ reply_lines list 1 (map R.word replies.now)) }
{
    let mut block = [0; BLOCK_ROOM];
    let mut filled = 0;
    'replies: for (at, reply) in replies.iter().enumerate() {
        let free = make_room(text, &block, filled)?;
        filled = put_reply(list, at + 1, reply.word(), &mut block, free);
    }
    push_bytes(text, &block[..filled])
}

/// Appends bytes that are text.
fn push_bytes(text: &mut String, bytes: &[u8]) -> Result<(), Memory>
    requires { IsUtf8 bytes.now }
    ensures { IfOk result (λ _. string_bytes text.new ≡ string_bytes text.old ++ bytes.now) }
{
    match from_utf8(bytes) {
        Ok(more) => {
            text.push_str(more)?;
            Ok(())
        }
        Err(_) => unreachable!(),
    }
}

/// Where one more line may be put in a block. Where the block has no room for it, what was gathered is appended first.
fn make_room(text: &mut String, block: &[u8; BLOCK_ROOM], filled: usize) -> Result<usize, Memory>
    requires filled { filled ≤ BLOCK_ROOM }
    requires utf8 { IsUtf8 (take filled block.now) }
    ensures room { IfOk result (λ free. free + LINE_ROOM ≤ BLOCK_ROOM) }
    ensures utf8 { IfOk result (λ free. IsUtf8 (take free block.now)) }
    ensures text { IfOk result (λ free. string_bytes text.new ++ take free block.now
        ≡ string_bytes text.old ++ take filled block.now) }
{
    if filled + LINE_ROOM <= BLOCK_ROOM {
        return Ok(filled);
    }
    push_bytes(text, &block[..filled])?;
    Ok(0)
}

/// Puts the line of a reply behind what a block has, and says where it ends.
fn put_reply(list: usize, at: usize, word: &str, block: &mut [u8; BLOCK_ROOM], free: usize) -> usize
    requires word { length word.now ≤ MAX_WORD }
    requires room { free + LINE_ROOM ≤ BLOCK_ROOM }
    requires utf8 { IsUtf8 (take free block.old) }
    ensures utf8 { IsUtf8 (take result block.new) }
    ensures text { take result block.new ≡ take free block.old ++ reply_line list at word.now }
    ensures within { result ≤ BLOCK_ROOM }
{
    let mut line = [0; LINE_ROOM];
    let start = put_line(list, at, word, &mut line);
    let end = free + (LINE_ROOM - start);
    block[free..end].copy_from_slice(&line[start..]);
    end
}

/// Puts the line of a reply into room for it, from the end on, and says where it begins.
fn put_line(list: usize, at: usize, word: &str, line: &mut [u8; LINE_ROOM]) -> usize
    requires { length word.now ≤ MAX_WORD }
    ensures text { drop result line.new ≡ reply_line list at word.now }
    ensures within { result ≤ LINE_ROOM }
{
    let end = put_before(b"\n", line, LINE_ROOM);
    let word_at = put_before(word.as_bytes(), line, end);
    let space_at = put_before(b" ", line, word_at);
    let reply_at = write_digits(at as u64, line, space_at);
    let front_at = put_before(b" ", line, reply_at);
    write_digits(list as u64, line, front_at)
}

/// Puts bytes where they end at `end`, and says where they begin.
#[inline(always)]
fn put_before(bytes: &[u8], line: &mut [u8; LINE_ROOM], end: usize) -> usize
    requires { (length bytes.now ≤ end) × (end ≤ LINE_ROOM) }
    ensures start { result + length bytes.now ≡ end }
    ensures written { drop result line.new ≡ bytes.now ++ drop end line.old }
{
    let start = end - bytes.len();
    line[start..end].copy_from_slice(bytes);
    start
}
