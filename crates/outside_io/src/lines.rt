//! The lines of a source.

ghost use Rattle.std.specs.Prelude.{◌≡◌, ◌≢◌, ◌+◌, ◌≤◌, ◌<◌, [], ◌++◌, length, take, slice_range, true, false, Some, Err, IfOk, IfSome, OnErr};
ghost use Rattle.store_spec.specs.Fault.{CountsFault, CountsFaultIf};
ghost use Rattle.outside_io.specs.Stream.{GivesFront};
ghost use Rattle.outside_io.specs.Told.{AsTold};
ghost use Rattle.store_spec.specs.Input.{first_width, line_end, line_limit, script_limit, IsTooLong};

use crate::{Failed, Memory, Source, read_piece};
use memchr::memchr;
use std::alloc::Global;
use std::error::Error;
use std::fmt;
use std::marker::Model;

const LINE_END: u8 = b'\n';

const LINE_LIMIT: usize = 8192;

const SCRIPT_LIMIT: usize = 67_108_864;

/// How many bytes the buffer holds.
const BUFFER: usize = 65536;

/// What stands next in a source.
#[derive(Clone, Copy, Debug, PartialEq, Eq)]
pub enum NextLine {
    /// A line of at most 8,192 bytes.
    Whole,
    /// A line of more bytes. It was read to its end, and is not kept.
    TooWide,
    /// Nothing: the source has ended.
    End,
}

/// Why no line came.
#[derive(Clone, Copy, Debug, PartialEq, Eq)]
pub enum LineEndFault {
    /// No line ends within what may still be cut of the source, and there are more bytes.
    TooLong,
    /// The source failed.
    ReadFault,
}

impl fmt::Display for LineEndFault {
    ghost use Rattle.std.specs.Prelude.{Some};
    ghost use Rattle.outside_io.specs.Lines.{fault_text};

    ghost output = { λ fault. Some (fault_text fault) };

    fn fmt<W: fmt::Write>(&self, f: &mut fmt::Formatter<W>) -> fmt::Result {
        match self {
            LineEndFault::TooLong => f.write_str("the input is too long"),
            LineEndFault::ReadFault => f.write_str("the input failed"),
        }
    }
}

impl Error for LineEndFault {}

impl From<Failed> for LineEndFault {
    ghost use Rattle.std.specs.Prelude.{◌≡◌};
    ghost use Rattle.outside_io.specs.declared.lines.LineEndFault.TheVariants.{ReadFault};

    ghost from_gives = { λ _ fault. fault ≡ ReadFault };

    fn from(_: Failed) -> Self {
        LineEndFault::ReadFault
    }
}

/// What stands in the bytes that are kept.
#[derive(Clone, Copy)]
enum Found {
    Line(NextLine),
    TooMuch,
    Nothing,
}

/// The lines of a source, one after another. A line ends with a line feed; what stands after the last one is a line
/// where it is not empty. Only the first 67,108,864 bytes of the source are cut into lines.
#[derive(Drop)]
pub struct Lines {
    buffer: Vec<u8>,
    start: usize,
    end: usize,
    searched: usize,
    skipped: usize,
    room: usize,
    line_start: usize,
    line_end: usize,
    ended: bool,
}

impl Model for Lines {
    ghost use Rattle.outside_io.specs.Window.{Kept, kept_of, IsWindow};

    ghost Value = { Kept };

    ghost view = { kept_of };

    ghost invariant = { IsWindow };
}

// How many bytes stand before the first line end, or in all where there is none.
fn line_width(bytes: &[u8]) -> usize
    ensures { result ≡ first_width bytes.now }
{
    match memchr(LINE_END, bytes) {
        Some(place) => place,
        None => bytes.len(),
    }
}

fn answer_for(width: usize) -> NextLine
    ensures whole { width ≤ line_limit → result ≡ NextLine.Whole }
    ensures too_wide { line_limit < width → result ≡ NextLine.TooWide }
{
    if width <= LINE_LIMIT {
        NextLine::Whole
    } else {
        NextLine::TooWide
    }
}

impl Lines {
    ghost use Rattle.outside_io.specs.Lines.{AnswersTold, FindsIn, TakesLast, LooksLike};
    ghost use Rattle.outside_io.specs.Window.{Kept};

    /// Takes its buffer, and reads nothing yet.
    pub fn new(alloc: Global) -> Result<Lines, Memory>
        ensures text { IfOk result (λ lines. lines.text ≡ []) }
        ensures room { IfOk result (λ lines. lines.room ≡ script_limit) }
        ensures ended { IfOk result (λ lines. lines.ended ≡ false) }
    {
        Ok(Lines {
            buffer: vec![in alloc; 0; BUFFER]?,
            start: 0,
            end: 0,
            searched: 0,
            skipped: 0,
            room: SCRIPT_LIMIT,
            line_start: 0,
            line_end: 0,
            ended: false,
        })
    }

    /// The line of the last `Whole`, without its end.
    pub fn line(&self) -> &[u8]
        ensures { result.now ≡ self.now.line }
    {
        &self.buffer[self.line_start..self.line_end]
    }

    // Cuts off the next line where all of it is kept.
    fn cut(&mut self) -> Found
        ensures finds { FindsIn result self.old self.new }
        ensures within_room { length self.old.text ≤ self.old.room + 1 }
    {
        let window = &self.buffer[self.start..self.end];
        let kept = window.len();
        let length = self.searched + line_width(&window[self.searched..]);
        let width = self.skipped + length;
        if length < kept && width < self.room {
            self.line_start = self.start;
            self.line_end = self.start + length;
            self.start += length + 1;
            self.searched = 0;
            self.skipped = 0;
            self.room -= width + 1;
            return Found::Line(answer_for(width));
        }
        if self.skipped + kept > self.room {
            return Found::TooMuch;
        }
        self.searched = kept;
        Found::Nothing
    }

    // Hands out all that is kept, which holds no line end, as the last line: the source has ended.
    fn take_last(&mut self) -> NextLine
        requires no_end { first_width self.old.text ≡ length self.old.text }
        requires within { length self.old.text ≤ self.old.room }
        ensures { TakesLast result self.old self.new }
    {
        let width = self.skipped + (self.end - self.start);
        self.ended = true;
        if width == 0 {
            return NextLine::End;
        }
        self.line_start = self.start;
        self.line_end = self.end;
        self.start = self.end;
        self.searched = 0;
        self.skipped = 0;
        self.room -= width;
        answer_for(width)
    }

    // Makes room in the buffer behind what is kept, which holds no line end.
    fn make_space(&mut self)
        requires no_end { first_width self.old.text ≡ length self.old.text }
        ensures no_end { first_width self.new.text ≡ length self.new.text }
        ensures size { length self.new.text ≡ length self.old.text }
        ensures narrow { length self.old.text ≤ line_limit → self.new.text ≡ self.old.text }
        ensures room { self.new.room ≡ self.old.room }
        ensures ended { self.new.ended ≡ self.old.ended }
        ensures space { 0 < self.new.space }
    {
        let kept = self.end - self.start;
        self.line_start = 0;
        self.line_end = 0;
        if self.skipped + kept > LINE_LIMIT {
            self.skipped += kept;
            self.start = 0;
            self.end = 0;
            self.searched = 0;
        } else {
            self.buffer.copy_within(self.start..self.end, 0);
            self.start = 0;
            self.end = kept;
        }
    }

    // Reads a further piece behind what is kept, which holds no line end, and answers how many bytes came. It asks for
    // no more than one byte past the room.
    fn fill<S: Source>(&mut self, source: &mut S) -> Result<usize, Failed>
        requires no_end { first_width self.old.text ≡ length self.old.text }
        requires within { length self.old.text ≤ self.old.room }
        ensures text { AsTold S.left source.old source.new
            (λ before left. LooksLike (self.old.text ++ before) (self.new.text ++ left)) }
        ensures gives { AsTold S.left source.old source.new GivesFront }
        ensures size { IfOk result (λ count. length self.new.text ≡ length self.old.text + count) }
        ensures end { IfOk result
            (λ count. count ≡ 0 → IfSome (S.left source.new) (λ left. left ≡ [])) }
        ensures kept { OnErr result (length self.new.text ≡ length self.old.text) }
        ensures no_end { OnErr result (first_width self.new.text ≡ length self.new.text) }
        ensures still_none { IfOk result
            (λ count. count ≡ 0 → first_width self.new.text ≡ length self.new.text) }
        ensures within { length self.new.text ≤ self.new.room + 1 }
        ensures room { self.new.room ≡ self.old.room }
        ensures ended { self.new.ended ≡ self.old.ended }
        ensures fault { CountsFault result (S.faults source.old) (S.faults source.new) }
    {
        self.make_space();
        let end = self.end;
        let asked = (BUFFER - end).min(self.room + 1 - self.skipped - (end - self.start));
        match read_piece(source, &mut self.buffer, end, asked) {
            Ok(count) => {
                self.end += count;
                Ok(count)
            }
            Err(Failed) => Err(Failed),
        }
    }

    /// Hands out the next line of what is kept and, behind it, of what the source still has.
    /// After `ReadFault` a further call goes on from what was read; after `TooLong` it answers `TooLong` again. Of the
    /// source no more is read than one byte past the room. A source that has given its end is not asked again.
    pub fn next_line<S: Source>(&mut self, source: &mut S) -> Result<NextLine, LineEndFault>
        ensures answers { AnswersTold result
            self.old (S.left source.old) self.new (S.left source.new) }
        ensures once_ended { self.old.ended ≡ true → source.new ≡ source.old }
        ensures gives { AsTold S.left source.old source.new GivesFront }
        ensures over { result ≡ Err LineEndFault.TooLong → IsTooLong self.new.text self.new.room }
        ensures still_over { IsTooLong self.old.text self.old.room
            → result ≡ Err LineEndFault.TooLong }
        ensures none_whole { result ≡ Err LineEndFault.ReadFault
            → (first_width self.new.text ≡ length self.new.text)
            × (length self.new.text ≤ self.new.room) }
        ensures progress { IfOk result
            (λ answer. answer ≢ NextLine.End → self.new.room < self.old.room) }
        ensures within_room { length self.new.text ≤ self.new.room + 1 }
        ensures fault { CountsFaultIf (result ≡ Err LineEndFault.ReadFault)
            (S.faults source.old) (S.faults source.new) }
    {
        'lines: loop {
            match self.cut() {
                Found::Line(answer) => return Ok(answer),
                Found::TooMuch => return Err(LineEndFault::TooLong),
                Found::Nothing if self.ended => return Ok(self.take_last()),
                Found::Nothing => {}
            }
            if self.fill(source)? == 0 {
                return Ok(self.take_last());
            }
        }
    }
}
