//! A row of text, written from its end to its start: a number's last digit is known first, so
//! nothing has to be measured or moved.
ghost use Rattle.std.specs.Prelude.{◌≡◌, ◌+◌, ◌≤◌, ◌<◌, [], ◌∷◌, ◌++◌, length, drop, decimal};
ghost use Rattle.std.specs.Prelude.{IsUtf8};
ghost use Rattle.protocol.specs.Answers.{answer_text, reply_text};

use itoa::write_digits;
use protocol::{Answer, Call, Fault};
use std::str;

/// More bytes than any row has.
const ROOM: usize = 96;

/// The end of a row: the part that is written so far.
#[derive(Drop)]
pub(crate) struct Tail {
    bytes: [u8; ROOM],
    start: usize,
    ghost size: { length bytes ≡ 96 },
    ghost within: { start ≤ 96 },
    ghost utf8: { ∥ IsUtf8 (drop start bytes) ∥₁ },
}

impl Tail {
    ghost use Rattle.listing.specs.Rows.{mem_row, bad_row, call_row};
    ghost use Rattle.listing.specs.Tail.{tail};

    /// The row of a line's value at the end of a run.
    pub(crate) fn of_line(line: u32, value: u32) -> Tail
        ensures { tail result ≡ mem_row line value }
    {
        let mut row = Tail::new();
        row.set_line(line, value);
        row
    }

    /// Replaces the row by that of a line's value.
    pub(crate) fn set_line(&mut self, line: u32, value: u32)
        ensures { tail self.new ≡ mem_row line value }
    {
        self.clear();
        self.prepend_byte(b'\n');
        self.prepend_number(u64::from(value));
        self.prepend_byte(b' ');
        self.prepend_number(u64::from(line));
        self.prepend_word("mem ");
    }

    /// The row that says what is wrong with a calls file.
    pub(crate) fn of_damage(fault: Fault) -> Tail
        ensures { tail result ≡ bad_row fault }
    {
        let mut row = Tail::new();
        row.prepend_byte(b'\n');
        row.prepend_number(fault.number);
        row.prepend_byte(b' ');
        row.prepend_number(u64::from(fault.refusal.number()));
        row.prepend_word("bad ");
        row
    }

    /// The row of a call: its place in the run, counted from 1, its letter, its warp, and its
    /// answer or its refusal.
    pub(crate) fn of_call(place: u64, call: Call, reply: Result<Answer, Fault>) -> Tail
        ensures { tail result ≡ call_row place call reply }
    {
        let mut row = Tail::new();
        row.set_call(place, &call, &reply);
        row
    }

    /// Replaces the row by that of a call.
    pub(crate) fn set_call(&mut self, place: u64, call: &Call, reply: &Result<Answer, Fault>)
        ensures { tail self.new ≡ call_row place call.now reply.now }
    {
        self.clear();
        self.prepend_byte(b'\n');
        self.prepend_reply(*reply);
        self.prepend_byte(b' ');
        self.prepend_number(u64::from(call.warp));
        self.prepend_byte(b' ');
        self.prepend_byte(call.op.letter() as u8);
        self.prepend_byte(b' ');
        self.prepend_number(place);
    }

    /// The row's bytes.
    pub(crate) fn as_bytes(&self) -> &[u8]
        ensures { result.now ≡ tail self.now }
    {
        &self.bytes[self.start..]
    }

    /// The row's text.
    pub(crate) fn as_str(&self) -> &str
        ensures { result.now ≡ tail self.now }
    {
        str::from_utf8(self.as_bytes()).unwrap()
    }

    /// An empty row.
    pub(crate) fn new() -> Tail
        ensures text { tail result ≡ [] }
        ensures start { result.start ≡ 96 }
    {
        Tail {
            bytes: [0; ROOM],
            start: ROOM,
        }
    }

    // Removes what is written.
    fn clear(&mut self)
        ensures text { tail self.new ≡ [] }
        ensures start { self.new.start ≡ 96 }
    {
        self.start = ROOM;
    }

    // Writes a byte in front.
    fn prepend_byte(&mut self, byte: u8)
        requires ascii { byte < 128 }
        requires room { 1 ≤ self.old.start }
        ensures text { tail self.new ≡ byte ∷ tail self.old }
        ensures start { self.new.start + 1 ≡ self.old.start }
    {
        self.start -= 1;
        self.bytes[self.start] = byte;
    }

    // Writes a number in front, in decimal digits.
    fn prepend_number(&mut self, number: u64)
        requires room { 20 ≤ self.old.start }
        ensures text { tail self.new ≡ decimal number ++ tail self.old }
        ensures start { self.old.start ≤ self.new.start + 20 }
        ensures still { self.new.start ≤ self.old.start }
    {
        self.start = write_digits(number, &mut self.bytes, self.start);
    }

    // Writes a word in front.
    fn prepend_word(&mut self, word: &str)
        requires room { length word.now ≤ self.old.start }
        ensures text { tail self.new ≡ word.now ++ tail self.old }
        ensures start { self.new.start + length word.now ≡ self.old.start }
    {
        let start = self.start - word.len();
        self.bytes[start..self.start].copy_from_slice(word.as_bytes());
        self.start = start;
    }

    // Writes the answer to a call, or its refusal, in front.
    fn prepend_reply(&mut self, reply: Result<Answer, Fault>)
        requires room { 46 ≤ self.old.start }
        ensures text { tail self.new ≡ reply_text reply ++ tail self.old }
        ensures start { self.old.start ≤ self.new.start + 46 }
        ensures still { self.new.start ≤ self.old.start }
    {
        match reply {
            Ok(answer) => self.prepend_answer(answer),
            Err(fault) => {
                self.prepend_number(u64::from(fault.refusal.number()));
                self.prepend_word("no ");
            }
        }
    }

    // Writes an answer in front.
    fn prepend_answer(&mut self, answer: Answer)
        requires room { 46 ≤ self.old.start }
        ensures text { tail self.new ≡ answer_text answer ++ tail self.old }
        ensures start { self.old.start ≤ self.new.start + 46 }
        ensures still { self.new.start ≤ self.old.start }
    {
        match answer {
            Answer::Done => self.prepend_word("ok"),
            Answer::Val { value } => {
                self.prepend_number(u64::from(value));
                self.prepend_word("val ");
            }
            Answer::Wait => self.prepend_word("wait"),
            Answer::Gone { cause, next } => {
                self.prepend_number(next);
                self.prepend_byte(b' ');
                self.prepend_number(u64::from(cause.number()));
                self.prepend_word("gone ");
            }
        }
    }
}
