// The text of a report, written into a buffer.
#![tactic(auto)]

ghost use Rattle.std.specs.Prelude.{◌≡◌, ◌+◌, ◌≤◌, ◌++◌, [], length};
ghost use Rattle.protocol.specs.Accounts.{cycles_of};
ghost use Rattle.trace_text.specs.Text.{number_width, decimal, field, line, account_lines, text, field_width, line_width, account_width, text_width};

mod digits;

use protocol_types::Account;
use std::marker::Model;
use trace_lines::ReportNumbers;

// The most bytes that a report is: 20 digits to a number.
pub const TEXT_WIDTH: usize = 192;

// A text that is written from its start on. Clauses see the bytes written so far.
#[derive(Drop)]
pub struct TextBuffer {
    bytes: [u8; TEXT_WIDTH],
    length: usize,
}

impl Model for TextBuffer {
    ghost use Rattle.std.specs.Prelude.{◌≤◌, ℕ, List, take};
    ghost use Rattle.trace_text.specs.Text.{text_width};

    ghost Value = { List ℕ };

    ghost view = { λ b. take b.length b.bytes };

    ghost invariant = { λ b. b.length ≤ text_width };
}

impl TextBuffer {
    fn new() -> Self
        ensures { result ≡ [] }
    {
        TextBuffer {
            bytes: [0; TEXT_WIDTH],
            length: 0,
        }
    }

    // The bytes written so far.
    pub fn written(&self) -> &[u8]
        ensures { result.now ≡ self.now }
    {
        &self.bytes[..self.length]
    }

    // Appends bytes.
    fn put(&mut self, bytes: &[u8])
        requires { length self.old + length bytes.now ≤ text_width }
        ensures { self.new ≡ self.old ++ bytes.now }
    {
        let end = self.length + bytes.len();
        self.bytes[self.length..end].copy_from_slice(bytes);
        self.length = end;
    }

    // A number.
    fn put_number(&mut self, number: u64)
        requires { length self.old + number_width ≤ text_width }
        ensures appended { self.new ≡ self.old ++ decimal number }
        ensures room { length self.new ≤ length self.old + number_width }
    {
        let end = self.length + digits::digit_count(number);
        digits::write_digits(number, &mut self.bytes[self.length..end]);
        self.length = end;
    }

    // A word and a number.
    #[tactic(auto, unfolding(crate::specs::Text::field))]
    fn put_field(&mut self, word: &[u8], number: u64)
        requires { length self.old + field_width word.now ≤ text_width }
        ensures appended { self.new ≡ self.old ++ field word.now number }
        ensures room { length self.new ≤ length self.old + field_width word.now }
    {
        self.put(word);
        self.put(b" ");
        self.put_number(number);
    }

    // A line of a word and a number.
    #[tactic(auto, unfolding(crate::specs::Text::line))]
    fn put_line(&mut self, word: &[u8], number: u64)
        requires { length self.old + line_width word.now ≤ text_width }
        ensures appended { self.new ≡ self.old ++ line word.now number }
        ensures room { length self.new ≤ length self.old + line_width word.now }
    {
        self.put_field(word, number);
        self.put(b"\n");
    }

    // The five lines of an account.
    fn put_account(&mut self, account: Account)
        requires { length self.old + account_width ≤ text_width }
        ensures appended { self.new ≡ self.old ++ account_lines account }
        ensures room { length self.new ≤ length self.old + account_width }
    {
        self.put_line(b"requests", account.requests as u64);
        self.put_line(b"fetch", account.fetch as u64);
        self.put_line(b"write-back", account.write_back as u64);
        self.put_line(b"update", account.update as u64);
        self.put_line(b"total", cycles(account));
    }
}

// The cycles of each kind, summed where the sum of three u32 fits.
fn cycles(account: Account) -> u64
    ensures { result ≡ cycles_of account }
{
    account.fetch as u64 + account.write_back as u64 + account.update as u64
}

// The six lines of a report in numbers: at most TEXT_WIDTH bytes.
pub fn render(numbers: ReportNumbers) -> TextBuffer
    ensures lines { result ≡ text numbers }
    ensures width { length result ≤ text_width }
{
    let mut text = TextBuffer::new();
    text.put_account(numbers.account);
    text.put_field(b"ended", numbers.refusal as u64);
    text.put_line(b"", numbers.line as u64);
    text
}
