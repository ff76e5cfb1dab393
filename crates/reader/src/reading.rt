// A text is read line by line.
ghost use Rattle.std.specs.Prelude.{◌≡◌, ◌≤◌, ◌==◌, ◌&&◌, length};
ghost use Rattle.words.specs.Cuts.{parts_at};
ghost use Rattle.words.specs.Left.{left};
ghost use Rattle.words.specs.Tokens.{token_of};
ghost use Rattle.reader.specs.Judgement.{judge, judge_from, judge_line, on_line, on_token, whole};
ghost use Rattle.lines.specs.Lines.{parse};
ghost use Rattle.reader.specs.Views.{state_of, Stepped, LineRead, TextRead, Answered};

use super::fault::Fault;
use super::tables::Tables;
use grammar::Refusal;
use lines::Key;
use plans::require;
use words::{Line, Word, Words, cut};

impl Tables {
    // The words behind a key.
    fn read_words(&mut self, key: Key, words: Words<'_>) -> Result<(), Refusal>
        ensures { Stepped result (on_line (state_of self.old) (parse key (left words.entry))) self.new }
    {
        match key {
            Key::OfSymbol => self.add_symbol(words),
            Key::OfRule => self.open_rule(words),
            Key::OfSet => self.add_equation(words),
            Key::OfPlan => self.close_rule(words),
        }
    }

    // A line, from its key on.
    fn read_keyed(&mut self, first: Word<'_>, words: Words<'_>) -> Result<(), Refusal>
        ensures { Stepped result (on_token (state_of self.old) (token_of first.entry) (left words.entry)) self.new }
    {
        let Word::Key(name) = first else {
            return Err(Refusal::LineForm);
        };
        let key = Key::try_from(name)?;
        require(self.allows(key), Refusal::LineForm)?;
        self.read_words(key, words)
    }

    // One line, without the byte that ends it.
    fn read_line(&mut self, text: &[u8], number: u16) -> Result<(), Fault>
        ensures { LineRead result (judge_line (state_of self.old) text.now) number self.new }
    {
        let line = Line::new(text, number).ok_or(Fault {
            refusal: Refusal::LineForm,
            line: number,
        })?;
        self.read_keyed(line.key.word, line.words)
            .map_err(|refusal| Fault {
                refusal,
                line: line.key.line,
            })
    }

    // All lines of a text of a fair length, after what was read before.
    fn read_lines(&mut self, text: &[u8]) -> Result<(), Fault>
        requires { length text.now ≤ 32768 }
        ensures { TextRead result (judge_from 1 (state_of self.old) (parts_at 10 text.now)) self.new }
    {
        // A loop, since the last part is no line: an iterator over the parts would have to tell it from the others, and
        // its number is asked for behind them.
        let mut rest = text;
        let mut at = 1u16;
        while let Some((line, after)) = cut(rest, b'\n') {
            self.read_line(line, at)?;
            rest = after;
            at += 1;
        }
        require(
            self.ends_before(rest),
            Fault {
                refusal: Refusal::LineForm,
                line: at,
            },
        )
    }

    // Whether the sheet may end here.
    fn is_whole(&self) -> bool
        ensures { result ≡ whole (state_of self.now) }
    {
        self.has_rules() && !self.is_open()
    }

    // Whether the text may end here, where `rest` stands behind its last line.
    fn ends_before(&self, rest: &[u8]) -> bool
        ensures { result ≡ (length rest.now == 0 && whole (state_of self.now)) }
    {
        rest.is_empty() && self.is_whole()
    }

    // The sheet that a text is, in place of what was there before; or its first fault, and then nothing is there.
    pub fn read(&mut self, text: &[u8]) -> Result<(), Fault>
        ensures { Answered result (judge text.now) self.new }
    {
        self.clear();
        let fair = !text.is_empty() && text.len() <= 32768;
        require(
            fair,
            Fault {
                refusal: Refusal::Length,
                line: 0,
            },
        )?;
        // A test, since of `inspect_err(|_| self.clear())` the proof does not learn what the closure leaves in the tables.
        let answer = self.read_lines(text);
        if answer.is_err() {
            self.clear();
        }
        answer
    }
}
