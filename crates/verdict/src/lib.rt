// What was found of a text, in the words that programs print.
#![tactic(auto)]

ghost use Rattle.std.specs.Prelude.{◌≡◌, Some};
ghost use Rattle.reader.specs.Judgement.{judge};
ghost use Rattle.sheet.specs.Answers.{grammar_of};
ghost use Rattle.verdict.specs.Verdicts.{Says, Kept, account_text, accepted_in, head_text, detail_text, sentence_text};

use sheet::{Counts, Fault, Sheet};
use std::fmt;

// How much was accepted, or where and why the text was refused. It prints as all of that, a line each; for a person.
#[derive(Clone, Copy, Debug, PartialEq, Eq)]
pub struct Verdict(pub Result<Counts, Fault>);

// `accepted`, or `refused=` and the number.
#[derive(Clone, Copy)]
pub struct Head(Verdict);

// How much was accepted, or where the fault is.
#[derive(Clone, Copy)]
pub struct Detail(Verdict);

impl Verdict {
    // Reads a text into a sheet, and says what came of it.
    pub fn of(sheet: &mut Sheet, text: &[u8]) -> Verdict
        ensures says { Says result.0 (judge text.now) }
        ensures kept { Kept (judge text.now) (grammar_of sheet.new) }
    {
        Verdict(sheet.read(text).map(|()| sheet.counts()))
    }

    pub fn is_accepted(&self) -> bool
        ensures { result ≡ accepted_in self.now.0 }
    {
        self.0.is_ok()
    }

    pub fn head(&self) -> Head
        ensures { result.0 ≡ self.now }
    {
        Head(*self)
    }

    pub fn detail(&self) -> Detail
        ensures { result.0 ≡ self.now }
    {
        Detail(*self)
    }

    // One plain sentence about a refusal; nothing about what was accepted.
    pub fn sentence(&self) -> &'static str
        ensures { result.now ≡ sentence_text self.now.0 }
    {
        self.0.err().map_or("", |fault| fault.refusal.sentence())
    }
}

impl fmt::Display for Head {
    ghost output = { λ h. Some (head_text h.0.0) };

    fn fmt<W: fmt::Write>(&self, f: &mut fmt::Formatter<W>) -> fmt::Result {
        match self.0.0 {
            Ok(_) => f.write_str("accepted"),
            Err(fault) => write!(f, "refused={}", u8::from(fault.refusal)),
        }
    }
}

impl fmt::Display for Detail {
    ghost output = { λ d. Some (detail_text d.0.0) };

    fn fmt<W: fmt::Write>(&self, f: &mut fmt::Formatter<W>) -> fmt::Result {
        match self.0.0 {
            Ok(counts) => write!(f, "{counts}"),
            Err(fault) => write!(f, "{fault}"),
        }
    }
}

impl fmt::Display for Verdict {
    ghost output = { λ v. Some (account_text v.0) };

    fn fmt<W: fmt::Write>(&self, f: &mut fmt::Formatter<W>) -> fmt::Result {
        let head = self.head();
        let detail = self.detail();
        match self.0 {
            Ok(_) => write!(f, "{head}\n{detail}\n"),
            Err(_) => write!(f, "{head}\n{detail}\n{}\n", self.sentence()),
        }
    }
}
