// The values of the house, and its functions.
ghost use Rattle.std.specs.Prelude.{◌≡◌, Contains, Some, codes, decimal, ◌++◌};
ghost use Rattle.archive.specs.Functions.{functions, function_of, count_of, sum_of, extended_of, choice_of, later_of, given_by, frames_of, clip_of, frames_or_nothing, house_text};
ghost use Rattle.archive.specs.Texts.{written};
ghost use Rattle.archive.specs.Rows.{length_of};

use super::clip::{Clip, Row, length};
use super::text::Text;
use std::error::Error;
use std::fmt;

// Nothing, a number of frames, or a clip.
#[derive(Clone, Copy, PartialEq, Eq)]
pub enum House<C> {
    Nothing,
    Frames(u32),
    Clip(C),
}

#[derive(Clone, Copy, Debug, PartialEq, Eq)]
pub enum Function {
    Zero,
    Copied,
    Sum,
    Extended,
    Choice,
    Later,
    Blank,
}

// A number that no function has.
#[derive(Clone, Copy, Debug, PartialEq, Eq)]
pub struct UnknownFunction(pub u8);

impl fmt::Display for UnknownFunction {
    ghost output = { λ e. Some (codes "no function has the number " ++ decimal e.0) };

    fn fmt<W: fmt::Write>(&self, f: &mut fmt::Formatter<W>) -> fmt::Result {
        write!(f, "no function has the number {}", self.0)
    }
}

impl Error for UnknownFunction {}

// The function of a number.
impl TryFrom<u8> for Function {
    type Error = UnknownFunction;

    ghost try_from_gives = { λ number r. r ≡ function_of number };

    fn try_from(number: u8) -> Result<Function, UnknownFunction> {
        match number {
            0 => Ok(Function::Zero),
            1 => Ok(Function::Copied),
            2 => Ok(Function::Sum),
            3 => Ok(Function::Extended),
            4 => Ok(Function::Choice),
            5 => Ok(Function::Later),
            6 => Ok(Function::Blank),
            _ => Err(UnknownFunction(number)),
        }
    }
}

impl Function {
    // How many arguments the function takes.
    pub fn arguments(self) -> u8
        ensures { Contains functions (self, result) }
    {
        match self {
            Function::Zero | Function::Blank => 0,
            Function::Copied => 1,
            Function::Sum | Function::Extended | Function::Choice | Function::Later => 2,
        }
    }

    // How many arguments the function of a number takes; None where there is none.
    pub fn count(number: u8) -> Option<u8>
        ensures { result ≡ count_of number }
    {
        Function::try_from(number).ok().map(Function::arguments)
    }

    // What the function gives of two values, over the rows of a catalogue.
    pub fn of<C: Clip>(self, rows: &[Row<C>], a: House<C>, b: House<C>) -> House<C>
        ensures { result ≡ given_by (length_of C.eq rows.now) self a b }
    {
        match self {
            Function::Zero => House::Frames(0),
            Function::Copied => a,
            Function::Sum => a.sum(b),
            Function::Extended => a.extended(rows, b),
            Function::Choice => a.choice(b),
            Function::Later => a.later(b),
            Function::Blank => House::Nothing,
        }
    }
}

// A number of frames, or nothing.
impl<C: Clip> From<Option<u32>> for House<C> {
    ghost from_gives = { λ frames value. value ≡ frames_or_nothing frames };

    fn from(frames: Option<u32>) -> House<C> {
        frames.map_or(House::Nothing, |n| House::Frames(n))
    }
}

impl<C: Clip> House<C> {
    // The number of frames, if this is one.
    pub fn frames(self) -> Option<u32>
        ensures { result ≡ frames_of self }
    {
        match self {
            House::Frames(frames) => Some(frames),
            House::Nothing | House::Clip(_) => None,
        }
    }

    // The clip, if this is one.
    pub fn clip(self) -> Option<C>
        ensures { result ≡ clip_of self }
    {
        match self {
            House::Clip(clip) => Some(clip),
            House::Nothing | House::Frames(_) => None,
        }
    }

    // Both as frames, added, and held at the largest number of frames.
    pub fn sum(self, other: House<C>) -> House<C>
        ensures { result ≡ sum_of self other }
    {
        self.frames()
            .zip(other.frames())
            .map(|(x, y)| x.saturating_add(y))
            .into()
    }

    // These frames, and those that a clip has by the catalogue, whose rows are gone through only where both are there.
    pub fn extended(self, rows: &[Row<C>], other: House<C>) -> House<C>
        ensures { result ≡ extended_of (length_of C.eq rows.now) self other }
    {
        self.frames()
            .zip(other.clip())
            .and_then(|(frames, clip)| {
                let added = length(rows, clip)?;
                Some(frames.saturating_add(added))
            })
            .into()
    }

    // This value, or the other if this is nothing.
    pub fn choice(self, other: House<C>) -> House<C>
        ensures { result ≡ choice_of self other }
    {
        match self {
            House::Nothing => other,
            House::Frames(_) | House::Clip(_) => self,
        }
    }

    // The later of two frames.
    pub fn later(self, other: House<C>) -> House<C>
        ensures { result ≡ later_of self other }
    {
        self.frames()
            .zip(other.frames())
            .map(|(x, y)| x.max(y))
            .into()
    }

    // The text of a value.
    // Pushed and not printed by Display, since a text may be any bytes, and writing it can't fail.
    pub fn text(self) -> Text
        ensures { written result ≡ house_text C.Clip.texts self }
    {
        match self {
            House::Nothing => {
                let mut text = Text::new();
                text.push(b'-');
                text
            }
            House::Frames(frames) => Text::lettered(b'f', frames),
            House::Clip(clip) => clip.text(),
        }
    }
}
