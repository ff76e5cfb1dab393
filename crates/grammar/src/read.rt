// What words say, and lists of such words.
ghost use Rattle.std.specs.Prelude.{◌≡◌, Option};
ghost use Rattle.words.specs.Tokens.{Token, token_of, number_of, pair_word};
ghost use Rattle.words.specs.Left.{left};
ghost use Rattle.words.specs.Numbers.{number_in};
ghost use Rattle.grammar.specs.Listed.{listed_in};
ghost use Rattle.grammar.specs.Forms.{all_of, at_most, with_visit, attribute_word, argument_word, instruction_word};

use super::refusal::Refusal;
use super::terms::{Argument, Attribute, Flow, Instruction};
use arrayvec::ArrayVec;
use words::{Word, Words, number, pair};

// What a single word can say. It is no `TryFrom<Word>`, since neither `u16` nor `Word` is of this crate.
pub trait Spelled: Copy {
    ghost spelled: { Token → Option Self };

    fn read(word: Word<'_>) -> Option<Self>
        ensures { result ≡ spelled (token_of word.entry) };
}

impl Spelled for u16 {
    ghost spelled = { number_of };

    fn read(word: Word<'_>) -> Option<u16> {
        word.number()
    }
}

impl Spelled for (u16, u16) {
    ghost spelled = { pair_word };

    fn read(word: Word<'_>) -> Option<(u16, u16)> {
        word.pair()
    }
}

impl Attribute {
    fn of(flow: Flow, digits: &[u8]) -> Option<Attribute>
        ensures { result ≡ with_visit flow (number_in digits.now) }
    {
        number(digits).map(|visit| Attribute { flow, visit })
    }
}

// I or S, and then a visit.
impl Spelled for Attribute {
    ghost spelled = { attribute_word };

    fn read(word: Word<'_>) -> Option<Attribute> {
        match word {
            Word::Instruction([b'I', digits @ ..]) => Attribute::of(Flow::Inherited, digits),
            Word::Instruction([b'S', digits @ ..]) => Attribute::of(Flow::Synthesized, digits),
            _ => None,
        }
    }
}

// A dotted pair, or d.
impl Spelled for Argument {
    ghost spelled = { argument_word };

    fn read(word: Word<'_>) -> Option<Argument> {
        match word {
            Word::Key([b'd']) => Some(Argument::Datum),
            _ => word.pair().map(|(occurrence, attribute)| Argument::Of(occurrence, attribute)),
        }
    }
}

// e, v or r, and then a pair or a number.
impl Spelled for Instruction {
    ghost spelled = { instruction_word };

    fn read(word: Word<'_>) -> Option<Instruction> {
        match word {
            Word::Instruction([b'e', rest @ ..]) => {
                let (occurrence, attribute) = pair(rest)?;
                Some(Instruction::Evaluate(occurrence, attribute))
            }
            Word::Instruction([b'v', rest @ ..]) => {
                let (occurrence, visit) = pair(rest)?;
                Some(Instruction::Visit(occurrence, visit))
            }
            Word::Instruction([b'r', rest @ ..]) => number(rest).map(Instruction::Return),
            _ => None,
        }
    }
}

// What the words say, if each says something and there are at most N.
pub fn read_list<T: Spelled + Default, const N: usize>(
    words: Words<'_>,
) -> Result<ArrayVec<T, N>, Refusal>
    ensures { listed_in result ≡ at_most N (all_of T.Spelled.spelled (left words.entry)) }
{
    let mut list = ArrayVec::new();
    // Carried beside the list, since a word of wrong form further on is told before too many words.
    let mut fits = Ok(());
    for placed in words {
        let item = T::read(placed.word).ok_or(Refusal::LineForm)?;
        fits = fits.and(list.try_push(item).map_err(|_| Refusal::Range));
    }
    fits?;
    Ok(list)
}
