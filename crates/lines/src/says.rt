// What the words of a line say.
ghost use Rattle.std.specs.Prelude.{◌≡◌};
ghost use Rattle.std.specs.Option.{ok_or};
ghost use Rattle.grammar.specs.declared.refusal.Refusal.TheVariants.{LineForm};
ghost use Rattle.words.specs.Left.{left};
ghost use Rattle.words.specs.Tokens.{number_of, pair_word};
ghost use Rattle.lines.specs.Lines.{key_in, symbol_in, rule_in, set_in};
ghost use Rattle.lines.specs.Read.{FirstRead, symbol_read, rule_read, set_read};

use arrayvec::ArrayVec;
use grammar::{Equation, Production, Refusal, Spelled, SymbolRow, read_list};
use words::Words;

// The first word of a line says what kind of line it is.
#[derive(Clone, Copy)]
pub enum Key {
    OfSymbol,
    OfRule,
    OfSet,
    OfPlan,
}

impl TryFrom<&[u8]> for Key {
    type Error = Refusal;

    ghost try_from_gives = { λ name r. r ≡ ok_or (key_in name.now) LineForm };

    fn try_from(name: &[u8]) -> Result<Key, Refusal> {
        match name {
            b"symbol" => Ok(Key::OfSymbol),
            b"rule" => Ok(Key::OfRule),
            b"set" => Ok(Key::OfSet),
            b"plan" => Ok(Key::OfPlan),
            _ => Err(Refusal::LineForm),
        }
    }
}

// The symbols of a rule, which are the words behind `rule=`.
#[derive(Drop)]
pub struct RuleSymbols {
    pub left: u16,
    pub right: ArrayVec<u16, 4>,
}

impl RuleSymbols {
    // The rule's occurrences, where these are the symbols of the sheet.
    pub fn production<'a>(&'a self, symbols: &'a [SymbolRow]) -> Production<'a>
        ensures symbols { result.symbols.now ≡ symbols.now }
        ensures left { result.left ≡ self.now.left }
        ensures right { result.right.now ≡ self.now.right.items }
    {
        Production {
            symbols,
            left: self.left,
            right: self.right.as_slice(),
        }
    }
}

// The words behind `set=`.
pub type SetWords = Equation<u16>;

// What the next word says.
fn next<T: Spelled>(words: &mut Words<'_>) -> Result<T, Refusal>
    ensures { FirstRead T.Spelled.spelled result (left words.old) (left words.new) }
{
    words
        .next()
        .and_then(|placed| T::read(placed.word))
        .ok_or(Refusal::LineForm)
}

// The words behind `symbol=`.
pub fn symbol(mut words: Words<'_>) -> Result<SymbolRow, Refusal>
    ensures { symbol_read result ≡ symbol_in (left words.entry) }
{
    Ok(SymbolRow {
        visits: next(&mut words)?,
        attributes: read_list(words)?,
    })
}

pub fn rule(mut words: Words<'_>) -> Result<RuleSymbols, Refusal>
    ensures { rule_read result ≡ rule_in (left words.entry) }
{
    Ok(RuleSymbols {
        left: next(&mut words)?,
        right: read_list(words)?,
    })
}

pub fn equation(mut words: Words<'_>) -> Result<SetWords, Refusal>
    ensures { set_read result ≡ set_in (left words.entry) }
{
    let (occurrence, attribute) = next(&mut words)?;
    let function = next(&mut words)?;
    Ok(SetWords {
        occurrence,
        attribute,
        function,
        arguments: read_list(words)?,
    })
}
