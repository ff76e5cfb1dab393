// The words of a text: parts that borrow its bytes, each with its line.
#![tactic(auto)]

ghost use Rattle.std.specs.Prelude.{◌≡◌, ◌-◌, ◌<◌, [], ◌∷◌, cond, length, Some, None, MatchOption};
ghost use Rattle.std.specs.Iterator.{item_count};
ghost use Rattle.words.specs.Cuts.{cut_at};
ghost use Rattle.words.specs.Numbers.{both, digit, number_in, pair_in};
ghost use Rattle.words.specs.Tokens.{lex, token_of, number_of, pair_word, words_in, line_in};
ghost use Rattle.words.specs.Left.{left, left_in, Gives, KeyedLine};

// A word of a line. Numbers and pairs are told by their first byte and their dot alone; whether their digits make
// a number is asked later.
#[derive(Clone, Copy)]
pub enum Word<'a> {
    Key(&'a [u8]),
    Number(&'a [u8]),
    Pair(&'a [u8], &'a [u8]),
    Instruction(&'a [u8]),
}

// A word and the line in which it stands, counted from 1.
#[derive(Clone, Copy)]
pub struct Placed<'a> {
    pub word: Word<'a>,
    pub line: u16,
}

// What stands before the first `c` of `s`, and what after it.
pub fn cut(s: &[u8], c: u8) -> Option<(&[u8], &[u8])>
    ensures { MatchOption result (cut_at c s.now ≡ None) (λ p. (cut_at c s.now ≡ Some (record { before = p.0.now; after = p.1.now })) × (length p.1.now < length s.now)) }
{
    let at = s.iter().position(|x| *x == c)?;
    Some((&s[..at], &s[at + 1..]))
}

fn digit(byte: u8) -> Option<u16>
    ensures { result ≡ cond (digit byte) (Some (byte - 48)) None }
{
    byte.is_ascii_digit().then(|| u16::from(byte - b'0'))
}

// 0, or 1 to 3 digits, the first not 0. They are read one by one, since the library's `parse` takes what is refused
// here: `+1`, `01`, `1000`.
pub fn number(digits: &[u8]) -> Option<u16>
    ensures { result ≡ number_in digits.now }
{
    match digits {
        [a] => digit(*a),
        [b'0', ..] => None,
        [a, b] => Some(digit(*a)? * 10 + digit(*b)?),
        [a, b, c] => Some(digit(*a)? * 100 + digit(*b)? * 10 + digit(*c)?),
        _ => None,
    }
}

fn numbers(a: &[u8], b: &[u8]) -> Option<(u16, u16)>
    ensures { result ≡ both (number_in a.now) (number_in b.now) }
{
    Some((number(a)?, number(b)?))
}

// Two numbers with a dot between them.
pub fn pair(digits: &[u8]) -> Option<(u16, u16)>
    ensures { result ≡ pair_in digits.now }
{
    let (a, b) = cut(digits, b'.')?;
    numbers(a, b)
}

impl<'a> Word<'a> {
    fn of(bytes: &'a [u8]) -> Word<'a>
        ensures { token_of result ≡ lex bytes.now }
    {
        match bytes {
            [b'0'..=b'9', ..] => cut(bytes, b'.').map_or(
                Word::Number(bytes),
                |(a, b)| Word::Pair(a, b),
            ),
            [_, b'0'..=b'9', ..] => Word::Instruction(bytes),
            _ => Word::Key(bytes),
        }
    }

    // The number that the word is.
    pub fn number(self) -> Option<u16>
        ensures { result ≡ number_of (token_of self.entry) }
    {
        match self {
            Word::Number(digits) => number(digits),
            _ => None,
        }
    }

    // The two numbers of a dotted pair.
    pub fn pair(self) -> Option<(u16, u16)>
        ensures { result ≡ pair_word (token_of self.entry) }
    {
        match self {
            Word::Pair(a, b) => numbers(a, b),
            _ => None,
        }
    }
}

// The words of a text, one after another, parted by one space.
#[derive(Clone, Copy)]
pub struct Words<'a> {
    rest: Option<&'a [u8]>,
    line: u16,
}

// A line: the key before its first `=`, and the words behind that.
#[derive(Clone, Copy)]
pub struct Line<'a> {
    pub key: Placed<'a>,
    pub words: Words<'a>,
}

// What stands before the first space of a text, and what behind it; all of it, and nothing, where there is no space.
fn first(text: &[u8]) -> (&[u8], Option<&[u8]>)
    ensures { words_in text.now ≡ lex result.0.now ∷ left_in result.1 }
{
    cut(text, b' ').map_or((text, None), |(word, rest)| (word, Some(rest)))
}

impl<'a> Iterator for Words<'a> {
    type Item = Placed<'a>;

    ghost next_gives = { Gives };

    ghost remaining = { item_count left };

    fn next(&mut self) -> Option<Placed<'a>> {
        let (word, rest) = first(self.rest?);
        self.rest = rest;
        Some(Placed {
            word: Word::of(word),
            line: self.line,
        })
    }
}

impl<'a> Line<'a> {
    // The line of that number, which has the bytes `text`; none without a `=`.
    pub fn new(text: &'a [u8], line: u16) -> Option<Line<'a>>
        ensures { MatchOption result (line_in text.now ≡ None) (λ l. KeyedLine l line (line_in text.now)) }
    {
        let (key, rest) = cut(text, b'=')?;
        let key = Placed {
            word: Word::Key(key),
            line,
        };
        Some(Line {
            key,
            words: Words {
                rest: Some(rest),
                line,
            },
        })
    }
}
