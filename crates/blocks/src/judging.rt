// Blocks are judged.
ghost use Rattle.std.specs.Prelude.{◌≡◌, ◌+◌, ◌^◌, ◌<◌, true, [], ◌∷◌, length, Some, MatchOption, OnOk};
ghost use Rattle.std.specs.Result.{result_err};
ghost use Rattle.tour.specs.Blocks.{reads};
ghost use Rattle.blocks.specs.declared.piece.BlockFault.TheVariants.{Form};
ghost use Rattle.sheet.specs.Answers.{grammar_of};
ghost use Rattle.blocks.specs.Block.{pairs, own_symbol, block_fault, tree_fault, symbol_or};
ghost use Rattle.blocks.specs.Rows.{NoRow, Row};

use super::piece::{BlockFault, Piece};
use places::kind_of;
use plans::require;
use sheet::Sheet;

const MOST_PIECES: usize = 1024;

const DEEPEST: usize = 64;

// Reads a row of trees with these symbols, whose roots lie that deep, off the front of the pieces: how deep they go,
// and the pieces that are left. None where they are not there, a fault of form to every caller: as a Result the contract
// would have to say so once more.
fn measure_row<'a>(
    sheet: &Sheet,
    symbols: &[u16],
    depth: usize,
    pieces: &'a [Piece],
) -> Option<(usize, &'a [Piece])>
    requires { depth + length pieces.now < 2 ^ 32 }
    ensures { MatchOption result (NoRow (grammar_of sheet.now) symbols.now pieces.now) (λ m. Row (grammar_of sheet.now) symbols.now depth pieces.now m.0 m.1.now) }
{
    let [symbol, others @ ..] = symbols else {
        return Some((0, pieces));
    };
    let [first, rest @ ..] = pieces else {
        return None;
    };
    let kind = kind_of(sheet, first.rule as usize)?;
    if kind.left != *symbol {
        return None;
    }
    let (below, rest) = measure_row(sheet, kind.right, depth + 1, rest)?;
    let (beside, rest) = measure_row(sheet, others, depth, rest)?;
    Some((depth.max(below).max(beside), rest))
}

// The symbol that the first piece must have: the one that is named, or the piece's own. None, a fault of form, where
// there is neither: as a Result the contract would have to say so once more.
fn first_symbol(sheet: &Sheet, named: Option<u16>, block: &[Piece]) -> Option<u16>
    ensures { MatchOption result (tree_fault (grammar_of sheet.now) (symbol_or (grammar_of sheet.now) named block.now) block.now ≡ Some Form) (λ x. x ≡ symbol_or (grammar_of sheet.now) named block.now) }
{
    match (named, block) {
        (Some(symbol), _) => Some(symbol),
        (None, [first, ..]) => kind_of(sheet, first.rule as usize).map(|kind| kind.left),
        (None, []) => None,
    }
}

// Whether pieces are those of just one tree of a symbol, and that not too deep.
fn judge_tree(sheet: &Sheet, symbol: u16, pieces: &[Piece]) -> Result<(), BlockFault>
    requires { length pieces.now < 2 ^ 31 }
    ensures { result_err result ≡ tree_fault (grammar_of sheet.now) symbol pieces.now }
{
    let (deepest, rest) = measure_row(sheet, &[symbol], 1, pieces).ok_or(BlockFault::Form)?;
    require(rest.is_empty(), BlockFault::Form)?;
    require(deepest <= DEEPEST, BlockFault::Depth)
}

// Whether pieces are a block, its first piece of that symbol, if one is named.
pub fn judge_block(sheet: &Sheet, first: Option<u16>, block: &[Piece]) -> Result<(), BlockFault>
    ensures fault { result_err result ≡ block_fault (grammar_of sheet.now) first block.now }
    ensures readable { OnOk result (reads (grammar_of sheet.now) (own_symbol (grammar_of sheet.now) block.now ∷ []) (pairs block.now) ≡ true) }
{
    require((1..=MOST_PIECES).contains(&block.len()), BlockFault::Length)?;
    let symbol = first_symbol(sheet, first, block).ok_or(BlockFault::Form)?;
    judge_tree(sheet, symbol, block)
}
