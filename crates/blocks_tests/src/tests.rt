// Blocks by the sheet of examples/day.sheet: rule 0 has a child, rule 1 has two, rule 2 none.
ghost use Rattle.std.specs.Prelude.{◌≤◌, length, None};

use archive::Archive;
use blocks::{BlockFault, Piece, blank_values, free_all, judge_block, write_block};
use places::{Node, Parent, Place, free_places};
use sheet::Sheet;
use std::test::*;

// The text of examples/day.sheet, which code can't read in as it is built; a crate of its own would only hold it and `day`.
const DAY: &[u8] =
    b"symbol=1 S1\nsymbol=2 S1 I2 I2 S2\nrule=0 1\nset=0.0 1 1.3\nset=1.1 0\nset=1.2 6\nplan=v1.1 e1.1 e1.2 v1.2 e0.0 r1\nrule=1 1 1\nset=0.0 4 1.0 2.0\nset=0.3 1 2.3\nset=1.1 1 0.1\nset=1.2 4 2.0 0.2\nset=2.1 1 1.3\nset=2.2 1 0.2\nplan=v1.1 v2.1 e0.0 r1 e1.1 e1.2 v1.2 e2.1 e2.2 v2.2 e0.3 r2\nrule=1\nset=0.0 1 d\nset=0.3 3 0.1 d\nplan=e0.0 r1 e0.3 r2\n";

const LEAF: Piece = Piece { rule: 2, datum: 7 };

fn day(rt: HostRuntime) -> Result<Sheet, Fail> {
    let mut sheet = Sheet::new(rt.alloc())?;
    sheet.read(DAY)?;
    Ok(sheet)
}

// The first pieces are of rule 1: with one leaf more behind them they are a tree that is one deeper than they are many.
fn lead(block: &mut [Piece], count: usize)
    requires { count ≤ length block.old }
{
    block[..count].fill(Piece { rule: 1, datum: 0 });
}

#[test]
fn depth_64(rt: HostRuntime) -> Result<(), Fail> {
    let sheet = day(rt)?;
    let mut block = [LEAF; 127];
    lead(&mut block, 63);
    assert!(rt; judge_block(&sheet, Some(1), &block).is_ok());
    Ok(())
}

#[test]
fn depth_65(rt: HostRuntime) -> Result<(), Fail> {
    let sheet = day(rt)?;
    let mut block = [LEAF; 129];
    lead(&mut block, 64);
    assert_eq!(rt;
        judge_block(&sheet, Some(1), &block),
        Err(BlockFault::Depth)
    );
    Ok(())
}

#[test]
fn far_too_deep(rt: HostRuntime) -> Result<(), Fail> {
    let sheet = day(rt)?;
    let mut block = [LEAF; 1023];
    lead(&mut block, 511);
    assert_eq!(rt; judge_block(&sheet, None, &block), Err(BlockFault::Depth));
    Ok(())
}

#[test]
fn wrong_symbol_far_below(rt: HostRuntime) -> Result<(), Fail> {
    let sheet = day(rt)?;
    let mut block = [LEAF; 1023];
    lead(&mut block, 511);
    block[1022] = Piece { rule: 0, datum: 0 };
    assert_eq!(rt; judge_block(&sheet, None, &block), Err(BlockFault::Form));
    Ok(())
}

#[test]
fn too_few_and_too_many(rt: HostRuntime) -> Result<(), Fail> {
    let sheet = day(rt)?;
    let block = [LEAF; 1025];
    assert_eq!(rt;
        judge_block(&sheet, None, &block[0..0]),
        Err(BlockFault::Length)
    );
    assert_eq!(rt;
        judge_block(&sheet, None, &block[0..1024]),
        Err(BlockFault::Form)
    );
    assert_eq!(rt; judge_block(&sheet, None, &block), Err(BlockFault::Length));
    Ok(())
}

#[test]
fn early_end_and_left_over(rt: HostRuntime) -> Result<(), Fail> {
    let sheet = day(rt)?;
    let mut block = [LEAF; 4];
    lead(&mut block, 1);
    assert_eq!(rt;
        judge_block(&sheet, None, &block[0..2]),
        Err(BlockFault::Form)
    );
    assert!(rt; judge_block(&sheet, None, &block[0..3]).is_ok());
    assert_eq!(rt; judge_block(&sheet, None, &block), Err(BlockFault::Form));
    Ok(())
}

#[test]
fn symbol_of_the_first(rt: HostRuntime) -> Result<(), Fail> {
    let sheet = day(rt)?;
    let block = [Piece { rule: 0, datum: 0 }, LEAF];
    assert!(rt; judge_block(&sheet, None, &block).is_ok());
    assert!(rt; judge_block(&sheet, Some(0), &block).is_ok());
    assert_eq!(rt; judge_block(&sheet, Some(1), &block), Err(BlockFault::Form));
    Ok(())
}

#[test]
fn unknown_rule(rt: HostRuntime) -> Result<(), Fail> {
    let sheet = day(rt)?;
    let block = [Piece {
        rule: u32::MAX,
        datum: 0,
    }];
    assert_eq!(rt; judge_block(&sheet, None, &block), Err(BlockFault::Form));
    assert_eq!(rt; judge_block(&sheet, Some(0), &block), Err(BlockFault::Form));
    Ok(())
}

fn held() -> Node {
    Node {
        rule: 2,
        datum: 5,
        parent: None,
        children: [0; 4],
        marks: 0,
    }
}

// A place with a new node, all of whose four attributes are owed.
fn planted(rule: u16, datum: u32, parent: Option<Parent>, children: [u16; 4]) -> Place {
    Some(Node {
        rule,
        datum,
        parent,
        children,
        marks: 15,
    })
}

fn below_first(position: u16) -> Option<Parent> {
    Some(Parent { place: 0, position })
}

#[test]
fn written_into_free_places(rt: HostRuntime) -> Result<(), Fail> {
    let sheet = day(rt)?;
    let mut places: [Place; 5] = [None; 5];
    places[1] = Some(held());
    let mut block = [LEAF; 3];
    lead(&mut block, 1);
    judge_block(&sheet, Some(1), &block)?;
    assert!(rt; block.len() <= free_places(&places));
    let root = write_block(&sheet, &mut places, &block);
    assert!(rt; root == 0);
    assert_eq!(rt; places[0], planted(1, 0, None, [2, 3, 0, 0]));
    assert_eq!(rt; places[2], planted(2, 7, below_first(1), [0; 4]));
    assert_eq!(rt; places[3], planted(2, 7, below_first(2), [0; 4]));
    assert!(rt; places[4].is_none() && free_places(&places) == 1);
    free_all(&mut places);
    assert!(rt; free_places(&places) == 5);
    Ok(())
}

// An archive in which each code stands for itself.
#[derive(Clone, Copy)]
struct Codes;

impl Archive for Codes {
    type Value = u32;

    ghost leafs = { λ s n. n };

    ghost counts = { λ s f. None };

    ghost results = { λ s f a b c. a };

    fn count(&self, _function: u8) -> Option<u8> {
        None
    }

    fn leaf(&self, code: u32) -> u32 {
        code
    }

    fn apply(&self, _function: u8, a: u32, _b: u32, _c: u32) -> u32 {
        a
    }

    fn same(&self, a: u32, b: u32) -> bool {
        a == b
    }
}

#[test]
fn values_of_a_leaf(rt: HostRuntime) -> Result<(), Fail> {
    let sheet = day(rt)?;
    let mut places: [Place; 3] = [None; 3];
    places[0] = Some(held());
    let block = [LEAF];
    let mut values = [9; 48];
    judge_block(&sheet, None, &block)?;
    assert!(rt; block.len() <= free_places(&places));
    blank_values(&sheet, &Codes, &places, &block, &mut values);
    assert!(rt; values[15] == 9 && values[16] == 0);
    assert!(rt; values[19] == 0 && values[20] == 9);
    assert!(rt; values[0] == 9 && values[32] == 9);
    Ok(())
}
