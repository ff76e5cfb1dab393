// What a setting answers, in the words of the house: any setting by what its clips say, and each of the two in its own words.
// Each call goes through the interface, so its contract says what the interface means for a catalogue.
ghost use Rattle.std.specs.Prelude.{◌≡◌, Decides};
ghost use Rattle.archive.specs.Functions.{count_of, result_of, house_text};
ghost use Rattle.archive.specs.Rows.{length_of};
ghost use Rattle.archive.specs.Settings.{leaf_by_id, leaf_by_path, identifier_text, path_text};
ghost use Rattle.archive.specs.Texts.{written};
ghost use Rattle.archive.specs.declared.house.House.{House as HouseOf};

use super::by_id::Identifier;
use super::by_path::Path;
use super::catalogue::{ById, ByPath, Catalogue};
use super::clip::Clip;
use super::house::House;
use super::interface::{Archive, Printable};
use super::text::Text;

// In both settings a function takes as many arguments as the house says.
pub fn house_count<C: Clip>(archive: &Catalogue<C>, function: u8) -> Option<u8>
    ensures { result ≡ count_of function }
{
    archive.count(function)
}

// In both settings a function gives what the house says, by the first row that has the clip.
pub fn house_result<C: Clip>(
    archive: &Catalogue<C>,
    function: u8,
    a: House<C>,
    b: House<C>,
    c: House<C>,
) -> House<C>
    ensures { result ≡ result_of (length_of C.eq archive.now.rows.items) function a b }
{
    archive.apply(function, a, b, c)
}

// What a code stands for is what the clips of the setting say.
pub fn house_leaf<C: Clip>(archive: &Catalogue<C>, code: u32) -> House<C>
    ensures { result ≡ C.Clip.leafs archive.now.rows.items code }
{
    archive.leaf(code)
}

// `-`, `f1000`, or the text of a clip.
pub fn house_text<C: Clip>(archive: &Catalogue<C>, value: House<C>) -> Text
    ensures { written result ≡ house_text C.Clip.texts value }
{
    archive.text(value)
}

// By identifier the leaf of 0 is nothing, that of any other code that clip.
pub fn leaf_by_identifier(ids: &ById, code: u32) -> House<Identifier>
    ensures { result ≡ leaf_by_id code }
{
    ids.leaf(code)
}

// By path it is what that row has, counted from 1, or nothing.
pub fn leaf_by_path(paths: &ByPath, code: u32) -> House<Path>
    ensures { result ≡ leaf_by_path paths.now.rows.items code }
{
    paths.leaf(code)
}

// `-`, `f1000`, `c7`.
pub fn text_by_identifier(ids: &ById, value: House<Identifier>) -> Text
    ensures { written result ≡ house_text identifier_text value }
{
    ids.text(value)
}

// `-`, `f1000`, `p1/2/3`.
pub fn text_by_path(paths: &ByPath, value: House<Path>) -> Text
    ensures { written result ≡ house_text path_text value }
{
    paths.text(value)
}

// Values of the house are equal exactly where they are one.
pub fn equality_is_exact<C: Clip>()
    ensures { (a b : HouseOf C) → Decides (⟦<House<C> as PartialEq>⟧.eq a b) (a ≡ b) }
{}
