// What the two settings are, and that neither is an archive of a single value.
ghost use Rattle.std.specs.Prelude.{◌≡◌, ℕ, List};
ghost use Rattle.archive.specs.Functions.{house_text};
ghost use Rattle.archive.specs.Settings.{same_identifier, leaf_by_id, identifier_text, same_path, leaf_by_path, path_text};
ghost use Rattle.archive.specs.Varied.{VariedByIdentifier, VariedByPath};
ghost use Rattle.archive.specs.declared.by_id.Identifier.{Identifier as IdentifierOf};
ghost use Rattle.archive.specs.declared.by_path.Path.{Path as PathOf};
ghost use Rattle.archive.specs.declared.clip.Row.{Row as RowOf};
ghost use Rattle.archive.specs.declared.house.House.{House as HouseOf};

use super::by_id::Identifier;
use super::by_path::Path;
use super::clip::Clip;

// By identifier the leaf of 0 is nothing, that of any other code that clip, and texts are `-`,
// `f1000`, `c7`. By path a leaf is what that row has, counted from 1, or nothing, and texts are
// `-`, `f1000`, `p1/2/3`.
pub fn settings_are_as_said()
    ensures same_identifier { (a b : IdentifierOf) → ⟦<Identifier as PartialEq>⟧.eq a b ≡ same_identifier a b }
    ensures leaf_by_identifier { (rows : List (RowOf IdentifierOf)) (code : ℕ) → ⟦<Identifier as Clip>⟧.leafs rows code ≡ leaf_by_id code }
    ensures text_by_identifier { (value : HouseOf IdentifierOf) → house_text ⟦<Identifier as Clip>⟧.texts value ≡ house_text identifier_text value }
    ensures same_path { (a b : PathOf) → ⟦<Path as PartialEq>⟧.eq a b ≡ same_path a b }
    ensures leaf_by_path { (rows : List (RowOf PathOf)) (code : ℕ) → ⟦<Path as Clip>⟧.leafs rows code ≡ leaf_by_path rows code }
    ensures text_by_path { (value : HouseOf PathOf) → house_text ⟦<Path as Clip>⟧.texts value ≡ house_text path_text value }
{}

// By identifier and by path, two rows and their codes for which lengths, sums, choices and what is
// later differ.
pub fn settings_are_varied()
    ensures identifiers { VariedByIdentifier }
    ensures paths { VariedByPath }
{}
