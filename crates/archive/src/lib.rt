// The archive that an evaluation reads: the interface, and the two house settings.
#![tactic(auto)]

mod answers;
mod by_id;
mod by_path;
mod catalogue;
mod clip;
mod house;
mod interface;
mod text;
mod varied;

pub use answers::{
    equality_is_exact, house_count, house_leaf, house_result, house_text, leaf_by_identifier,
    leaf_by_path, text_by_identifier, text_by_path,
};
pub use by_id::Identifier;
pub use by_path::Path;
pub use catalogue::{ById, ByPath, Catalogue};
pub use clip::{Clip, Row, length};
pub use house::{Function, House, UnknownFunction};
pub use interface::{Archive, Printable, filled, supplied};
pub use text::Text;
pub use varied::{settings_are_as_said, settings_are_varied};
