//! Settings by entity: a map from entities to values in which the last write or removal that covers a cell decides,
//! and the values of a cell that are set so.
//!
//! `docs/DEFINITIONS.md` explains the words of the contracts.
#![tactic(auto)]

mod alignment;
mod cell_settings;
mod entity_map;
mod events_since;
mod indent;
mod kinds;
mod last_events;
mod places;
mod sides;
mod slots;

pub use alignment::{AlignmentHorizontal, AlignmentVertical};
pub use cell_settings::CellSettings;
pub use entity_map::EntityMap;
pub use indent::Indent;
pub use sides::Sides;
