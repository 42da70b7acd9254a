//! What can happen to a configuration.

ghost use Rattle.std.specs.Prelude.{List, [], ◌++◌};

use std::marker::Model;

/// A configuration that options change: what can happen to it, and what a list of that changes.
pub trait Configured {
    /// What can happen to such a configuration.
    type Event;

    /// Whether the events, in their order, make the one configuration the other.
    ghost changes: { List Self.Event → Self → Self → Type 0 };

    /// No events leave it as it is.
    ghost none_change: { (cfg : Self) → changes [] cfg cfg };

    /// Two changes in a row are the change by the events of both.
    ghost both_change: { (es fs : List Self.Event) (old between new : Self)
        → changes es old between → changes fs between new → changes (es ++ fs) old new };
}

/// The events of configurations of borders, in contracts. No value of it is made.
pub struct BorderEvent {}

impl Model for BorderEvent {
    ghost use Rattle.tabled_places.specs.declared.event.Event.TheVariants.{Erase as erase};
    ghost use Rattle.tabled_places.specs.declared.event.Region.TheVariants.{All as every_site};
    ghost use Rattle.tabled_configuration.specs.Configuration.{ConfigEvent, of_characters};

    ghost Value = { ConfigEvent };

    // any one will do
    ghost view = { λ _. of_characters (erase every_site) };
}
