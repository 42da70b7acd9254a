//! When two configurations are equal.

ghost use Rattle.std.specs.Prelude.{◌≡◌};
ghost use Rattle.tabled_configuration.specs.SameConfiguration.{same_stores, same_configuration};

use super::SpannedConfig;

/// Equality compares the characters, the colors and the settings that are kept, and nothing else: not the allocator.
impl PartialEq for SpannedConfig {
    ghost use Rattle.tabled_configuration.specs.SameConfiguration.{configuration_per};

    ghost eq = { same_configuration };

    ghost laws = { configuration_per };

    #[tactic(auto, unfolding(crate::specs::SameConfiguration::same_configuration))]
    fn eq(&self, other: &Self) -> bool {
        self.has_same_stores(other) && self.settings == other.settings
    }
}

impl Eq for SpannedConfig {
    ghost use Rattle.tabled_configuration.specs.SameConfiguration.{configuration_equiv};

    ghost laws = { configuration_equiv };
}

impl SpannedConfig {
    /// Whether both keep the same characters and the same colors.
    #[tactic(auto, unfolding(crate::specs::SameConfiguration::same_stores))]
    fn has_same_stores(&self, other: &Self) -> bool
        ensures { result ≡ same_stores self.now other.now }
    {
        self.characters == other.characters && self.colors == other.colors
    }
}
