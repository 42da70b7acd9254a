//! The margin around a table.

ghost use Rattle.tabled_painting.specs.Pages.{IsMarginOf};

use crate::MarginSide;
use tabled_configuration::SpannedConfig;

/// The four sides of a margin.
#[derive(Clone, Copy, Debug)]
pub(crate) struct MarginSides<'a> {
    /// At the left of each line.
    pub(crate) left: MarginSide<'a>,
    /// At the right of each line.
    pub(crate) right: MarginSide<'a>,
    /// Above the table.
    pub(crate) top: MarginSide<'a>,
    /// Below the table.
    pub(crate) bottom: MarginSide<'a>,
}

impl<'a> MarginSides<'a> {
    /// The margin of a configuration.
    pub(crate) fn of(cfg: &'a SpannedConfig) -> Self
        ensures { IsMarginOf cfg.now.settings.margin result }
    {
        let (size, offset, color) = (
            cfg.get_margin(),
            cfg.get_margin_offset(),
            cfg.get_margin_color(),
        );
        MarginSides {
            left: MarginSide::new(size.left, offset.left, &color.left),
            right: MarginSide::new(size.right, offset.right, &color.right),
            top: MarginSide::new(size.top, offset.top, &color.top),
            bottom: MarginSide::new(size.bottom, offset.bottom, &color.bottom),
        }
    }
}
