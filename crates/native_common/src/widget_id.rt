//! The number of a widget.
ghost use Rattle.std.specs.Prelude.{◌<◌};

/// A widget by its number, which is below `WIDGETS`.
#[derive(Clone, Copy)]
pub struct WidgetId {
    pub index: u32,
    pub ghost small: { index < 32 },
}
