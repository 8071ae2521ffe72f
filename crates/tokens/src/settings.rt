// What the caller sets.
ghost use Rattle.std.specs.Prelude.{◌≤◌};

use context::FormatConfig;

// With the bound of its indent width, which every arm asks while it writes.
#[derive(Clone, Copy)]
pub struct Settings {
    pub config: FormatConfig,
    pub ghost width_fits: { config.indent_width ≤ 16 },
}
