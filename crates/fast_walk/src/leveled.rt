//! Levels that are known where the program is made.

ghost use Rattle.std.specs.Prelude.{◌≡◌};
ghost use Rattle.fast_wire.specs.declared.level.Level.{Level as LevelOf};

use fast_wire::Level;

/// A level that is known where the program is made: a walk at the usual one asks nothing of it.
pub trait Leveled: Copy {
    // Which it is.
    ghost at: { LevelOf };

    /// Which it is.
    fn level(self) -> Level
        ensures { result ≡ at };
}

/// The usual level.
#[derive(Clone, Copy)]
pub struct Usually;

/// The strict level.
#[derive(Clone, Copy)]
pub struct Strictly;

impl Leveled for Usually {
    ghost use Rattle.fast_wire.specs.declared.level.Level.TheVariants.{Usual};

    ghost at = { Usual };

    #[inline(always)]
    fn level(self) -> Level {
        Level::Usual
    }
}

impl Leveled for Strictly {
    ghost use Rattle.fast_wire.specs.declared.level.Level.TheVariants.{Strict};

    ghost at = { Strict };

    #[inline(always)]
    fn level(self) -> Level {
        Level::Strict
    }
}
