// The time, in whole seconds since 1970.
ghost use Rattle.std.specs.Prelude.{◌<◌, ℕ, List, [], ◌∷◌, Option};
ghost use Rattle.kms_names.specs.Moment.{year_10000};
ghost use Rattle.kms_io.specs.Wire.{TellsMore};

/// A clock in whole seconds since 1970-01-01T00:00:00Z.
pub trait Clock {
    /// Its answers so far, in order, where they are told.
    ghost told: { Self → Option (List ℕ) };

    /// The time, before 10000-01-01T00:00:00Z.
    fn now(&mut self) -> u64
        ensures bound { result < year_10000 }
        ensures told { TellsMore (told self.old) (result ∷ []) (told self.new) };
}
