//! Values that are shared.

ghost use Rattle.std.specs.Prelude.{◌≡◌, IfOk};

use kms_names::NoMemory;
use std::alloc::Global;
use std::marker::Model;
use std::sync::Arc;

/// A value that several maps share. Contracts see the value.
#[derive(Drop)]
pub struct Shared<T> {
    value: Arc<T>,
}

impl<T> Model for Shared<T> {
    ghost use Rattle.std.specs.Arc.{arc_value};

    ghost Value = { T };

    ghost view = { λ shared. arc_value shared.value };
}

impl<T: Drop> Shared<T> {
    /// The value, to be shared.
    pub fn new(alloc: Global, value: T) -> Result<Shared<T>, NoMemory>
        ensures { IfOk result (λ shared. shared ≡ value) }
    {
        Ok(Shared {
            value: Arc::new(alloc, value)?,
        })
    }

    /// The same value once more; nothing is copied.
    pub fn share(&self) -> Result<Shared<T>, NoMemory>
        ensures { IfOk result (λ shared. shared ≡ self.now) }
    {
        Ok(Shared {
            value: Arc::try_clone(&self.value)?,
        })
    }

    /// The value. No memory is taken.
    pub fn value(&self) -> &T
        ensures { result.now ≡ self.now }
    {
        &self.value
    }
}
