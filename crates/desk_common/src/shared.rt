//! A value with several owners.
ghost use Rattle.std.specs.Prelude.{◌≡◌, IfOk};

use std::alloc::{AllocError, Global};
use std::marker::Model;
use std::sync::Arc;

/// A value that several owners hold, and that stands once in memory. Contracts see the value.
#[derive(Drop)]
pub struct Shared<T> {
    arc: Arc<T, Global>,
}

impl<T> Model for Shared<T> {
    ghost use Rattle.std.specs.Arc.{arc_value};

    ghost Value = { T };

    ghost coded = { T.code };

    ghost view = { λ s. arc_value s.arc };
}

impl<T: Drop> Shared<T> {
    /// The value with one owner, or want of memory.
    pub fn new(alloc: Global, value: T) -> Result<Self, AllocError>
        ensures { IfOk result (λ made. made ≡ value) }
    {
        match Arc::new(alloc, value) {
            Ok(arc) => Ok(Shared { arc }),
            Err(_) => Err(AllocError),
        }
    }

    /// The same value with one owner more, or want of memory: the value isn't copied.
    pub fn share(&self) -> Result<Self, AllocError>
        ensures { IfOk result (λ made. made ≡ self.now) }
    {
        match Arc::try_clone(&self.arc) {
            Ok(arc) => Ok(Shared { arc }),
            Err(_) => Err(AllocError),
        }
    }

    /// The value.
    pub fn get(&self) -> &T
        ensures { result.now ≡ self.now }
    {
        &self.arc
    }
}
