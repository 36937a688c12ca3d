//! A list that contracts see as its items.
ghost use Rattle.std.specs.Prelude.{◌≡◌, [], ◌∷◌, ◌++◌, IfErr, is_ok, if◌then◌else◌};

use std::alloc::AllocFailed;
use std::marker::Model;

/// A `Vec` that contracts see as the list of its items.
#[derive(Drop)]
pub struct Parts<T> {
    items: Vec<T>,
}

impl<T> Model for Parts<T> {
    ghost use Rattle.std.specs.Prelude.{List};
    ghost use Rattle.std.specs.Coded.{coded_list};

    ghost Value = { List T };

    ghost coded = { coded_list T.code };

    ghost view = { λ p. p.items.items };
}

impl<T> Parts<T> {
    /// Keeps these items.
    pub fn of(items: Vec<T>) -> Parts<T>
        ensures { result ≡ items.items }
    {
        Parts { items }
    }

    /// Gives the items back.
    pub fn into_inner(self) -> Vec<T>
        ensures { result.items ≡ self }
    {
        let Parts { items } = self;
        items
    }

    /// Lends the items.
    pub fn as_slice(&self) -> &[T]
        ensures { result.now ≡ self.now }
    {
        self.items.as_slice()
    }

    /// Adds an item at the end, or hands it back for want of memory.
    pub fn push(&mut self, value: T) -> Result<(), AllocFailed<T>>
        ensures items { self.new ≡ (if is_ok result then self.old ++ value ∷ [] else self.old) }
        ensures value_returned { IfErr result (λ failed. failed.value ≡ value) }
    {
        self.items.push(value)
    }
}
