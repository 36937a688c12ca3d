//! A list as contracts see it.
ghost use Rattle.std.specs.Prelude.{◌≡◌, ◌++◌, [], ◌∷◌, if◌then◌else◌, is_ok, IfErr};

use std::alloc::AllocFailed;
use std::marker::Model;

/// A `Vec` that contracts see as the list of its items.
#[derive(Debug, Drop)]
pub struct Seq<T> {
    items: Vec<T>,
}

impl<T> Model for Seq<T> {
    ghost use Rattle.std.specs.Prelude.{List};
    ghost use Rattle.std.specs.Coded.{coded_list};

    ghost Value = { List T };

    ghost coded = { coded_list T.code };

    ghost view = { λ s. s.items.items };
}

impl<T> Seq<T> {
    /// Keeps the items that it is given.
    pub fn of(items: Vec<T>) -> Seq<T>
        ensures { result ≡ items.items }
    {
        Seq { items }
    }

    /// Gives the items back.
    pub fn into_inner(self) -> Vec<T>
        ensures { result.items ≡ self }
    {
        let Seq { items } = self;
        items
    }

    /// Lends the items.
    pub fn as_slice(&self) -> &[T]
        ensures { result.now ≡ self.now }
    {
        self.items.as_slice()
    }

    /// Adds an item at the end, or hands it back for want of memory.
    pub fn push(&mut self, item: T) -> Result<(), AllocFailed<T>>
        ensures items { self.new ≡ (if is_ok result then self.old ++ item ∷ [] else self.old) }
        ensures item_returned { IfErr result (λ e. e.value ≡ item) }
    {
        self.items.push(item)
    }
}
