//! A list of style sheets.

ghost use Rattle.std.specs.Prelude.{◌≡◌, []};

use layer_order::SheetInput;
use std::alloc::Global;
use std::marker::Model;

/// The sheets of a job, in their order. Contracts see the list.
#[derive(Debug, Drop)]
pub struct SheetList {
    list: Vec<SheetInput>,
}

impl Model for SheetList {
    ghost use Rattle.std.specs.Prelude.{List};
    ghost use Rattle.layer_order.specs.declared.sheet_input.SheetInput.{SheetInput};

    ghost Value = { List SheetInput };

    ghost view = { λ s. s.list.items };
}

impl SheetList {
    /// No sheets. It takes no memory.
    pub fn new(alloc: Global) -> SheetList
        ensures { result ≡ [] }
    {
        SheetList {
            list: Vec::new(alloc),
        }
    }

    /// The sheets of `list`. It takes no memory.
    pub fn of_vec(list: Vec<SheetInput>) -> SheetList
        ensures { result ≡ list.items }
    {
        SheetList { list }
    }

    /// The sheets. It takes no memory.
    pub fn into_vec(self) -> Vec<SheetInput>
        ensures { result.items ≡ self }
    {
        let SheetList { list } = self;
        list
    }

    /// The sheets.
    pub fn as_slice(&self) -> &[SheetInput]
        ensures { result.now ≡ self.now }
    {
        self.list.as_slice()
    }
}
