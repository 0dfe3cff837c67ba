//! How declared values are read.

ghost use Rattle.std.specs.Prelude.{◌≡◌, IfOk};
ghost use Rattle.sheet_model.specs.Declared.{Given as DeclaredValue};
ghost use Rattle.cascade_model.specs.Ending.{Meaning};
ghost use Rattle.cascade_core.specs.SubstitutedValue.{substituted_seen};
ghost use Rattle.cascade_core.specs.View.{given_in};

use crate::substituted_value::SubstitutedValue;
use shorthands::Declared;
use std::alloc::Global;
use stylo_base::NoMemory;

/// How declared values are read: as values of a property of the table, or of custom properties.
pub(crate) trait Substitution<'a> {
    /// The type of the values.
    type Value: Copy;

    /// What a value stands for.
    ghost Seen: { Type 0 };

    ghost seen: { Self.Value → Seen };

    /// The substituted value of each declared value.
    ghost substituted: { Self → DeclaredValue → Meaning Seen };

    /// The substituted value of a declaration.
    fn substituted(
        &mut self,
        alloc: Global,
        declared: &'a Declared,
    ) -> Result<SubstitutedValue<Self::Value>, NoMemory>
        ensures same { self.new ≡ self.old }
        ensures value { IfOk result (λ v. substituted_seen seen v ≡ substituted self.old (given_in declared.now)) };
}
