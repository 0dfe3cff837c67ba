//! The value that the cascade gives a property, before it is computed (css-cascade-5, sections 4.2 and
//! 7.3).

ghost use Rattle.std.specs.Prelude.{◌≡◌, option_map};
ghost use Rattle.cascade_core.specs.CascadedValue.{cascaded_seen};
ghost use Rattle.cascade_core.specs.Rollback.{settled};
ghost use Rattle.cascade_core.specs.SubstitutedValue.{substituted_seen};

use crate::substituted_value::SubstitutedValue;
use css_tokens::Wide;

/// The value that the cascade gives a property, before it is computed.
#[derive(Clone, Copy)]
pub(crate) enum CascadedValue<V> {
    /// The parent's value.
    Inherit,
    /// The initial value.
    Initial,
    /// The parent's value if the property is inherited, and else the initial value.
    Unset,
    /// This value.
    Value(V),
}

impl<V> CascadedValue<V> {
    /// The cascaded value, where this is the winner's. None: it is `revert` or `revert-layer`.
    pub(crate) fn settled(substituted: SubstitutedValue<V>) -> Option<CascadedValue<V>>
        ensures { option_map (cascaded_seen (λ v. v)) result ≡ settled (substituted_seen (λ v. v) substituted) }
    {
        match substituted {
            SubstitutedValue::Value(value) => Some(CascadedValue::Value(value)),
            SubstitutedValue::Keyword(Wide::Inherit) => Some(CascadedValue::Inherit),
            SubstitutedValue::Keyword(Wide::Initial) => Some(CascadedValue::Initial),
            SubstitutedValue::Keyword(Wide::Unset) => Some(CascadedValue::Unset),
            SubstitutedValue::Keyword(Wide::Revert | Wide::RevertLayer) => None,
        }
    }
}
