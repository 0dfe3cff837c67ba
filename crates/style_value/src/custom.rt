//! The custom properties of a style (css-variables-1, section 2).

ghost use Rattle.std.specs.Prelude.{◌≡◌, ◌↔◌, IfOk, IsTrue};
ghost use Rattle.std.specs.FinMap as finmap;
ghost use Rattle.std.specs.Str.{chars};
ghost use Rattle.custom_model.specs.Printed.{custom_declarations};

use css_tokens::CustomMap;
use std::alloc::Global;
use std::marker::Model;
use std::sync::Arc;
use stylo_base::{NoMemory, Text, key_of_text};

/// The custom properties that have a value, with the text of their declarations and a number by which
/// tables of styles look for them. Both are made once for all styles that share them. Contracts see
/// the map.
#[derive(Debug, Drop)]
pub struct Custom {
    map: CustomMap,
    text: Option<Arc<Text>>,
    key: u64,
}

impl Model for Custom {
    ghost use Rattle.std.specs.Prelude.{◌≡◌};
    ghost use Rattle.custom_model.specs.Value as model;
    ghost use Rattle.custom_model.specs.Printed.{custom_declarations};
    ghost use Rattle.style_value.specs.KeptText.{kept_text};

    ghost Value = { model.CustomValues };

    ghost coded = { model.values_code };

    ghost view = { λ c. c.map };

    ghost invariant = { λ c. kept_text c.text ≡ custom_declarations c.map };
}

impl Custom {
    /// No custom property. It takes no memory.
    pub fn none() -> Custom
        ensures { result ≡ finmap.empty }
    {
        Custom {
            map: CustomMap::empty(),
            text: None,
            key: 0,
        }
    }

    /// These custom properties, whose declarations are printed as `text`.
    pub fn new(alloc: Global, map: CustomMap, text: Text) -> Result<Custom, NoMemory>
        requires { text ≡ custom_declarations map }
        ensures { IfOk result (λ custom. custom ≡ map) }
    {
        let key = key_of_text(text.as_str());
        Ok(Custom {
            map,
            text: Some(Arc::new(alloc, text)?),
            key,
        })
    }

    /// The value of each custom property that has one.
    pub fn map(&self) -> &CustomMap
        ensures { result.now ≡ self.now }
    {
        &self.map
    }

    /// The declarations, as they are printed.
    pub fn text(&self) -> &str
        ensures { chars result.now ≡ custom_declarations self.now }
    {
        match &self.text {
            None => "",
            Some(text) => text.as_str(),
        }
    }

    /// The same custom properties, which are shared.
    #[inline]
    pub fn share(&self) -> Result<Custom, NoMemory>
        ensures { IfOk result (λ custom. custom ≡ self.now) }
    {
        let text = match &self.text {
            None => None,
            Some(text) => Some(Arc::try_clone(text)?),
        };
        Ok(Custom {
            map: self.map.share()?,
            text,
            key: self.key,
        })
    }

    /// A number that equal custom properties share. It is known without a look at them.
    pub(crate) fn slot(&self) -> usize {
        (self.key ^ (self.key >> 24)) as usize
    }

    /// Whether both give the same names the same values.
    pub fn is_same(&self, other: &Custom) -> bool
        ensures { IsTrue result ↔ (self.now ≡ other.now) }
    {
        self.map.is_same(&other.map)
    }
}
