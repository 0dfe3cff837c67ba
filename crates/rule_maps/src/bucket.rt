//! The bucket of a selector.

ghost use Rattle.std.specs.Prelude.{◌≡◌};
ghost use Rattle.std.specs.Option.{option_copied};
ghost use Rattle.selector_types.specs.ComplexView.{compound_of, test_of};
ghost use Rattle.selector_types.specs.View.{selector_of};
ghost use Rattle.rule_map_model.specs.Buckets.{attribute_in as model_attribute_in, bucket_of as model_bucket_of, first_attribute as model_first_attribute};

use selector_types::{Compound, Key, Selector, Simple, Test, key_of};
use stylo_base::Atom;

/// A bucket, by the name that it is of.
#[derive(Clone, Copy)]
pub(crate) enum BucketName<'a> {
    Id(&'a Atom),
    Class(&'a Atom),
    Type(&'a Atom),
    /// What has no key, and whose subject tests this attribute first.
    Attribute(&'a Atom),
    Any,
}

impl<'a> BucketName<'a> {
    ghost use Rattle.rule_maps.specs.Gathered.{bucket_seen};

    /// That of a selector.
    pub(crate) fn of(selector: &'a Selector) -> BucketName<'a>
        ensures { bucket_seen result ≡ model_bucket_of (selector_of selector.now) }
    {
        match key_of(selector) {
            Key::Id(name) => BucketName::Id(name),
            Key::Class(class) => BucketName::Class(class),
            Key::Type(tag) => BucketName::Type(tag),
            Key::Any => match first_attribute(&selector.complex().subject) {
                Some(name) => BucketName::Attribute(name),
                None => BucketName::Any,
            },
        }
    }
}

/// The name of the attribute that a compound tests first.
fn first_attribute(compound: &Compound) -> Option<&Atom>
    ensures { option_copied result ≡ model_first_attribute (compound_of compound.now) }
{
    for test in &compound.tests {
        if let Some(name) = attribute_in(test) {
            return Some(name);
        }
    }
    None
}

/// The name of the attribute that a test asks for.
fn attribute_in(test: &Test) -> Option<&Atom>
    ensures { option_copied result ≡ model_attribute_in (test_of test.now) }
{
    match test {
        Test::Simple(Simple::Attribute(name)) => Some(name),
        Test::Simple(Simple::AttributeCompares(test)) => Some(&test.name),
        _ => None,
    }
}
