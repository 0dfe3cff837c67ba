//! A step into a cascade layer.

ghost use Rattle.std.specs.Prelude.{◌≡◌};
ghost use Rattle.layer_model.specs.Name.{same_part};
ghost use Rattle.layer_order.specs.Chain.{part_of};

use stylo_base::Atom;

/// A step into a layer: by a name, or into an anonymous layer, which is known by the number of its sheet, the edition
/// of that sheet's text, and how many anonymous layers come before it in that text.
#[derive(Debug, Drop)]
pub enum Part {
    Named(Atom),
    Anonymous {
        sheet: u32,
        edition: u32,
        place: u32,
    },
}

impl Part {
    /// Whether both are one step.
    pub fn is(&self, other: &Part) -> bool
        ensures { result ≡ same_part (part_of self.now) (part_of other.now) }
    {
        match (self, other) {
            (Part::Named(a), Part::Named(b)) => a.key() == b.key() && a.as_str() == b.as_str(),
            (
                Part::Anonymous {
                    sheet,
                    edition,
                    place,
                },
                Part::Anonymous {
                    sheet: other_sheet,
                    edition: other_edition,
                    place: other_place,
                },
            ) => sheet == other_sheet && edition == other_edition && place == other_place,
            _ => false,
        }
    }
}
