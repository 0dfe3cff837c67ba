//! The values of a style in columns: a byte and a number for each property, without padding.

ghost use Rattle.std.specs.Prelude.{◌≡◌, ◌<◌, ◌≤◌, ◌↔◌, Some, IsTrue, length, map, slice_get, slice_set, take};
ghost use Rattle.value_model.specs.Table as model;
ghost use Rattle.value_model.specs.Table.{table};
ghost use Rattle.value_model.specs.Value as value_model;
ghost use Rattle.value_model.specs.Value.{same_value};
ghost use Rattle.value_model.specs.Style.{inherited_values, initial_style};
ghost use Rattle.property_table.specs.ValueParts.{value_word};
ghost use Rattle.property_table.specs.View.{property_of, value_seen};
ghost use Rattle.style_value.specs.ColumnView.{with_value_in};
ghost use Rattle.style_value.specs.StyleText.{printed_properties};

use property_table::{COUNT, PropId, PropertyRow, STANDING, Value, WORDS, initial_amounts};
use std::marker::Model;
use stylo_base::Fixed;

/// A value for each property, in the order of the table, as its word and its amount. Contracts see
/// the list of the values.
#[derive(Debug, Drop)]
pub(crate) struct ValueColumns {
    words: [u8; COUNT],
    amounts: [Fixed; COUNT],
}

impl Model for ValueColumns {
    ghost use Rattle.std.specs.Prelude.{List};
    ghost use Rattle.std.specs.Coded.{coded_list};
    ghost use Rattle.value_model.specs.Value as model;
    ghost use Rattle.property_table.specs.ValueParts.{values_of_words};
    ghost use Rattle.style_value.specs.ColumnView.{AreColumns};

    ghost Value = { List model.Value };

    ghost coded = { coded_list model.value_code };

    ghost view = { λ c. values_of_words c.words c.amounts };

    ghost invariant = { λ c. AreColumns c.words c.amounts };
}

impl ValueColumns {
    /// The initial value of each property.
    #[inline]
    pub fn initial() -> ValueColumns
        ensures { result ≡ initial_style.values }
    {
        ValueColumns {
            words: WORDS,
            amounts: initial_amounts(),
        }
    }

    /// The value in `parent` of each inherited property, and the initial one of each other.
    #[inline]
    pub fn inheriting(parent: &ValueColumns) -> ValueColumns
        ensures { result ≡ inherited_values table parent.now }
    {
        // Without effect: it tells the proof that `parent` has a value for each property.
        let _ = &parent.words;
        let mut columns = ValueColumns::initial();
        for id in PropertyRow::inherited() {
            columns.inherit(parent, *id);
        }
        columns
    }

    /// Gives a property the value that it has in `parent`.
    #[inline]
    fn inherit(&mut self, parent: &ValueColumns, id: PropId)
        ensures new { self.new ≡ with_value_in parent.now (property_of id) self.old }
        ensures all { length parent.now ≡ length table }
    {
        let row = id.row();
        self.words[row] = parent.words[row];
        self.amounts[row] = parent.amounts[row];
    }

    /// The value of a property.
    pub fn value(&self, id: PropId) -> Value
        ensures value { slice_get self.now (property_of id) ≡ Some (value_seen result) }
        ensures all { length self.now ≡ length table }
    {
        let row = id.row();
        Value::of_word(self.words[row], self.amounts[row])
    }

    /// Gives a property a value.
    pub fn set(&mut self, id: PropId, value: Value)
        ensures { self.new ≡ slice_set self.old (property_of id) (value_seen value) }
    {
        let row = id.row();
        self.words[row] = word(&value);
        self.amounts[row] = value.amount();
    }

    /// Writes the properties whose value is not the standing one to the front of `list`, in the order
    /// of the table, and says how many they are.
    pub fn printed(&self, list: &mut [PropId; COUNT]) -> usize
        ensures within { result ≤ COUNT }
        ensures list { map property_of (take result list.new) ≡ printed_properties self.now }
        ensures all { length self.now ≡ length table }
    {
        // Without effect: it tells the proof that there is a value for each property.
        let _ = &self.words;
        let rows = PropertyRow::all();
        let mut count = 0;
        for row in 0..COUNT {
            if !self.is_standing(row) {
                list[count] = rows[row].id;
                count += 1;
            }
        }
        count
    }

    /// Whether the value of the property of a row is the one that is not printed.
    fn is_standing(&self, row: usize) -> bool
        requires { row < COUNT }
        ensures { (r : model.PropertyRow) (value : value_model.Value) → slice_get table row ≡ Some r
            → slice_get self.now row ≡ Some value → result ≡ same_value value r.standing }
    {
        self.words[row] == WORDS[row] && self.amounts[row].thousandths() == STANDING[row]
    }

    /// A number that equal values share.
    pub(crate) fn slot(&self) -> usize {
        let mut sum = 0;
        for row in 0..COUNT {
            sum = self.mixed(sum, row);
        }
        (sum ^ (sum >> 24)) as usize
    }

    /// A number that equal inherited values share.
    pub(crate) fn part_slot(&self) -> usize {
        let mut sum = 0;
        for id in PropertyRow::inherited() {
            sum = self.mixed(sum, id.row());
        }
        (sum ^ (sum >> 24)) as usize
    }

    /// A number made of this one and the value of a row.
    #[inline]
    fn mixed(&self, sum: u64, row: usize) -> u64
        requires { row < COUNT }
    {
        let amount = self.amounts[row].thousandths().cast_unsigned();
        sum.wrapping_mul(31)
            .wrapping_add(amount)
            .wrapping_add((self.words[row] as u64) << 20)
    }

    /// Whether both have the same values of the inherited properties.
    pub fn same_inherited(&self, other: &ValueColumns) -> bool
        ensures { IsTrue result ↔ (inherited_values table self.now ≡ inherited_values table other.now) }
    {
        // Without effect: it tells the proof that both have a value for each property.
        let _ = &self.words;
        let _ = &other.words;
        for id in PropertyRow::inherited() {
            if !self.is_same_at(other, *id) {
                return false;
            }
        }
        true
    }

    /// Whether both have the same value of a property.
    #[inline]
    fn is_same_at(&self, other: &ValueColumns, id: PropId) -> bool
        ensures { let property = property_of id in
            IsTrue result ↔ (slice_get self.now property ≡ slice_get other.now property) }
    {
        let row = id.row();
        self.words[row] == other.words[row] && self.amounts[row] == other.amounts[row]
    }

    /// Whether both have the same values.
    pub fn is_same(&self, other: &ValueColumns) -> bool
        ensures { IsTrue result ↔ (self.now ≡ other.now) }
    {
        self.words == other.words && self.amounts == other.amounts
    }
}

/// The word of a value.
fn word(value: &Value) -> u8
    ensures { result ≡ value_word value.now }
{
    value.word()
}
