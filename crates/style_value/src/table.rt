//! The styles of a document, each kept once, with a number.

ghost use Rattle.std.specs.Prelude.{◌≡◌, ◌<◌, ◌⊎◌, ◌++◌, ◌∷◌, [], IfOk, IfSome, IsTrue, OnErr, OnOk, Some, length, slice_get, take};
ghost use Rattle.std.specs.Arc.{arc_value};
ghost use Rattle.value_model.specs.Style.{inherited_part};
ghost use Rattle.style_value.specs.Parts.{custom_at, part_at};

use crate::{Style, StyleDraft};
use std::alloc::Global;
use std::marker::Model;
use std::sync::Arc;
use stylo_base::NoMemory;

/// How many styles can be found again, at most.
const MOST_SLOTS: usize = 4_096;

/// Styles with numbers from 0. A style that is added again most often gets the number that it has, so
/// that its text is made once and its memory is shared. Styles with equal inherited parts most often
/// have one part, by number. Contracts see the list of the styles.
#[derive(Debug, Drop)]
pub struct StyleTable {
    styles: Vec<TableStyle>,
    /// The number of the style that was added last among those of a slot.
    slots: Vec<usize>,
    /// The number of the part that was found or added last among those of a slot.
    part_slots: Vec<usize>,
}

/// A style of a table.
#[derive(Debug, Drop)]
struct TableStyle {
    style: Arc<Style>,
    /// The number of a style of the table with an equal inherited part.
    part: usize,
    /// The number of a style of the table with equal custom properties.
    custom: usize,
}

impl Model for StyleTable {
    ghost use Rattle.std.specs.Prelude.{List};
    ghost use Rattle.std.specs.Coded.{coded_list};
    ghost use Rattle.value_model.specs.Style as model;
    ghost use Rattle.style_value.specs.Parts.{HaveCustom, HaveParts, styles_of};

    ghost Value = { List model.Style };

    ghost coded = { coded_list model.style_code };

    ghost view = { λ t. styles_of t.styles.items };

    ghost invariant = { λ t. HaveParts t.styles.items × HaveCustom t.styles.items };
}

impl StyleTable {
    /// No style. So many styles can be found again, up to 4,096: a power of two serves best.
    pub fn start(alloc: Global, slots: usize) -> Result<StyleTable, NoMemory>
        ensures { IfOk result (λ table. table ≡ []) }
    {
        let slots = slots.min(MOST_SLOTS);
        Ok(StyleTable {
            styles: Vec::new(alloc),
            slots: vec![in alloc; 0; slots]?,
            part_slots: vec![in alloc; 0; slots]?,
        })
    }

    /// How many styles there are.
    pub fn len(&self) -> usize
        ensures { result ≡ length self.now }
    {
        self.styles.len()
    }

    /// Takes all styles out.
    pub fn clear(&mut self)
        ensures { self.new ≡ [] }
    {
        self.styles.clear();
    }

    /// The number of the style with the values of a draft, which is added behind the others unless an
    /// equal one is found. It takes memory only where it is added. Out of memory, the table is as before.
    pub fn add(&mut self, alloc: Global, draft: StyleDraft) -> Result<usize, NoMemory>
        ensures added { IfOk result (λ number. slice_get self.new number ≡ Some draft) }
        ensures kept { take (length self.old) self.new ≡ self.old }
        ensures grown { OnOk result ((self.new ≡ self.old) ⊎ (self.new ≡ self.old ++ draft ∷ [])) }
        ensures refused { OnErr result (self.new ≡ self.old) }
    {
        self.add_alike(alloc, draft, None)
    }

    /// The same for a draft with the custom properties of the style `parent`. They are not compared with
    /// those of a style that has them from there too.
    pub fn add_over(
        &mut self,
        alloc: Global,
        draft: StyleDraft,
        parent: usize,
    ) -> Result<usize, NoMemory>
        requires parent { parent < length self.old }
        requires custom { custom_at self.old parent ≡ Some draft.custom }
        ensures added { IfOk result (λ number. slice_get self.new number ≡ Some draft) }
        ensures kept { take (length self.old) self.new ≡ self.old }
        ensures grown { OnOk result ((self.new ≡ self.old) ⊎ (self.new ≡ self.old ++ draft ∷ [])) }
        ensures refused { OnErr result (self.new ≡ self.old) }
    {
        let custom = self.custom(parent);
        self.add_alike(alloc, draft, Some(custom))
    }

    /// The same for a draft with the custom properties of a style, if a number is given.
    fn add_alike(
        &mut self,
        alloc: Global,
        draft: StyleDraft,
        custom: Option<usize>,
    ) -> Result<usize, NoMemory>
        requires { IfSome custom (λ like. custom_at self.old like ≡ Some draft.custom) }
        ensures added { IfOk result (λ number. slice_get self.new number ≡ Some draft) }
        ensures kept { take (length self.old) self.new ≡ self.old }
        ensures grown { OnOk result ((self.new ≡ self.old) ⊎ (self.new ≡ self.old ++ draft ∷ [])) }
        ensures refused { OnErr result (self.new ≡ self.old) }
    {
        let slot = self.place(draft.slot());
        if let Some(number) = self.find(slot, &draft, custom) {
            return Ok(number);
        }
        let style = draft.finish(alloc)?;
        let number = self.append(Arc::new(alloc, style)?, custom)?;
        remember(&mut self.slots, slot, number);
        Ok(number)
    }

    /// The number of a style that is kept elsewhere too, which is shared and added behind the others
    /// unless an equal one is found. Out of memory, the table is as before.
    pub fn adopt(&mut self, style: &Arc<Style>) -> Result<usize, NoMemory>
        ensures added { IfOk result (λ number. slice_get self.new number ≡ Some (arc_value style.now)) }
        ensures kept { take (length self.old) self.new ≡ self.old }
        ensures grown { OnOk result ((self.new ≡ self.old) ⊎ (self.new ≡ self.old ++ arc_value style.now ∷ [])) }
        ensures refused { OnErr result (self.new ≡ self.old) }
    {
        let slot = self.place(style.slot());
        if let Some(number) = self.find_style(slot, style) {
            return Ok(number);
        }
        let number = self.append(Arc::try_clone(style)?, None)?;
        remember(&mut self.slots, slot, number);
        Ok(number)
    }

    /// Adds a style behind the others, with its part. It has the custom properties of a style, if a
    /// number is given. Out of memory, the table is as before.
    fn append(&mut self, style: Arc<Style>, custom: Option<usize>) -> Result<usize, NoMemory>
        requires { IfSome custom (λ like. custom_at self.old like ≡ Some (arc_value style).custom) }
        ensures added { IfOk result (λ number. slice_get self.new number ≡ Some (arc_value style)) }
        ensures grown { OnOk result (self.new ≡ self.old ++ arc_value style ∷ []) }
        ensures refused { OnErr result (self.new ≡ self.old) }
    {
        let number = self.styles.len();
        let slot = self.place(style.part_slot());
        let part = self.find_part(slot, &style, custom).unwrap_or(number);
        self.styles.push(TableStyle {
            style,
            part,
            custom: custom.unwrap_or(number),
        })?;
        remember(&mut self.part_slots, slot, part);
        Ok(number)
    }

    /// The part of the style of a slot of parts, if the style has an equal inherited part.
    fn find_part(&self, slot: usize, style: &Style, custom: Option<usize>) -> Option<usize>
        requires { IfSome custom (λ like. custom_at self.now like ≡ Some style.now.custom) }
        ensures { IfSome result (λ part. part_at self.now part ≡ Some (inherited_part style.now)) }
    {
        let number = *self.part_slots.get(slot)?;
        let other = self.styles.get(number)?;
        if other.style.is_same_part(style, other.shares(custom)) {
            Some(other.part)
        } else {
            None
        }
    }

    /// The slot for a number that equal styles share.
    fn place(&self, slot: usize) -> usize {
        slot & self.slots.len().wrapping_sub(1)
    }

    /// The number of the style of a slot, if it has the values of the draft.
    fn find(&self, slot: usize, draft: &StyleDraft, custom: Option<usize>) -> Option<usize>
        requires { IfSome custom (λ like. custom_at self.now like ≡ Some draft.now.custom) }
        ensures { IfSome result (λ number. slice_get self.now number ≡ Some draft.now) }
    {
        let number = *self.slots.get(slot)?;
        let one = self.styles.get(number)?;
        if draft.is_same(&one.style, one.shares(custom)) {
            Some(number)
        } else {
            None
        }
    }

    /// The number of the style of a slot, if it is the same style.
    fn find_style(&self, slot: usize, style: &Style) -> Option<usize>
        ensures { IfSome result (λ number. slice_get self.now number ≡ Some style.now) }
    {
        let number = *self.slots.get(slot)?;
        let other = self.styles.get(number)?;
        if other.style.is_same(style) {
            Some(number)
        } else {
            None
        }
    }

    /// The style with a number.
    pub fn style(&self, number: usize) -> &Arc<Style>
        requires { number < length self.now }
        ensures { slice_get self.now number ≡ Some (arc_value result.now) }
    {
        &self.styles[number].style
    }

    /// The number of a style of the table with the same inherited part as this one. Of two styles with
    /// equal inherited parts it is most often the same: where it is, they have equal ones.
    pub fn part(&self, number: usize) -> usize
        requires { number < length self.now }
        ensures { part_at self.now result ≡ part_at self.now number }
    {
        self.styles[number].part
    }

    /// The number of a style of the table with the custom properties of this one.
    fn custom(&self, number: usize) -> usize
        requires { number < length self.now }
        ensures { custom_at self.now result ≡ custom_at self.now number }
    {
        self.styles[number].custom
    }
}

impl TableStyle {
    /// Whether its custom properties are those of a style, if a number is given.
    fn shares(&self, custom: Option<usize>) -> bool
        ensures { IsTrue result → custom ≡ Some self.now.custom }
    {
        match custom {
            None => false,
            Some(number) => number == self.custom,
        }
    }
}

/// Keeps a number for a slot.
fn remember(slots: &mut Vec<usize>, slot: usize, number: usize) {
    if let Some(kept) = slots.get_mut(slot) {
        *kept = number;
    }
}
