//! The style of an element over that of its parent, which most often is known from another element.

ghost use Rattle.std.specs.Prelude.{◌≡◌, ◌<◌, ℤ, IfOk, IfSome, IsTrue, OnOk, Some, [], true, false, length, option_map, slice_get, take};
ghost use Rattle.cascade_model.specs.Matching.{matching, matching_rules as all_matching};
ghost use Rattle.cascade_model.specs.StyleOf.{root_size_at};
ghost use Rattle.cascade_model.specs.Cascade.{cascaded};
ghost use Rattle.std.specs.Str.{chars};
ghost use Rattle.std.specs.Arc.{arc_value};
ghost use Rattle.value_model.specs.Style.{Style as Computed, font_size_of, initial_size, initial_style};
ghost use Rattle.style_value.specs.Parts.{custom_at};
ghost use Rattle.sheet_model.specs.Sources.{Sources};
ghost use Rattle.sheet_set.specs.View.{sources_seen};
ghost use Rattle.scene_model.specs.Document.{Document};
ghost use Rattle.scene_model.specs.Lookups.{IsElement};
ghost use Rattle.element_styler.specs.Cache.{AllRight, IsComputed, takes_of};
ghost use Rattle.element_styler.specs.MatchedRules.{declarations_of, declared_by};
ghost use Rattle.element_styler.specs.Prepared.{IsPrepared};
ghost use Rattle.element_styler.specs.declared.prepared.Prepared.{Prepared};
ghost use Rattle.element_styler.specs.Fits.{Fits};
ghost use Rattle.element_styler.specs.Follows.{Follows, IsReady, Serves};

use crate::above::Above;
use crate::cache::{Known, MatchedRulesCache, Over, StyleKey};
use crate::finder::Finder;
use crate::matched_rules::{MatchedRule, matching_rules};
use crate::matching::declarations;
use crate::prepared::Inputs;
use crate::style_attribute::{attach, declared_in};
use cascade_core::{CascadedDraft, Declarations, cascade_draft};
use property_table::{PropId, initial_size};
use std::alloc::Global;
use std::sync::Arc;
use style_value::{Style, StyleDraft, StyleTable};
use stylo_base::{Fixed, NoMemory};

/// Styles elements one by one, each after its parent. It keeps the styles in a table, each once, and
/// gives them by their numbers there. What it knows of them holds for one list of sheets and one font
/// size of the root: that it fits these is asked of each call, and holds after each, so that it serves
/// pass after pass until it is cleared. Its ancestors go with one document: each pass calls `begin` first.
#[derive(Drop)]
pub struct Styler {
    table: StyleTable,
    cache: MatchedRulesCache,
    /// The rules that match the element that is at hand.
    matched: Vec<MatchedRule>,
    /// What they were found by, selector by selector.
    hits: Vec<MatchedRule>,
    /// The ancestors of the element that is at hand.
    above: Above,
}

/// The style of the root, by its number, and its font size, which `rem` stands for (css-values-4,
/// section 6.1).
#[derive(Clone, Copy, Debug)]
pub struct RootStyle {
    /// The number of the style.
    pub style: usize,
    /// The font size.
    pub size: Fixed,
}

impl Styler {
    /// No style yet. Styles are found again by so many slots, up to 4,096: a power of two serves best.
    pub fn start(alloc: Global, slots: usize) -> Result<Styler, NoMemory>
        ensures table { IfOk result (λ styler. styler.table ≡ []) }
        ensures fits { (sources : Sources) (size : ℤ) (prepared : Prepared) → IsPrepared sources prepared
            → IfOk result (λ styler. Fits sources size prepared styler) }
    {
        Ok(Styler {
            table: StyleTable::start(alloc, slots)?,
            cache: MatchedRulesCache::start(alloc, slots)?,
            matched: Vec::new(alloc),
            hits: Vec::new(alloc),
            above: Above::start(alloc)?,
        })
    }

    /// Begins a pass over a document. Where it filters, it keeps the ancestors of each element that it styles, and
    /// passes over selectors that ask for names which none of them has; that serves where there are such selectors, and
    /// many elements are styled. It takes no memory.
    pub fn begin(&mut self, filters: bool)
        ensures table { self.new.table ≡ self.old.table }
        ensures fits { (sources : Sources) (size : ℤ) (prepared : Prepared)
            → Fits sources size prepared self.old → Fits sources size prepared self.new }
        ensures nothing { self.new.above.ancestors.elements ≡ [] }
        ensures follows { (doc : Document) → Follows doc.elements self.new.above }
    {
        self.above.begin(filters);
    }

    /// How many styles are kept.
    pub fn len(&self) -> usize
        ensures { result ≡ length self.now.table }
    {
        self.table.len()
    }

    /// Takes all styles out, and forgets what is known of them, so that it fits any size of the root.
    pub fn clear(&mut self)
        ensures table { self.new.table ≡ [] }
        ensures fits { (sources : Sources) (size : ℤ) (prepared : Prepared) → IsPrepared sources prepared
            → Fits sources size prepared self.new }
        ensures above { self.new.above ≡ self.old.above }
    {
        self.table.clear();
        self.cache.clear();
    }

    /// The number of a style that is kept elsewhere too.
    pub fn adopt(&mut self, style: &Arc<Style>) -> Result<usize, NoMemory>
        ensures style { IfOk result (λ number. slice_get self.new.table number ≡ Some (arc_value style.now)) }
        ensures kept { take (length self.old.table) self.new.table ≡ self.old.table }
        ensures fits { (sources : Sources) (size : ℤ) (prepared : Prepared)
            → Fits sources size prepared self.old → Fits sources size prepared self.new }
        ensures above { self.new.above ≡ self.old.above }
    {
        self.table.adopt(style)
    }

    /// The style with a number.
    pub fn style(&self, number: usize) -> &Arc<Style>
        requires { number < length self.now.table }
        ensures { slice_get self.now.table number ≡ Some (arc_value result.now) }
    {
        self.table.style(number)
    }

    /// Styles an element without a parent: over all initial values, with the initial font size for `rem`
    /// in `font-size`.
    pub fn root(&mut self, inputs: &Inputs<'_>, number: u32) -> Result<RootStyle, NoMemory>
        requires element { IsElement inputs.now.doc.now.elements number }
        requires ready { IsReady inputs.now self.old }
        ensures style { IfOk result (λ root. slice_get self.new.table root.style
            ≡ Some (cascaded true initial_style initial_size
            (matching inputs.now.doc.now.elements (sources_seen inputs.now.sheets.now) number))) }
        ensures size { IfOk result (λ root. root.size
            ≡ root_size_at inputs.now.doc.now.elements (sources_seen inputs.now.sheets.now) number) }
        ensures kept { take (length self.old.table) self.new.table ≡ self.old.table }
        ensures serves { (size : ℤ) → Fits (sources_seen inputs.now.sheets.now) size inputs.now.prepared.now self.old
            → Serves inputs.now size self.new }
    {
        self.match_rules(inputs, number)?;
        let text = inputs
            .doc
            .attribute_atom(number, &inputs.prepared.style_name);
        let initial = Style::initial(inputs.alloc)?;
        let cascaded = self.draft(inputs, text, &initial, initial_size(), true)?;
        let size = font_size(&cascaded.draft);
        let style = self.table.add(inputs.alloc, cascaded.draft)?;
        Ok(RootStyle { style, size })
    }

    /// The number of the style of an element over the style `parent` of its parent, where `rem` stands
    /// for `size`. It is looked for first among what was computed before.
    #[inline(always)]
    pub fn child(
        &mut self,
        inputs: &Inputs<'_>,
        number: u32,
        parent: usize,
        size: Fixed,
    ) -> Result<usize, NoMemory>
        requires element { IsElement inputs.now.doc.now.elements number }
        requires parent { parent < length self.old.table }
        requires serves { Serves inputs.now size self.old }
        ensures style { (over : Computed) → slice_get self.old.table parent ≡ Some over
            → IfOk result (λ style. slice_get self.new.table style ≡ Some (cascaded false over size
            (matching inputs.now.doc.now.elements (sources_seen inputs.now.sheets.now) number))) }
        ensures kept { take (length self.old.table) self.new.table ≡ self.old.table }
        ensures serves { Serves inputs.now size self.new }
    {
        self.match_rules(inputs, number)?;
        let text = inputs
            .doc
            .attribute_atom(number, &inputs.prepared.style_name);
        if let Some(style) = self.known(parent, text) {
            return Ok(style);
        }
        let computed = self.compute(inputs, text, parent, size)?;
        self.remember(parent, text, computed)?;
        Ok(computed.style)
    }

    /// Finds the rules that match an element. They replace those that are at hand.
    #[inline(always)]
    fn match_rules(&mut self, inputs: &Inputs<'_>, number: u32) -> Result<(), NoMemory>
        requires element { IsElement inputs.now.doc.now.elements number }
        requires ready { IsReady inputs.now self.old }
        ensures matched { OnOk result (declarations_of (sources_seen inputs.now.sheets.now) self.new.matched.items
            ≡ all_matching inputs.now.doc.now.elements (sources_seen inputs.now.sheets.now) number) }
        ensures follows { Follows inputs.now.doc.now.elements self.new.above }
        ensures rest { self.new ≡ record self.old {
          matched = self.new.matched;
          hits = self.new.hits;
          above = self.new.above;
        } }
    {
        self.above.reach(inputs.doc, number)?;
        let finder = Finder {
            doc: inputs.doc,
            sheets: inputs.sheets,
            map: &inputs.prepared.map,
            filter: self.above.filter(),
        };
        matching_rules(&mut self.matched, &mut self.hits, &finder, number)
    }

    /// The number of the style of an element that the rules at hand match, and whose `style` attribute has
    /// this text, over the style `parent`, if it is known.
    #[inline(always)]
    fn known(&self, parent: usize, text: Option<&str>) -> Option<usize>
        requires { parent < length self.now.table }
        ensures { (sources : Sources) (size : ℤ) (over : Computed) → AllRight sources size self.now.table self.now.cache
            → slice_get self.now.table parent ≡ Some over
            → IfSome result (λ style. slice_get self.now.table style ≡ Some (cascaded false over size
            (declared_by sources self.now.matched.items (option_map (λ t. chars t.now) text.entry)))) }
    {
        let by_part = StyleKey {
            over: Over::Part(self.table.part(parent)),
            matched: &self.matched,
            text,
        };
        if !by_part.is_short() {
            return None;
        }
        match self.cache.find(&by_part) {
            Known::Nothing => None,
            Known::Style(style) => Some(style),
            Known::Takes => self.known_alone(parent, text),
        }
    }

    /// The same for an element that takes more of its parent's style than what is inherited.
    fn known_alone(&self, parent: usize, text: Option<&str>) -> Option<usize>
        ensures { (sources : Sources) (size : ℤ) (over : Computed) → AllRight sources size self.now.table self.now.cache
            → slice_get self.now.table parent ≡ Some over
            → IfSome result (λ style. slice_get self.now.table style ≡ Some (cascaded false over size
            (declared_by sources self.now.matched.items (option_map (λ t. chars t.now) text.entry)))) }
    {
        let by_parent = StyleKey {
            over: Over::Parent(parent),
            matched: &self.matched,
            text,
        };
        match self.cache.find(&by_parent) {
            Known::Style(style) => Some(style),
            Known::Nothing | Known::Takes => None,
        }
    }

    /// Keeps what was computed for such an element: its style with the part of its parent's, or that it
    /// takes more, and its style with the parent's style.
    fn remember(
        &mut self,
        parent: usize,
        text: Option<&str>,
        computed: ComputedStyle,
    ) -> Result<(), NoMemory>
        requires { parent < length self.old.table }
        ensures right { (sources : Sources) (size : ℤ) (over : Computed) → slice_get self.old.table parent ≡ Some over
            → IsComputed size self.old.table over (declared_by sources self.old.matched.items
            (option_map (λ t. chars t.now) text.entry)) computed
            → AllRight sources size self.old.table self.old.cache
            → AllRight sources size self.old.table self.new.cache }
        ensures rest { self.new ≡ record self.old { cache = self.new.cache } }
    {
        let by_part = StyleKey {
            over: Over::Part(self.table.part(parent)),
            matched: &self.matched,
            text,
        };
        if !by_part.is_short() {
            return Ok(());
        }
        if !computed.takes {
            return self.cache.keep(&by_part, Known::Style(computed.style));
        }
        self.cache.keep(&by_part, Known::Takes)?;
        let by_parent = StyleKey {
            over: Over::Parent(parent),
            matched: &self.matched,
            text,
        };
        self.cache.keep(&by_parent, Known::Style(computed.style))
    }

    /// The number of the style of an element that the rules at hand match, and whose `style` attribute
    /// has this text, over the style `parent`, and whether it takes more of that than what is inherited:
    /// both are computed.
    fn compute(
        &mut self,
        inputs: &Inputs<'_>,
        text: Option<&str>,
        parent: usize,
        size: Fixed,
    ) -> Result<ComputedStyle, NoMemory>
        requires parent { parent < length self.old.table }
        ensures computed { (over : Computed) → slice_get self.old.table parent ≡ Some over
            → IfOk result (λ computed. IsComputed size self.new.table over
            (declared_by (sources_seen inputs.now.sheets.now) self.old.matched.items
            (option_map (λ t. chars t.now) text.entry)) computed) }
        ensures kept { take (length self.old.table) self.new.table ≡ self.old.table }
        ensures rest { self.new ≡ record self.old { table = self.new.table } }
    {
        let over = self.table.style(parent);
        let cascaded = self.draft(inputs, text, over, size, false)?;
        let takes = cascaded.takes;
        let style = self.add(inputs.alloc, cascaded, parent)?;
        Ok(ComputedStyle { style, takes })
    }

    /// The number of a style that was made over the style `parent`.
    fn add(
        &mut self,
        alloc: Global,
        cascaded: CascadedDraft,
        parent: usize,
    ) -> Result<usize, NoMemory>
        requires parent { parent < length self.old.table }
        requires custom { IsTrue cascaded.keeps_custom
            → custom_at self.old.table parent ≡ Some cascaded.draft.custom }
        ensures added { IfOk result (λ number. slice_get self.new.table number ≡ Some cascaded.draft) }
        ensures kept { take (length self.old.table) self.new.table ≡ self.old.table }
        ensures rest { self.new ≡ record self.old { table = self.new.table } }
    {
        if cascaded.keeps_custom {
            self.table.add_over(alloc, cascaded.draft, parent)
        } else {
            self.table.add(alloc, cascaded.draft)
        }
    }

    /// The style over another one of an element that the rules at hand match, and whose `style`
    /// attribute has this text, where `rem` stands for `size`; and whether the element takes more of
    /// that style than what is inherited.
    fn draft(
        &self,
        inputs: &Inputs<'_>,
        text: Option<&str>,
        over: &Style,
        size: Fixed,
        is_root: bool,
    ) -> Result<CascadedDraft, NoMemory>
        ensures style { IfOk result (λ made. made.draft ≡ cascaded is_root over.now size
            (declared_by (sources_seen inputs.now.sheets.now) self.now.matched.items
            (option_map (λ t. chars t.now) text.entry))) }
        ensures takes { IfOk result (λ made. made.takes ≡ takes_of over.now
            (declared_by (sources_seen inputs.now.sheets.now) self.now.matched.items
            (option_map (λ t. chars t.now) text.entry))) }
        ensures custom { IfOk result (λ made. IsTrue made.keeps_custom → made.draft.custom ≡ over.now.custom) }
    {
        let list = declarations(inputs.alloc, inputs.sheets, &self.matched)?;
        let declared = declared_in(inputs.alloc, text)?;
        let attached = attach(inputs.alloc, inputs.sheets.layers(), &declared)?;
        let declarations = Declarations {
            matched: &list,
            attached: &attached,
        };
        cascade_draft(inputs.alloc, declarations, over, size, is_root)
    }
}

/// A style that was computed.
#[derive(Clone, Copy)]
struct ComputedStyle {
    /// Its number.
    style: usize,
    /// Whether the element takes more of its parent's style than what is inherited.
    takes: bool,
}

/// The font size that a draft has.
fn font_size(draft: &StyleDraft) -> Fixed
    ensures { result ≡ font_size_of draft.now.values }
{
    draft.value(PropId::FontSize).font_size()
}
