//! What is made of the sheets of a session, and what is known of styles from one restyle to the next.

ghost use Rattle.std.specs.Prelude.{◌≡◌, IfOk, IsSome, OnOk};
ghost use Rattle.sheet_model.specs.Sources.{Sources};
ghost use Rattle.sheet_set.specs.View.{sources_seen};
ghost use Rattle.element_styler.specs.Fits.{Fits};
ghost use Rattle.element_styler.specs.declared.prepared.Prepared.{Prepared};
ghost use Rattle.style_session.specs.Lent.{FitsInputs, IsFor, IsRoot, IsRootStyle, KeepsTable, ServesInputs};
ghost use Rattle.style_session.specs.Sessions.{AreReady, KnowsNothing};

use element_styler::{Inputs, Prepared, RootStyle, Styler};
use invalidation_map::InvalidationMap;
use sheet_set::Sheets;
use std::alloc::Global;
use std::sync::Arc;
use stylo_base::{Fixed, NoMemory};

/// So many styles are kept from one restyle to the next, at most.
const MOST_STYLES: usize = 4_096;

/// What is made of the sheets of a session.
#[derive(Drop)]
pub(crate) struct Derived {
    /// What styling asks of them. None: it is made by the next restyle.
    pub prepared: Option<Prepared>,
    /// What marks elements. None: it is made by the next edit of the document.
    pub map: Option<InvalidationMap>,
    /// What is known of styles.
    pub cache: StyleCache,
}

impl Derived {
    /// Nothing is made or known yet. It serves a document of so many elements best.
    pub(crate) fn start(alloc: Global, elements: usize) -> Result<Derived, NoMemory>
        ensures { IfOk result (λ derived. (sources : Sources) → AreReady sources derived) }
    {
        let cache = StyleCache::start(alloc, elements)?;
        Ok(Derived {
            prepared: None,
            map: None,
            cache,
        })
    }

    /// Makes what styling asks of these sheets, where it isn't there.
    pub(crate) fn prepare(&mut self, alloc: Global, sheets: &Sheets) -> Result<(), NoMemory>
        requires { AreReady (sources_seen sheets.now) self.old }
        ensures there { OnOk result (IsSome self.new.prepared) }
        ensures ready { AreReady (sources_seen sheets.now) self.new }
    {
        if self.prepared.is_none() {
            self.prepared = Some(Prepared::of(alloc, sheets)?);
        }
        Ok(())
    }

    /// Makes what marks elements by these sheets, where it isn't there.
    pub(crate) fn make_map(&mut self, alloc: Global, sheets: &Sheets) -> Result<(), NoMemory>
        requires { AreReady (sources_seen sheets.now) self.old }
        ensures there { OnOk result (IsSome self.new.map) }
        ensures ready { AreReady (sources_seen sheets.now) self.new }
    {
        if self.map.is_none() {
            self.map = Some(InvalidationMap::of(alloc, sheets.selectors())?);
        }
        Ok(())
    }

    /// Forgets all, so that it is right for any sheets. It takes no memory.
    pub(crate) fn clear(&mut self)
        ensures { (sources : Sources) → AreReady sources self.new }
    {
        self.prepared = None;
        self.map = None;
        self.cache.clear();
    }
}

/// A styler, and the font size of the root for which what it knows is right.
#[derive(Drop)]
pub(crate) struct StyleCache {
    pub styler: Styler,
    pub size: Fixed,
}

impl StyleCache {
    /// Nothing is known yet. It serves a document of so many elements best.
    fn start(alloc: Global, elements: usize) -> Result<StyleCache, NoMemory>
        ensures { IfOk result KnowsNothing }
    {
        let slots = elements.clamp(64, MOST_STYLES).next_power_of_two();
        Ok(StyleCache {
            styler: Styler::start(alloc, slots)?,
            size: Fixed::clamp(16_000),
        })
    }

    /// Forgets all, so that it is right for any sheets. It takes no memory.
    fn clear(&mut self)
        ensures { KnowsNothing self.new }
    {
        self.styler.clear();
    }

    /// Forgets all where it has become large.
    fn limit(&mut self)
        ensures { (sources : Sources) (prepared : Prepared)
            → Fits sources self.old.size prepared self.old.styler
            → Fits sources self.new.size prepared self.new.styler }
    {
        if self.styler.len() > MOST_STYLES {
            self.styler.clear();
        }
    }

    /// Begins a restyle, which filters from the first element on or not. Where it has become large, it forgets all. It
    /// takes no memory.
    pub(crate) fn begin(&mut self, inputs: &Inputs<'_>, filters: bool)
        requires { FitsInputs inputs.now self.old }
        ensures { ServesInputs inputs.now self.new }
    {
        self.limit();
        self.styler
            .begin(filters && inputs.prepared.asks_ancestors());
    }

    /// From here on it filters, if it is time. It takes no memory.
    pub(crate) fn filter_if(&mut self, inputs: &Inputs<'_>, is_time: bool)
        requires { ServesInputs inputs.now self.old }
        ensures serves { ServesInputs inputs.now self.new }
        ensures kept { KeepsTable self.old self.new }
    {
        if is_time {
            self.styler.begin(inputs.prepared.asks_ancestors());
        }
    }

    /// Styles the root, and makes all right for its font size, which `rem` stands for. It gives the style by
    /// its number in the table.
    pub(crate) fn root(&mut self, inputs: &Inputs<'_>, root: u32) -> Result<usize, NoMemory>
        requires root { IsRoot inputs.now.doc.now root }
        requires serves { ServesInputs inputs.now self.old }
        ensures ok { IfOk result (λ style. IsRootStyle inputs.now root style self.new) }
        ensures serves { ServesInputs inputs.now self.new }
    {
        let RootStyle { style, size } = self.styler.root(inputs, root)?;
        let made = Arc::try_clone(self.styler.style(style))?;
        self.fit(size);
        self.styler.adopt(&made)
    }

    /// Makes it right for this font size of the root: what is known for another one is forgotten.
    pub(crate) fn fit(&mut self, size: Fixed)
        ensures { IsFor size self.old self.new }
    {
        if self.size == size {
            return;
        }
        self.styler.clear();
        self.size = size;
    }
}
