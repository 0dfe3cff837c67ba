//! Styles of elements, for their twins.

ghost use Rattle.std.specs.Prelude.{◌≡◌, [], IfOk, OnErr, OnOk, find, nat_eq, not, option_copied, option_map};
ghost use Rattle.std.specs.Arc.{arc_value};
ghost use Rattle.std.specs.Borrow.{sem};
ghost use Rattle.std.specs.Map.{lookup};
ghost use Rattle.lru.specs.LruCache.{promoted};
ghost use Rattle.scene_model.specs.Lookups.{IsElement};
ghost use Rattle.selector_types.specs.View.{rules_seen};
ghost use Rattle.sharing_model.specs.Siblings.{ask_for_siblings};
ghost use Rattle.sharing_model.specs.Share.{emptied, found, may_serve, placed, put_first, put_within, serving};
ghost use Rattle.sharing_model.specs.Twin.{is_twin};
ghost use Rattle.style_sharing.specs.Entries.{seen};

use crate::lets_share;
use crate::twins::are_twins;
use dom_tree::Doc;
use lru::LruCache;
use selector_types::Selector;
use std::alloc::Global;
use std::marker::Model;
use std::num::NonZeroUsize;
use std::sync::Arc;
use style_value::Style;
use stylo_base::NoMemory;

/// Styles by the numbers of their elements, the last used first. Contracts see how many entries there may be, whether
/// entries serve, and the entries. What it serves is right for one document and one list of rules: who edits either
/// begins anew.
#[derive(Drop)]
pub struct Share {
    serves: bool,
    /// None: no entry is kept.
    kept: Option<LruCache<u32, Arc<Style>>>,
}

impl Model for Share {
    ghost use Rattle.std.specs.Prelude.{[]};
    ghost use Rattle.std.specs.Option.{option_map_or};
    ghost use Rattle.std.specs.Arc.{arc_value};
    ghost use Rattle.sharing_model.specs.Share as model;
    ghost use Rattle.style_sharing.specs.Entries.{seen};

    ghost Value = { model.Share };

    ghost coded = { model.share_code };

    ghost view = { λ s. record {
      size = option_map_or (λ c. c.cap) s.kept 0;
      serves = s.serves;
      entries = option_map_or (λ c. seen arc_value c.entries) s.kept [];
    } };
}

impl Share {
    ghost use Rattle.style_sharing.specs.Ends.{EndsAs};

    /// No entry yet, and at most so many. They serve where no selector of these rules, of each of which the selectors
    /// are given, asks for siblings.
    pub fn start(alloc: Global, size: u32, rules: &[Vec<Selector>]) -> Result<Share, NoMemory>
        ensures { IfOk result (λ s. s
            ≡ record { size = size; serves = not (ask_for_siblings (rules_seen rules.now)); entries = [] }) }
    {
        let kept = match NonZeroUsize::new(size as usize) {
            Some(size) => Some(LruCache::new(alloc, size)?),
            None => None,
        };
        Ok(Share {
            serves: lets_share(rules),
            kept,
        })
    }

    /// Begins anew, with no entry: for another document, or other rules, of which `serves` tells whether entries serve
    /// (`lets_share`). It takes no memory.
    pub fn begin(&mut self, serves: bool)
        ensures { self.new ≡ emptied serves self.old }
    {
        self.serves = serves;
        if let Some(cache) = self.kept.as_mut() {
            cache.clear();
        }
    }

    /// Whether entries serve, and there may be some: else no look is worth its time, and no style need be put.
    #[inline]
    pub fn may_serve(&self) -> bool
        ensures { result ≡ may_serve self.now }
    {
        match &self.kept {
            Some(cache) => self.serves && 0 < cache.cap().get(),
            None => false,
        }
    }

    /// The style of the first entry that serves `x`, of a twin of it, which comes first. None: no entry serves `x`.
    pub fn find(&mut self, doc: &Doc, x: u32) -> Option<&Arc<Style>>
        requires { IsElement doc.now.elements x }
        ensures found { option_map arc_value (option_copied result)
            ≡ option_map (λ e. e.1) (serving doc.now.elements x self.old) }
        ensures* order { sem 𝓛 (EndsAs self.entry (found doc.now.elements x self.old)) }
    {
        let twin = self.bring(doc, x)?;
        self.style_of(twin)
    }

    /// The element of the first entry that serves `x`, which comes first: for who knows its style already.
    pub fn bring(&mut self, doc: &Doc, x: u32) -> Option<u32>
        requires { IsElement doc.now.elements x }
        ensures twin { result ≡ option_map (λ e. e.0) (serving doc.now.elements x self.old) }
        ensures order { self.new ≡ found doc.now.elements x self.old }
    {
        let twin = self.twin(doc, x)?;
        self.front(twin);
        Some(twin)
    }

    /// Keeps the style of `x`: first, in place of that of the twin whose entry serves `x`, else in place of its own or,
    /// in a full share, of the last. Where there is no memory nothing changes.
    pub fn put(&mut self, doc: &Doc, x: u32, style: &Arc<Style>) -> Result<(), NoMemory>
        requires { IsElement doc.now.elements x }
        ensures ok { OnOk result (self.new ≡ placed doc.now.elements x (arc_value style.now) self.old) }
        ensures err { OnErr result (self.new ≡ self.old) }
    {
        let key = self.twin(doc, x).unwrap_or(x);
        self.put_first(key, style)
    }

    /// Keeps a style under the number of its element, without a look for a twin: for who has looked, or knows that
    /// there is none. Where there is no memory nothing changes.
    pub fn put_first(&mut self, x: u32, style: &Arc<Style>) -> Result<(), NoMemory>
        ensures ok { OnOk result (self.new ≡ put_first (x, arc_value style.now) self.old) }
        ensures err { OnErr result (self.new ≡ self.old) }
    {
        match self.kept.as_mut() {
            Some(cache) => put_into(cache, x, Arc::try_clone(style)?),
            None => Ok(()),
        }
    }

    /// The element of the first entry that serves `x`.
    fn twin(&self, doc: &Doc, x: u32) -> Option<u32>
        requires { IsElement doc.now.elements x }
        ensures { result ≡ option_map (λ e. e.0) (serving doc.now.elements x self.now) }
    {
        match &self.kept {
            Some(cache) if self.serves => first_twin(cache, doc, x),
            _ => None,
        }
    }

    /// The entry of an element comes first, if there is one.
    #[tactic(auto, using(crate::proofs::SeenLemmas::promoted_seen))]
    fn front(&mut self, element: u32)
        ensures { self.new ≡ record self.old { entries = promoted (nat_eq element) self.old.entries } }
    {
        if let Some(cache) = self.kept.as_mut() {
            cache.promote(&element);
        }
    }

    /// The style that is kept for an element.
    #[tactic(auto, using(crate::proofs::SeenLemmas::lookup_seen))]
    fn style_of(&self, element: u32) -> Option<&Arc<Style>>
        ensures { option_map arc_value (option_copied result) ≡ lookup (nat_eq element) self.now.entries }
    {
        self.kept.as_ref()?.peek(&element)
    }
}

/// The element of the first entry of a twin of `x`.
fn first_twin(cache: &LruCache<u32, Arc<Style>>, doc: &Doc, x: u32) -> Option<u32>
    requires { IsElement doc.now.elements x }
    ensures { result ≡ option_map (λ e. e.0)
        (find (λ e. is_twin doc.now.elements e.0 x) (seen arc_value cache.now.entries)) }
{
    for (element, _) in cache.iter() {
        if are_twins(doc, *element, x) {
            return Some(*element);
        }
    }
    None
}

/// Puts an entry first, in place of that of the same element, or of the last of a full cache.
fn put_into(
    cache: &mut LruCache<u32, Arc<Style>>,
    x: u32,
    style: Arc<Style>,
) -> Result<(), NoMemory>
    ensures entries { OnOk result (seen arc_value cache.new.entries
        ≡ put_within cache.old.cap (seen arc_value cache.old.entries) (x, arc_value style)) }
    ensures cap { cache.new.cap ≡ cache.old.cap }
    ensures err { OnErr result (cache.new ≡ cache.old) }
{
    let _ = cache.len();
    match cache.put(x, style) {
        Ok(_) => Ok(()),
        Err(_) => Err(NoMemory),
    }
}
