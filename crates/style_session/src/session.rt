//! A document with its style sheets, which takes edits and keeps the styles of its elements.

ghost use Rattle.std.specs.Prelude.{◌≡◌, ◌≤◌, ℕ, false, nat_eq, IfErr, IfOk, OnErr, OnOk, length};
ghost use Rattle.std.specs.List.{IsDistinct};
ghost use Rattle.base_model.specs.Limits.{element_limit, sheet_limit};
ghost use Rattle.scene_model.specs.Lookups.{IsElement};
ghost use Rattle.scene_model.specs.Numbers.{is_in};
ghost use Rattle.scene_model.specs.Scene.{elements_of};
ghost use Rattle.edit_model.specs.Edit.{IsShapedEdit};
ghost use Rattle.edit_model.specs.Refusal.{accepted};
ghost use Rattle.dom_edits.specs.EditView.{edit_seen};
ghost use Rattle.session_model.specs.Standing.{edited, kept_at, restyled, scene_applied, started};
ghost use Rattle.session_model.specs.StandingInvariant.{IsReached};
ghost use Rattle.style_session.specs.Answers.{IsAnswer, counts_of, refusal_of};
ghost use Rattle.style_session.specs.SessionView.{scene_from, scene_seen};

use crate::content::Content;
use crate::counts::Counts;
use crate::derived::Derived;
use crate::document_edits::edit_document;
use crate::first_restyle::restyle_first;
use crate::kept_styles::KeptStyles;
use crate::lists::Lists;
use crate::pending::Pending;
use crate::restyle::restyle;
use crate::sheet_edits::edit_sheets;
use dom_edits::Edit;
use dom_tree::{Doc, NodeList};
use element_styler::Inputs;
use io_edges::Gate;
use sheet_set::{SheetInput, Sheets};
use std::alloc::Global;
use std::marker::Model;
use std::thread::Threads;
use style_value::Style;
use stylo_base::{EditRefused, NoMemory};

/// The style that a session keeps of an element, or why it gives none.
#[derive(Clone, Copy)]
pub enum StyleAnswer<'a> {
    /// The style that the element has.
    Kept(&'a Style),
    /// The element or one above it was marked, or came or moved, since the last restyle.
    Stale,
    /// No element has this number.
    NoNode,
}

/// A document with its style sheets. It takes edits, styles again only what they can have changed, and
/// keeps the style of each element. Contracts see it as a standing: the scene, the elements that edits
/// have marked and made fresh since the last restyle, and the styles that were kept then.
#[derive(Drop)]
pub struct Session {
    /// The document and its sheets.
    content: Content,
    /// What edits have marked, made fresh and taken out since the last restyle.
    pending: Pending,
    /// The styles of the last restyle.
    kept: KeptStyles,
    /// What is made of the sheets.
    derived: Derived,
}

impl Model for Session {
    ghost use Rattle.session_model.specs.Standing.{Standing};
    ghost use Rattle.style_session.specs.Codes.{standing_code};
    ghost use Rattle.style_session.specs.SessionView.{standing_seen};
    ghost use Rattle.style_session.specs.Sessions.{IsSession};

    ghost Value = { Standing };

    ghost coded = { standing_code };

    ghost view = { λ s. standing_seen s.content.doc s.content.sheets s.pending s.kept };

    ghost invariant = { λ s. IsSession s.content s.pending s.kept s.derived };
}

impl Session {
    /// A session over a list of nodes and style sheets, of which there may be none. All elements are
    /// fresh. `workers` and `share` say how many threads a restyle is to use, from 1 to 64, and for how
    /// many elements styles are shared, from 0 to 64; neither changes any answer.
    pub fn start(
        alloc: Global,
        nodes: &NodeList,
        sheets: &[SheetInput],
        workers: u32,
        share: u32,
    ) -> Result<Session, NoMemory>
        requires nodes { length nodes.now ≤ element_limit }
        requires sheets { length sheets.now ≤ sheet_limit }
        requires workers { (1 ≤ workers) × (workers ≤ 64) }
        requires share { share ≤ 64 }
        ensures started { IfOk result (λ session. session ≡ started (scene_from nodes.now sheets.now)) }
        ensures reached { IfOk result IsReached }
    {
        let doc = Doc::start(alloc, nodes)?;
        let sheets = Sheets::start(alloc, sheets)?;
        Session::of_parts(alloc, doc, sheets, workers, share)
    }

    /// A session over a document and its sheets, which it takes over: nothing is copied.
    pub fn of_parts(
        alloc: Global,
        doc: Doc,
        sheets: Sheets,
        _workers: u32,
        _share: u32,
    ) -> Result<Session, NoMemory>
        requires workers { (1 ≤ _workers) × (_workers ≤ 64) }
        requires share { _share ≤ 64 }
        ensures started { IfOk result (λ session. session ≡ started (scene_seen doc sheets)) }
        ensures reached { IfOk result IsReached }
    {
        let derived = Derived::start(alloc, doc.in_tree_order().len())?;
        Ok(Session {
            content: Content { doc, sheets },
            pending: Pending::start(alloc),
            kept: KeptStyles::start(alloc),
            derived,
        })
    }

    /// Edits the document or its sheets, and marks the elements whose styles the edit may have changed. An
    /// error is the first refusal in the order of unknown elements and sheets, places and limits, and where
    /// there is none, that memory ran out; after it all is as it was.
    pub fn edit(&mut self, alloc: Global, edit: &Edit) -> Result<(), EditRefused>
        ensures accepted { OnOk result
            (scene_applied self.old.scene (edit_seen edit.now) ≡ accepted self.new.scene) }
        ensures ok { OnOk result (self.new ≡ edited self.old (edit_seen edit.now)) }
        ensures shaped { IsShapedEdit (edit_seen edit.now) }
        ensures reached { IsReached self.old → IsReached self.new }
        ensures refused { IfErr result (λ why. why ≡ refusal_of self.old.scene (edit_seen edit.now)) }
        ensures kept { OnErr result (self.new ≡ self.old) }
    {
        match edit {
            Edit::Document(edit) => edit_document(
                alloc,
                &mut self.content,
                &mut self.pending,
                &mut self.derived,
                edit,
            ),
            Edit::Sheets(edit) => edit_sheets(
                alloc,
                &mut self.content,
                &mut self.pending,
                &mut self.derived,
                edit,
            ),
        }
    }

    /// Styles again what edits since the last restyle can have changed, with one pass of the gate, of
    /// hand 0, before the style of each cascaded element is sought. The only error is that memory ran
    /// out; then all is as it was.
    pub fn restyle<R: Threads + Sync, G: Gate>(
        &mut self,
        _rt: &R,
        alloc: Global,
        gate: &G,
    ) -> Result<Counts, NoMemory>
        ensures ok { OnOk result (self.new ≡ restyled self.old) }
        ensures counts { IfOk result (λ counts. counts ≡ counts_of self.old) }
        ensures others { OnOk result ((x : ℕ) → IsElement (elements_of self.new.scene) x
            → is_in x self.new.recent ≡ false → kept_at self.new x ≡ kept_at self.old x) }
        ensures reached { IsReached self.old → IsReached self.new }
        ensures kept { OnErr result (self.new ≡ self.old) }
    {
        self.restyle_alone(alloc, gate)
    }

    /// The same on the calling thread, for a program that has no others.
    pub fn restyle_alone<G: Gate>(&mut self, alloc: Global, gate: &G) -> Result<Counts, NoMemory>
        ensures ok { OnOk result (self.new ≡ restyled self.old) }
        ensures counts { IfOk result (λ counts. counts ≡ counts_of self.old) }
        ensures others { OnOk result ((x : ℕ) → IsElement (elements_of self.new.scene) x
            → is_in x self.new.recent ≡ false → kept_at self.new x ≡ kept_at self.old x) }
        ensures reached { IsReached self.old → IsReached self.new }
        ensures kept { OnErr result (self.new ≡ self.old) }
    {
        if self.pending.is_settled() {
            self.kept.commit_none();
            self.kept.drop_gone(&self.content.doc, self.pending.gone());
            self.pending.clear_gone();
            return Ok(Counts::of_none());
        }
        self.derived.prepare(alloc, &self.content.sheets)?;
        let inputs = Inputs {
            alloc,
            doc: &self.content.doc,
            sheets: &self.content.sheets,
            prepared: self.derived.prepared.as_ref().unwrap(),
        };
        if self.pending.is_all_fresh() {
            self.kept = restyle_first(&inputs, &mut self.derived.cache, gate)?;
            // From here on nothing takes memory.
            self.pending.clear();
            return Ok(Counts::of_all(self.kept.recent()));
        }
        let lists = Lists {
            inputs: &inputs,
            pending: &self.pending,
            kept: &self.kept,
        };
        let news = restyle(&lists, &mut self.derived.cache, gate)?;
        let counts = Counts::of(&news.styled);
        self.kept.reserve(self.content.doc.last() + 1)?;
        // From here on nothing takes memory.
        self.kept.commit(news);
        self.kept.drop_gone(&self.content.doc, self.pending.gone());
        self.pending.clear();
        Ok(counts)
    }

    /// The style of the element with a number. It takes no memory.
    pub fn style(&self, n: u32) -> StyleAnswer<'_>
        ensures { IsAnswer self.now n result }
    {
        if !self.content.doc.contains(n) {
            return StyleAnswer::NoNode;
        }
        if self.pending.is_open(&self.content.doc, n) {
            return StyleAnswer::Stale;
        }
        match self.kept.style(n) {
            Some(style) => StyleAnswer::Kept(style),
            // What is not open keeps its style.
            None => StyleAnswer::Stale,
        }
    }

    /// The document.
    pub fn doc(&self) -> &Doc
        ensures { result.now ≡ self.now.scene.document }
    {
        &self.content.doc
    }

    /// The numbers of the elements that the last restyle cascaded, each once, in tree order as it was then. One that
    /// was removed since stays on the list.
    pub fn cascaded(&self) -> &[u32]
        ensures list { result.now ≡ self.now.recent }
        ensures once { IsDistinct nat_eq result.now }
    {
        self.kept.recent()
    }
}
