//! The rules and layers that were collected so far.

ghost use Rattle.std.specs.Prelude.{◌≡◌, ◌+◌, ◌++◌, ◌∷◌, [], IfOk, OnOk, length, option_to_list};
ghost use Rattle.css_rules.specs.View.{context_of};
ghost use Rattle.layer_order.specs.View.{declarations, origin_of};
ghost use Rattle.sheet_model.specs.Sources.{all_placed, edition_of, sheet_layers};
ghost use Rattle.sheet_model.specs.StyleRules.{style_rule_of, style_rules_in};
ghost use Rattle.sheet_set.specs.Rules.{block_of, rule_count, rules_with, sheet_read};

use crate::parse_block::parse_block;
use crate::{SheetInput, SheetRule};
use css_rules::{Context, RuleKind, RuleReader, SheetEdition};
use css_tokens::Token;
use layer_order::{LayerName, Origin};
use selector_parser::selector_list;
use selector_types::Selector;
use std::alloc::Global;
use stylo_base::NoMemory;

/// Rules with the selectors of each, and layers as they are declared, each with its origin.
#[derive(Drop)]
pub(crate) struct RuleCollector {
    pub rules: Vec<SheetRule>,
    pub selectors: Vec<Vec<Selector>>,
    pub layers: Vec<(Origin, LayerName)>,
}

impl RuleCollector {
    /// No rules and no layers.
    pub fn new(alloc: Global) -> RuleCollector
        ensures empty { rules_with result.rules.items result.selectors.items ≡ [] }
        ensures paired { length result.rules.items ≡ length result.selectors.items }
        ensures layers { result.layers.items ≡ [] }
    {
        RuleCollector {
            rules: Vec::new(alloc),
            selectors: Vec::new(alloc),
            layers: Vec::new(alloc),
        }
    }

    /// Adds the rules and layers of a sheet's text.
    pub fn add_sheet(
        &mut self,
        alloc: Global,
        at: SheetEdition,
        sheet: &SheetInput,
    ) -> Result<(), NoMemory>
        requires { length self.old.rules.items ≡ length self.old.selectors.items }
        ensures adds { OnOk result (rules_with self.new.rules.items self.new.selectors.items
            ≡ rules_with self.old.rules.items self.old.selectors.items
            ++ all_placed (sheet_read at sheet.now) 0 0
            (style_rules_in (edition_of (sheet_read at sheet.now)) sheet.now.text)) }
        ensures layers { OnOk result (declarations self.new.layers.items
            ≡ declarations self.old.layers.items ++ sheet_layers (sheet_read at sheet.now)) }
        ensures paired { OnOk result (length self.new.rules.items ≡ length self.new.selectors.items) }
    {
        let mut index = 0;
        let mut reader = RuleReader::new(alloc, at, sheet.text.as_str())?;
        // The proof calls the loop by this label.
        'rules: while let Some(kind) = reader.next(alloc)? {
            match kind {
                RuleKind::Style => {
                    index = self.add_style(
                        alloc,
                        at,
                        sheet,
                        index,
                        reader.prelude(),
                        reader.block(),
                        reader.context(),
                    )?;
                }
                RuleKind::Layer => self.add_layer(sheet.origin, reader.context())?,
            }
        }
        Ok(())
    }

    /// Adds a qualified rule, unless its prelude is no list of selectors. Before it `index`
    /// declarations of its sheet are kept; the answer is how many are before the next one.
    fn add_style(
        &mut self,
        alloc: Global,
        at: SheetEdition,
        sheet: &SheetInput,
        index: u64,
        prelude: &[Token],
        block: &[Token],
        context: &Context,
    ) -> Result<u64, NoMemory>
        requires { length self.old.rules.items ≡ length self.old.selectors.items }
        ensures adds { OnOk result (rules_with self.new.rules.items self.new.selectors.items
            ≡ rules_with self.old.rules.items self.old.selectors.items
            ++ all_placed (sheet_read at sheet.now) 0 index
            (option_to_list (style_rule_of (block_of prelude.now block.now (context_of context.now))))) }
        ensures next { IfOk result (λ next. next ≡ index
            + rule_count (style_rule_of (block_of prelude.now block.now (context_of context.now)))) }
        ensures paired { OnOk result (length self.new.rules.items ≡ length self.new.selectors.items) }
        ensures layers { self.new.layers ≡ self.old.layers }
    {
        let Some(selectors) = selector_list(alloc, prelude)? else {
            return Ok(index);
        };
        let declarations = parse_block(alloc, block)?;
        let rule = SheetRule::new(
            alloc,
            declarations,
            sheet.origin,
            context.layer.share()?,
            at.sheet,
            index,
        )?;
        let next = rule.end();
        self.rules.push(rule)?;
        self.selectors.push(selectors)?;
        Ok(next)
    }

    /// Adds a layer that a sheet of this origin declares.
    fn add_layer(&mut self, origin: Origin, context: &Context) -> Result<(), NoMemory>
        ensures adds { OnOk result (declarations self.new.layers.items
            ≡ declarations self.old.layers.items ++ (origin_of origin, context.now.layer) ∷ []) }
        ensures rules { self.new.rules ≡ self.old.rules }
        ensures selectors { self.new.selectors ≡ self.old.selectors }
    {
        self.layers.push((origin, context.layer.share()?))?;
        Ok(())
    }
}
