//! What is found by a rule map, as the contracts of functions that do nothing.

ghost use Rattle.std.specs.Prelude.{◌≡◌, [], ℕ, List, flat_map, map, slice_get};
ghost use Rattle.std.specs.List.Sorted.{IsPermutation};
ghost use Rattle.std.specs.Option.{option_map_or};
ghost use Rattle.scene_model.specs.Ancestors.{ancestors};
ghost use Rattle.scene_model.specs.Document.{Document};
ghost use Rattle.scene_model.specs.Valid.{IsValid};
ghost use Rattle.selector_model.specs.Holds.{holds};
ghost use Rattle.sheet_model.specs.Sources.{Sources};
ghost use Rattle.cascade_model.specs.Matching.{matching_rules, rule_matched};
ghost use Rattle.ancestor_filter.specs.Names.{StandsFor, slot};
ghost use Rattle.rule_map_model.specs.Buckets.{Bucket};
ghost use Rattle.rule_map_model.specs.Candidates.{candidates};
ghost use Rattle.rule_map_model.specs.Hits.{Hit, IsRising, folded, matched_by};
ghost use Rattle.rule_map_model.specs.Places.{AreLookedAt, IsMapOf, Place, hits_in};

/// The rules that are no candidates give nothing: the matching rules of an element are those among its candidates.
pub fn candidates_suffice()
    ensures { (doc : Document) (sources : Sources) (x : ℕ)
        → flat_map (λ i. option_map_or (rule_matched sources.layers (λ s. holds doc.elements s x))
        (slice_get sources.rules i) [])
        (candidates doc.elements x (map (λ rule. rule.selectors) sources.rules))
        ≡ matching_rules doc.elements sources x }
{}

/// What is found in the buckets that an element looks at is its matching rules: of each place that a filter of the
/// element's ancestors lets pass, the selector is tried, and what holds is sorted by rule; of one rule the greatest
/// specificity counts.
pub fn buckets_suffice()
    ensures { (doc : Document) (sources : Sources) (x : ℕ) (filter : List ℕ) (in_bucket : Bucket → List Place)
        (pieces : List (List Place)) (hits : List Hit)
        → IsValid doc.elements
        → StandsFor doc.elements (ancestors doc.elements x) filter
        → IsMapOf slot (map (λ rule. rule.selectors) sources.rules) in_bucket
        → AreLookedAt doc.elements x in_bucket pieces
        → IsPermutation
        (hits_in filter doc.elements x (map (λ rule. rule.selectors) sources.rules) pieces) hits
        → IsRising hits
        → flat_map (matched_by sources.layers sources.rules) (folded hits) ≡ matching_rules doc.elements sources x }
{}
