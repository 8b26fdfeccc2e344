//! Laws of the definitions, with nothing to run.
ghost use Rattle.std.specs.Prelude.{◌≡◌, ◌≤◌, List, ℕ, length};
ghost use Rattle.scim_filter.specs.Expressions.{Expression};
ghost use Rattle.scim_filter.specs.Grammar.{Spells, text_limit, depth_limit};
ghost use Rattle.scim_filter.specs.Texts.{filter_text, nesting};
ghost use Rattle.scim_filter.specs.Keys.{KeysDecide};

/// No text spells two filters.
pub fn one_filter()
    ensures { (text : List ℕ) (e f : Expression) → Spells text e → Spells text f → e ≡ f }
{}

/// The text that is written for a filter spells it, if the text is within the limits.
pub fn text_spells()
    ensures { (e : Expression) → length (filter_text e) ≤ text_limit → nesting e ≤ depth_limit
        → Spells (filter_text e) e }
{}

/// A filter that names one record holds only for that record's rows.
pub fn keys_decide()
    ensures { KeysDecide }
{}
