//! Laws of the definitions that this crate's contracts cite, for the crates above.
ghost use Rattle.std.specs.Prelude.{◌≡◌, ◌↔◌, ◌<◌, ◌^◌, ℕ, List, [], ◌∷◌, IsTrue, false, codes, Some, Ok, Err};
ghost use Rattle.scim_version.specs.Tags.{IsEntityTag, is_entity_tag, strong_eq, version_tag};
ghost use Rattle.scim_version.specs.Conditions.{Spells, condition_of, holds_match};
ghost use Rattle.scim_version.specs.declared.tags.TagFault.TheVariants.{Malformed};
ghost use Rattle.scim_version.specs.declared.conditions.Condition.{Condition};
ghost use Rattle.scim_version.specs.declared.conditions.Condition.TheVariants.{AnyTag, Tags};

/// The tag of each version is a valid entity tag, and different versions have different tags.
pub fn version_tags_differ()
    ensures lawful { (n : ℕ) → n < 2 ^ 64 → IsEntityTag (version_tag n) }
    ensures strong { (m n : ℕ) → m < 2 ^ 64 → n < 2 ^ 64
        → (IsTrue (strong_eq (version_tag m) (version_tag n)) ↔ (m ≡ n)) }
    ensures zeros { strong_eq (codes "\"01\"") (version_tag 1) ≡ false }
    // So a condition on one version's tag holds for that version only.
    ensures alone { (m n : ℕ) → m < 2 ^ 64 → n < 2 ^ 64
        → (IsTrue (holds_match (Tags (version_tag m ∷ [])) (Some n)) ↔ (m ≡ n)) }
{}

/// `is_entity_tag` accepts exactly the tags of the grammar.
pub fn tags_are_spelled()
    ensures { (text : List ℕ) → (IsTrue (is_entity_tag text) ↔ IsEntityTag text) }
{}

/// `condition_of` reads exactly the lists of the grammar: a text spells at most one condition, and a tag
/// spells the list of itself.
pub fn lists_are_spelled()
    ensures spelled { (text : List ℕ) (condition : Condition) → condition_of text ≡ Ok condition
        → Spells text condition }
    ensures read { (text : List ℕ) (condition : Condition) → Spells text condition
        → condition_of text ≡ Ok condition }
    ensures one { (text : List ℕ) (c d : Condition) → Spells text c → Spells text d → c ≡ d }
    // Spaces and tabs around elements, and empty elements, are ignored; a tag may contain a comma.
    ensures tags { condition_of (codes "\t\"7\", ,W/\"1,2\" ,")
        ≡ Ok (Tags (codes "\"7\"" ∷ codes "W/\"1,2\"" ∷ [])) }
    ensures star { condition_of (codes "*,") ≡ Ok AnyTag }
    ensures stars { condition_of (codes "*, *") ≡ Err Malformed }
    ensures unquoted { condition_of (codes "1") ≡ Err Malformed }
    ensures tag { (tag : List ℕ) → IsEntityTag tag → Spells tag (Tags (tag ∷ [])) }
{}
