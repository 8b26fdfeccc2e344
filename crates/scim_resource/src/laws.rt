//! Laws of the definitions, with nothing to run.
ghost use Rattle.std.specs.Prelude.{◌≡◌, ℕ, List, true, Some, Ok, Err, codes};
ghost use Rattle.std.specs.Str.{IsUtf8};
ghost use Rattle.scim_key.specs.declared.records.Kind.{Kind};
ghost use Rattle.scim_key.specs.declared.records.Kind.TheVariants as kinds;
ghost use Rattle.serde_json.specs.Data.{Data, Members, array, member, object};
ghost use Rattle.serde_json.specs.Read.{read as value_of};
ghost use Rattle.serde_json.specs.View.{items_of};
ghost use Rattle.serde_json.specs.Written.{compact_text};
ghost use Rattle.scim_resource.specs.Contents.{content_kind, IsContent};
ghost use Rattle.scim_json.specs.Attributes.{attribute, repeats, same_name};
ghost use Rattle.scim_resource.specs.Alike.{Alike};
ghost use Rattle.scim_resource.specs.FirstPlaces.{KeepsFirsts, member_values};
ghost use Rattle.scim_resource.specs.Groups.{GroupRecord};
ghost use Rattle.scim_resource.specs.Looked.{IsLookedInto};
ghost use Rattle.scim_resource.specs.Reading.{content_in, read_content};
ghost use Rattle.scim_resource.specs.Rows.{IsShownOf, ShownRecord};
ghost use Rattle.scim_resource.specs.Showing.{read_shown};
ghost use Rattle.scim_resource.specs.Writing.{content_data, shown_data};
ghost use Rattle.scim_resource.specs.declared.contents.Content.{Content};
ghost use Rattle.scim_resource.specs.declared.contents.Content.TheVariants.{Group};
ghost use Rattle.scim_resource.specs.declared.faults.ContentFault.TheVariants.{InvalidSyntax};

/// A content that was read, once written, is read back as itself: from its value, and from its text as a
/// body.
pub fn text_reads_back()
    ensures spells { (c : Content) → IsContent c
        → value_of (compact_text (content_data c)) ≡ Some (content_data c) }
    ensures again { (c : Content) → IsContent c
        → read_content (content_kind c) (content_data c) ≡ Ok c }
    ensures sent { (c : Content) → IsContent c → IsUtf8 (compact_text (content_data c))
        → content_in (content_kind c) (compact_text (content_data c)) ≡ Ok c }
{}

/// The text of a shown resource spells it, and its content is read back from it. If the resource was read
/// itself, its id and version are read back too.
pub fn shown_reads_back()
    ensures spells { (base : List ℕ) (s : ShownRecord) → IsContent s.content
        → value_of (compact_text (shown_data base s)) ≡ Some (shown_data base s) }
    ensures again { (base : List ℕ) (s : ShownRecord) → IsContent s.content
        → read_content (content_kind s.content) (shown_data base s) ≡ Ok s.content }
    ensures whole { (kind : Kind) (base : List ℕ) (s : ShownRecord) → IsShownOf kind s
        → read_shown kind (shown_data base s) ≡ Ok s }
{}

/// A name that is repeated, in lower case, is refused before any wrong value. This holds for each object
/// that reading looks into: the body, the source extension, a user's enterprise extension, name or emails, a
/// group's members.
pub fn repeated_names_come_first()
    ensures { (kind : Kind) (ms inner : Members) → IsLookedInto kind ms inner → repeats inner ≡ true
        → read_content kind (object ms) ≡ Err InvalidSyntax }
{}

/// Each value of a group's `members` is kept once, at its first place, and none is lost.
pub fn repeated_members_are_kept_once()
    ensures { (ms : Members) (ds : List Data) (g : GroupRecord)
        → attribute (codes "members") ms ≡ Some (array (items_of ds))
        → read_content kinds.Group (object ms) ≡ Ok (Group g)
        → KeepsFirsts (member_values ds) g.members }
{}

/// Values that differ only in the case of names and the order of members are read the same: the body, a
/// name, emails, members or an extension.
pub fn alike_values_are_read_the_same()
    ensures same { (kind : Kind) (d e : Data) → Alike d e
        → read_content kind d ≡ read_content kind e }
    // A name may be spelled in another case.
    ensures renamed { (k l : List ℕ) (d : Data) (ms : Members) → same_name k l ≡ true
        → Alike (object (member k d ms)) (object (member l d ms)) }
{}
