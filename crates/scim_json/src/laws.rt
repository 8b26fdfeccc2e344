//! Laws of the definitions, with nothing to run.
ghost use Rattle.std.specs.Prelude.{◌≡◌, ◌≤◌, Some};
ghost use Rattle.std.specs.Str.{IsUtf8};
ghost use Rattle.serde_json.specs.Data.{Data, depth};
ghost use Rattle.serde_json.specs.Read.{read, max_depth};
ghost use Rattle.serde_json.specs.Written.{compact_text};
ghost use Rattle.scim_json.specs.Plain.{IsPlain, HasUtf8};
ghost use Rattle.scim_json.specs.Parsing.{json_of};

/// Plain data has a text that spells it. If the data's texts are UTF-8, so is that text, and `json_of`
/// reads it as the data.
pub fn plain_text_reads_back()
    ensures spells { (d : Data) → IsPlain d → depth d ≤ max_depth
        → read (compact_text d) ≡ Some d }
    ensures utf8 { (d : Data) → IsPlain d → HasUtf8 d → IsUtf8 (compact_text d) }
    ensures again { (d : Data) → IsPlain d → depth d ≤ max_depth → IsUtf8 (compact_text d)
        → json_of (compact_text d) ≡ Some d }
{}
