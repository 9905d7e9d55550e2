//! What a reading shows, once for a line of text and for JSON.

ghost use Rattle.std.specs.Prelude.{◌≡◌, ◌++◌, ◌∷◌, []};
ghost use Rattle.std.specs.List.{flat_map};
ghost use Rattle.serde_json.specs.Data.{object, no_members};
ghost use Rattle.tso_terms.specs.Litmus.{Litmus};
ghost use Rattle.search_report.specs.inner.Contents.{field_text, with_fields};
ghost use Rattle.search_report.specs.inner.ShownExecutions.{reading_line, reading_value};

use crate::contents::{Content, Field};
use crate::readings::Reading;

/// `From P0:1 R y=0 initial`.
pub fn reading_fields(reading: &Reading) -> [Field<'_>; 2]
    ensures line { (t : Litmus) → flat_map (field_text t) result ++ (10 ∷ []) ≡ reading_line t reading.now }
    ensures value { (t : Litmus) → object (with_fields t result no_members) ≡ reading_value t reading.now }
{
    [
        ("From ", "read", Content::Event(&reading.read)),
        (" ", "write", Content::Source(&reading.write)),
    ]
}
