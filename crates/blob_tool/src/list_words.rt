//! What `list` is asked for with.

ghost use Rattle.std.specs.Prelude.{◌≡◌};
ghost use Rattle.blob_tool.specs.ListWords.{format_by};

use listing_text::ListFormat;

/// The format that the options for JSON and for a tree say; `None` where both are there.
pub(crate) fn list_format(json: bool, tree: bool) -> Option<ListFormat>
    ensures { result ≡ format_by json tree }
{
    match (json, tree) {
        (false, false) => Some(ListFormat::Lines),
        (true, false) => Some(ListFormat::Json),
        (false, true) => Some(ListFormat::Tree),
        (true, true) => None,
    }
}
