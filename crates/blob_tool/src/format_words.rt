//! What `format` is asked for with.

ghost use Rattle.std.specs.Prelude.{◌≡◌, ◌<◌, IfSome};
ghost use Rattle.std.specs.Option.{option_copied};
ghost use Rattle.command_words.specs.Words.{texts_of};
ghost use Rattle.blob_tool.specs.FormatWords.{asked_cluster, asked_md_pages, asked_name, cluster_in, md_pages_in};
ghost use Rattle.blob_tool.specs.FormatWords.{of_options as of_options_said, store_name_in};

use command_words::FormatOptions;
use lvol_store::{check_name, uuid_in};
use script_lang::number_below;
use store_format::StoreName;

/// What a new store is to be like.
#[derive(Debug, Drop)]
pub struct Format {
    /// The pages of a cluster.
    pub cluster_pages: u32,
    /// The metadata pages; without a number there are as many as clusters.
    pub md_pages: Option<u32>,
    /// The name and the uuid of a logical volume store, if it is to be one.
    pub lvol: Option<StoreName>,
}

/// The pages of a cluster where no size is given: 1 MiB.
const DEFAULT_CLUSTER_PAGES: u32 = (1 << 20) / 4096;

/// The same in a logical volume store: 4 MiB.
const DEFAULT_LVOL_CLUSTER_PAGES: u32 = (4 << 20) / 4096;

/// The pages of a cluster of so many bytes, a multiple of 4096 above 0.
fn cluster_pages(bytes: &str) -> Option<u32>
    ensures { result ≡ cluster_in bytes.now }
{
    match number_below(1 << 44, bytes.as_bytes()) {
        Some(bytes) if bytes > 0 && bytes % 4096 == 0 => Some((bytes / 4096) as u32),
        _ => None,
    }
}

/// A number of metadata pages, at least one.
fn md_pages(pages: &str) -> Option<u32>
    ensures pages { result ≡ md_pages_in pages.now }
    ensures some { IfSome result (λ pages. 0 < pages) }
{
    match number_below(1 << 32, pages.as_bytes()) {
        Some(pages) if pages > 0 => Some(pages as u32),
        _ => None,
    }
}

/// The name and the uuid that two texts say.
fn store_name(name: &str, uuid: &str) -> Option<StoreName>
    ensures { result ≡ store_name_in name.now uuid.now }
{
    let Ok(name) = check_name(name.as_bytes()) else {
        return None;
    };
    match uuid_in(uuid.as_bytes()) {
        Some(uuid) => Some(StoreName { name, uuid }),
        None => None,
    }
}

/// The name and the uuid of a logical volume store, if both are there; `None` where one of them is missing.
fn lvol_of(name: Option<&str>, uuid: Option<&str>) -> Option<Option<StoreName>>
    ensures { result ≡ asked_name (option_copied name.entry) (option_copied uuid.entry) }
{
    match (name, uuid) {
        (Some(name), Some(uuid)) => match store_name(name, uuid) {
            Some(lvol) => Some(Some(lvol)),
            None => None,
        },
        (None, None) => Some(None),
        _ => None,
    }
}

/// The pages of a cluster, if its size has its form.
fn cluster_of(bytes: Option<&str>, is_lvol: bool) -> Option<u32>
    ensures { result ≡ asked_cluster is_lvol (option_copied bytes.entry) }
{
    match bytes {
        Some(bytes) => cluster_pages(bytes),
        None if is_lvol => Some(DEFAULT_LVOL_CLUSTER_PAGES),
        None => Some(DEFAULT_CLUSTER_PAGES),
    }
}

/// The number of metadata pages, if there is one, where it has its form.
fn md_pages_of(pages: Option<&str>) -> Option<Option<u32>>
    ensures pages { result ≡ asked_md_pages (option_copied pages.entry) }
    ensures some { IfSome result (λ pages. IfSome pages (λ n. 0 < n)) }
{
    match pages {
        Some(pages) => match md_pages(pages) {
            Some(pages) => Some(Some(pages)),
            None => None,
        },
        None => Some(None),
    }
}

/// What the options ask for; `None` where one isn't of its form, or of a name and a uuid one alone is there.
pub(crate) fn of_options(options: &FormatOptions<'_>) -> Option<Format>
    ensures format { result ≡ of_options_said (texts_of options.now) }
    ensures some_page { IfSome result (λ format. IfSome format.md_pages (λ pages. 0 < pages)) }
{
    let lvol = lvol_of(options.lvol, options.uuid)?;
    let cluster_pages = cluster_of(options.cluster, lvol.is_some())?;
    let md_pages = md_pages_of(options.md_pages)?;
    Some(Format {
        cluster_pages,
        md_pages,
        lvol,
    })
}
