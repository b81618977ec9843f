//! What a line on standard error is compared with.

use blob_tool::Status;
use host_io::{CallFailure, Ending, ErrorLine, ImageSizes};
use std::test::Fail;

/// The image of these lines: as many pages, and what its super block says of the store.
const SIZES: ImageSizes = ImageSizes {
    pages: 20,
    store_bytes: 262_144,
};

/// What is told of a run on an image, behind the command and the image.
pub(crate) fn expect(
    rt: &HostRuntime,
    ending: Ending,
    failure: Option<CallFailure>,
    code: u8,
    text: &str,
) -> Result<(), Fail> {
    let mut line = ErrorLine::new(Some("run"), Some("a.img"), ending);
    line.sizes = SIZES;
    line.failure = failure;
    let told = format!(in rt.alloc(); "{line}")?;
    let wanted = format!(in rt.alloc(); "blobtool: run a.img: {text}")?;
    if told.as_str() == wanted.as_str() && line.ending.code() == code {
        Ok(())
    } else {
        Err(Fail::new(told.as_str()))
    }
}
