//! A page that shows something, and one that says what is wrong.
ghost use Rattle.std.specs.Prelude.{◌≡◌, IfOk};
ghost use Rattle.desk_pages.specs.Shown.{filed, refusing, showing};

use desk_common::Items;
use http_flow::{Page, PageKind, PageStatus};
use page_text::error_body;
use std::alloc::{AllocError, Global};

/// A page that shows something.
pub fn shown(body: Items<u8>) -> Page
    ensures { result ≡ showing body }
{
    Page {
        status: PageStatus::Shown,
        kind: PageKind::Json,
        body,
    }
}

/// A page that says what is wrong.
pub fn refused(alloc: Global, status: PageStatus, sentence: &[u8]) -> Result<Page, AllocError>
    ensures { IfOk result (λ page. page ≡ refusing status sentence.now) }
{
    let body = error_body(alloc, sentence)?;
    Ok(Page {
        status,
        kind: PageKind::Json,
        body,
    })
}

/// A page that is a file.
pub fn filed(alloc: Global, kind: PageKind, file: &[u8]) -> Result<Page, AllocError>
    ensures { IfOk result (λ page. page ≡ filed kind file.now) }
{
    let mut body = Vec::new(alloc);
    body.extend_from_slice(file)?;
    Ok(Page {
        status: PageStatus::Shown,
        kind,
        body: Items::from_vec(body),
    })
}
