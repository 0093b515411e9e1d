//! What stands before the tables: the policy, the style, and what the page is of.

ghost use Rattle.std.specs.Prelude.{◌≡◌, ◌++◌, OnOk};
ghost use Rattle.std.specs.String.{string_bytes};
ghost use Rattle.lot_page_report.specs.Counted.{days_in};
ghost use Rattle.lot_page_report.specs.Text.{count_html, days_html, digest_html, front_html, header_with, some_days_html, some_digest_html, within_html};

use crate::counted::Days;
use crate::style::STYLE;
use base64::engine::general_purpose::STANDARD;
use hex::encode;
use itoa::Buffer;
use lot_book_report::BookDigest;
use lot_html::{push_grouped, push_name, push_text};
use sha2::{Digest, Sha256};
use std::alloc::{AllocError, Global};

/// What a page begins with, behind its first line and up to the digest of its style.
const BEGIN: &str =
    "<html lang=\"en\">\n<head>\n<meta charset=\"utf-8\"/>\n<meta http-equiv=\"Content-Security-Policy\" content=\"default-src 'none'; style-src 'sha256-";

/// What stands between that and the name of the book.
const VIEWPORT: &str =
    "'\"/>\n<meta name=\"viewport\" content=\"width=device-width, initial-scale=1\"/>\n<title>";

/// The links to the parts of a page.
const LINKS: &str =
    "<nav>\n<ul>\n<li><a href=\"#years\">Gains by year</a></li>\n<li><a href=\"#commodities\">Gains by commodity</a></li>\n<li><a href=\"#holdings\">Holdings</a></li>\n<li><a href=\"#months\">Worth by month</a></li>\n<li><a href=\"#sales\">Sales</a></li>\n<li><a href=\"#journal\">Journal</a></li>\n</ul>\n</nav>\n";

/// Appends the head of a page. Its policy names the digest of the style, so that no other style
/// counts. The only error is out of memory.
pub(crate) fn push_front(alloc: Global, text: &mut String, name: &str) -> Result<(), AllocError>
    ensures { OnOk result (string_bytes text.new
        ≡ string_bytes text.old ++ front_html name.now) }
{
    let digest = Sha256::digest(STYLE);
    let policy = STANDARD.encode(alloc, &digest)?;
    text.push_str(BEGIN)?;
    push_text(text, policy.as_str())?;
    text.push_str(VIEWPORT)?;
    push_text(text, name)?;
    text.push_str("</title>\n<style>")?;
    text.push_str(STYLE)?;
    text.push_str("</style>\n</head>\n")
}

/// Appends what the page is of, with links to its parts. The only error is out of memory.
pub(crate) fn push_header(
    alloc: Global,
    text: &mut String,
    name: &str,
    days: Option<Days>,
    within: u64,
    count: u64,
    digest: &Option<BookDigest>,
) -> Result<(), AllocError>
    ensures { OnOk result (string_bytes text.new ≡ string_bytes text.old
        ++ header_with name.now (days_html (days_in days) within count) digest.now) }
{
    text.push_str("<header>\n<h1>")?;
    push_name(text, name)?;
    text.push_str("</h1>\n<p>")?;
    push_days(alloc, text, days, within, count)?;
    text.push_str("</p>\n")?;
    push_digest(alloc, text, digest)?;
    text.push_str(LINKS)?;
    text.push_str("</header>\n")
}

/// Appends the days that a page covers, and how many entries the book has.
fn push_days(
    alloc: Global,
    text: &mut String,
    days: Option<Days>,
    within: u64,
    count: u64,
) -> Result<(), AllocError>
    ensures { OnOk result (string_bytes text.new
        ≡ string_bytes text.old ++ days_html (days_in days) within count) }
{
    match days {
        Some(days) => push_some_days(alloc, text, days, within, count),
        None => text.push_str("No entries"),
    }
}

/// Appends days, and how many entries the book has.
fn push_some_days(
    alloc: Global,
    text: &mut String,
    days: Days,
    within: u64,
    count: u64,
) -> Result<(), AllocError>
    ensures { OnOk result (string_bytes text.new
        ≡ string_bytes text.old ++ some_days_html days.first days.last within count) }
{
    let first = days.first.text(alloc)?;
    push_text(text, first.as_str())?;
    text.push_str(" to ")?;
    let last = days.last.text(alloc)?;
    push_text(text, last.as_str())?;
    text.push_str(", ")?;
    push_within(text, within, count)?;
    push_grouped_count(text, count)?;
    text.push_str(" entries")
}

/// Appends how many entries are of the range, where not all are.
fn push_within(text: &mut String, within: u64, count: u64) -> Result<(), AllocError>
    ensures { OnOk result (string_bytes text.new
        ≡ string_bytes text.old ++ within_html within count) }
{
    if within == count {
        return Ok(());
    }
    push_grouped_count(text, within)?;
    text.push_str(" of ")
}

/// Appends the digest of the book, where one was asked for.
fn push_digest(
    alloc: Global,
    text: &mut String,
    digest: &Option<BookDigest>,
) -> Result<(), AllocError>
    ensures { OnOk result (string_bytes text.new
        ≡ string_bytes text.old ++ digest_html digest.now) }
{
    match digest {
        Some(digest) => push_some_digest(alloc, text, digest),
        None => Ok(()),
    }
}

/// Appends the digest of the book.
fn push_some_digest(alloc: Global, text: &mut String, digest: &BookDigest) -> Result<(), AllocError>
    ensures { OnOk result (string_bytes text.new
        ≡ string_bytes text.old ++ some_digest_html digest.now) }
{
    let digits = encode(alloc, &digest.sha256)?;
    text.push_str("<p>sha256 <code>")?;
    push_text(text, digits.as_str())?;
    text.push_str("</code></p>\n")
}

/// Appends a count for the eye. The only error is out of memory.
pub(crate) fn push_grouped_count(text: &mut String, count: u64) -> Result<(), AllocError>
    ensures { OnOk result (string_bytes text.new
        ≡ string_bytes text.old ++ count_html count) }
{
    let mut digits = Buffer::new();
    push_grouped(text, digits.format(count))
}
