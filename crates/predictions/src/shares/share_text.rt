//! The shares of a link as a line.

ghost use Rattle.std.specs.Prelude.{◌≡◌, ◌++◌, OnOk, codes};
ghost use Rattle.std.specs.Fmt.{decimal};
ghost use Rattle.predictions.specs.Shares.Texts.{below_words, from_words, share_line, share_text};
ghost use Rattle.predictions.specs.Shares.Texts.{share_words};

use crate::quantities::push_wide;
use crate::shares::share::LinkShare;
use crate::verdict::Verdict;
use std::alloc::AllocError;
use sweep_report::{end_line, push_field};

/// Returns what is told of shares with a verdict.
fn share_words(verdict: Verdict) -> &'static str
    ensures { result.now ≡ share_words verdict }
{
    match verdict {
        Verdict::Yes => "share of the link: converges at ",
        Verdict::No => "share of the link: does not converge at ",
        Verdict::Unknown => "share of the link: unknown at ",
        Verdict::Uncertain => "share of the link: uncertain at ",
    }
}

/// Appends a share from which on there are others.
fn push_span(text: &mut Vec<u8>, share: u64) -> Result<(), AllocError>
    ensures { OnOk result (text.new.items ≡ text.old.items ++ (decimal share ++ codes " to ")) }
{
    push_wide(text, share as u128)?;
    text.extend_from_slice(" to ".as_bytes())?;
    Ok(())
}

/// Appends the least of some shares, if it is not all of the link.
fn push_from(text: &mut Vec<u8>, share: u64) -> Result<(), AllocError>
    ensures { OnOk result (text.new.items ≡ text.old.items ++ from_words share) }
{
    if share == 100 {
        Ok(())
    } else {
        push_span(text, share)
    }
}

/// Appends the verdict at the share below some, if one is tried.
fn push_below(text: &mut Vec<u8>, share: u64, below: Option<Verdict>) -> Result<(), AllocError>
    ensures { OnOk result (text.new.items ≡ text.old.items ++ below_words share below) }
{
    match below {
        Some(other) => {
            push_field(text, "; at ", share.saturating_sub(1))?;
            text.extend_from_slice(" ".as_bytes())?;
            text.extend_from_slice(other.word().as_bytes())?;
            Ok(())
        }
        None => Ok(()),
    }
}

/// Appends the line on shares.
fn push_line(text: &mut Vec<u8>, found: &LinkShare) -> Result<(), AllocError>
    ensures { OnOk result (text.new.items ≡ text.old.items ++ share_line found.now) }
{
    text.extend_from_slice(share_words(found.verdict).as_bytes())?;
    push_from(text, found.share)?;
    text.extend_from_slice("100 per cent".as_bytes())?;
    push_below(text, found.share, found.below)?;
    end_line(text)?;
    Ok(())
}

/// Appends the shares of a link that have the verdict of all of it as a line, in ASCII, if that is known.
pub fn push_share(text: &mut Vec<u8>, found: &LinkShare) -> Result<(), AllocError>
    ensures { OnOk result (text.new.items ≡ text.old.items ++ share_text found.now) }
{
    if found.is_known() {
        push_line(text, found)
    } else {
        Ok(())
    }
}
