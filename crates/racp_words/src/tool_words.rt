//! What the words of `show`, `export` and `order` say.

ghost use Rattle.std.specs.Prelude.{◌≡◌, ◌≤◌, IfSome, codes};
ghost use Rattle.clap.specs.Words.{first_of, found_of, rows_of};
ghost use Rattle.racp_words.specs.Tools.{AreExportWords, are_several, AreTerms, IsForm, IsLook, IsNamedNet, IsWidth};

use crate::most::MOST_WIDTH;
use crate::options::{dates_of, is_set, number_of, path_of, text_of};
use crate::request::{ExportWords, Look, NamedNet, Terms};
use clap::ArgMatches;
use racp_show::Form;

/// How a plan is to be shown.
pub(crate) fn look_of<'a>(words: &ArgMatches<'a>) -> Look<'a>
    ensures { IsLook (rows_of (found_of words.now)) result }
{
    let width = width_of(words);
    Look {
        names: text_of(words, "names"),
        width,
        form: form_of(words),
        are_several: are_several(words),
        has_links: is_set(words, "links"),
        dates: dates_of(words),
    }
}

/// How many columns a line has at most, if an option says so.
fn width_of(words: &ArgMatches<'_>) -> Option<u64>
    ensures width { IsWidth (first_of (codes "width") (rows_of (found_of words.now))) result }
    ensures few { IfSome result (λ width. width ≤ 1000) }
{
    let word = text_of(words, "width")?;
    Some(number_of(Some(word), MOST_WIDTH, MOST_WIDTH))
}

/// What is to be written of a plan that is shown.
fn form_of(words: &ArgMatches<'_>) -> Form
    ensures { IsForm (rows_of (found_of words.now)) result }
{
    if is_set(words, "svg") {
        Form::Svg
    } else if is_set(words, "json") {
        Form::Json
    } else if is_set(words, "csv") {
        Form::Csv
    } else if is_set(words, "ascii") {
        Form::Ascii
    } else {
        Form::Text
    }
}

/// The words for a plan that is written for other programs.
pub(crate) fn export_of<'a>(words: &ArgMatches<'a>) -> ExportWords<'a>
    ensures { AreExportWords (rows_of (found_of words.now)) result }
{
    ExportWords {
        to: path_of(words, "to"),
        calendar: path_of(words, "calendar"),
        names: text_of(words, "names"),
    }
}

/// Whether more than one flag says what is to be written of a plan that is shown.
fn are_several(words: &ArgMatches<'_>) -> bool
    ensures { result ≡ are_several (rows_of (found_of words.now)) }
{
    let (svg, json) = (is_set(words, "svg"), is_set(words, "json"));
    let (csv, ascii) = (is_set(words, "csv"), is_set(words, "ascii"));
    (svg && (json || csv || ascii)) || (json && (csv || ascii)) || (csv && ascii)
}

/// The files of a network and of names.
pub(crate) fn named_net<'a>(words: &ArgMatches<'a>) -> NamedNet<'a>
    ensures { IsNamedNet (rows_of (found_of words.now)) result }
{
    NamedNet {
        net: path_of(words, "NET"),
        names: text_of(words, "names"),
    }
}

/// The words for the terms of an order.
pub(crate) fn terms_of<'a>(words: &ArgMatches<'a>) -> Terms<'a>
    ensures { AreTerms (rows_of (found_of words.now)) result }
{
    Terms {
        factor: text_of(words, "factor"),
        deadline: text_of(words, "deadline"),
        calendar: text_of(words, "calendar"),
        prices: path_of(words, "prices"),
        owned: text_of(words, "owned"),
        ceiling: text_of(words, "ceiling"),
    }
}
