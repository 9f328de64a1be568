//! The words of `verify`, and what they ask for.

ghost use Rattle.std.specs.Prelude.{◌≡◌, ℕ, List, Some, codes};
ghost use Rattle.clap.specs.Words.{found_of, rows_of};
ghost use Rattle.racp_words.specs.CommandLine.{IsRequested};

use crate::options::{path_of, text_of};
use crate::request::{BoundFiles, ProofFiles, Request};
use clap::ArgMatches;

/// What `verify` with these words asks for: with a certificate behind a plan that for the plan, and else that of a bound.
pub(crate) fn verify_of<'a>(words: &ArgMatches<'a>) -> Request<'a>
    ensures { (name : List ℕ) → name ≡ codes "verify" → IsRequested (Some (name, rows_of (found_of words.now))) result }
{
    let limit = text_of(words, "time-limit");
    match text_of(words, "PROOF") {
        Some(proof) => {
            let files = ProofFiles {
                net: path_of(words, "NET"),
                order: path_of(words, "ORDER"),
                plan: path_of(words, "PLAN"),
                proof,
            };
            Request::Verify(files, limit)
        }
        None => {
            let files = BoundFiles {
                net: path_of(words, "NET"),
                order: path_of(words, "ORDER"),
                proof: path_of(words, "PLAN"),
            };
            Request::VerifyBound(files, limit)
        }
    }
}
