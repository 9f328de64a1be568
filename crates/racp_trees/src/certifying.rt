//! Making a certificate.

ghost use Rattle.std.specs.Prelude.{◌≡◌, ◌++◌, ◌<◌, ◌≤◌, ℕ, [], None, IfOk, IfSome, IsTrue, length};
ghost use Rattle.racp_model.specs.Formed.{HasBounds};
ghost use Rattle.racp_model.specs.Terms.{AreTermsOf, release_of, due_of};
ghost use Rattle.racp_model.specs.Window.{IsRootWindow};
ghost use Rattle.racp_prices.specs.Units.{AreMostUnits};
ghost use Rattle.racp_trees.specs.Certificates.{IsCertificate};
ghost use Rattle.racp_trees.specs.Enough.{IsClaim};
ghost use Rattle.racp_trees.specs.Making.{HasAddedBlock, HasMadeBlock, IsGiven};
ghost use Rattle.racp_trees.specs.Records.{record_at};
ghost use Rattle.racp_trees.specs.Texts.{first_line, last_line};

use crate::before::{is_at_most, is_before};
use crate::claim::Claim;
use crate::enough::gap_until;
use crate::maker::{Maker, given_up};
use crate::reader::Ground;
use crate::writer::push_vector;
use racp_model::{Capacities, Stop, Window};
use racp_text::MOST_TEXT_BYTES;
use std::alloc::{AllocError, Global};

/// How many blocks a certificate has at most. One has 13 bytes or more.
const MOST_BLOCKS: usize = 1_290_555;

/// What a certificate is made of: what it is to prove, with the root window of the order, and capacities of which the
/// caller knows that they are not enough.
#[derive(Clone, Copy)]
struct Given<'a> {
    claim: Claim<'a>,
    root: &'a Window,
    hints: &'a [Vec<u32>],
}

/// A certificate that no capacities before these are enough; or `None` if none was made, since some capacities before
/// them are enough, it would have more than 16,777,216 bytes, the search for the next child of some node took more
/// than 1,000,000 steps, or the stop asked for it. The stop is asked at each line, in each search for a child, and in
/// the search for the next vector. Blocks are made while some vector up to the roofs
/// stands before the capacities and is above each block: for one of the hints at or above it, or else for a vector
/// before the capacities that is as great as can be. A hint is a capacity vector, by place from 0, of which the caller
/// knows that it is not enough; others cost the certificate. There are a roof, cut to the ceiling, and a capacity for
/// each resource, and the window is the root window of the order.
///
/// # Errors
///
/// Memory was refused.
pub fn certificate<S: Stop>(
    alloc: Global,
    claim: &Claim,
    root: &Window,
    hints: &[Vec<u32>],
    stop: &S,
) -> Result<Option<Vec<u8>>, AllocError>
    requires terms { AreTermsOf claim.now.net.now claim.now.order.now }
    requires root { IsRootWindow claim.now.net.now (release_of claim.now.order.now) (due_of claim.now.order.now) root.now }
    requires roofs { AreMostUnits claim.now.net.now claim.now.order.now claim.now.roofs.now }
    requires capacities { length claim.now.capacities.now ≡ claim.now.net.now.resources }
    ensures { IfOk result (λ text. IfSome text (λ text. IsCertificate claim.now.net.now claim.now.order.now claim.now.capacities.now text.items)) }
{
    let claim = *claim;
    let given = Given { claim, root, hints };
    let mut text = b"proof\n".to_vec(alloc)?;
    let is_made = push_rest(alloc, &given, &mut text, stop)?;
    Ok(if is_made { Some(text) } else { None })
}

/// Adds the lines after the first one. False if some block was not made, the text has too many bytes, or the stop asked
/// for it.
fn push_rest<S: Stop>(
    alloc: Global,
    given: &Given,
    text: &mut Vec<u8>,
    stop: &S,
) -> Result<bool, AllocError>
    requires given { IsGiven given.now }
    requires begun { text.old.items ≡ first_line }
    ensures { IfOk result (λ yes. IsTrue yes → IsCertificate given.now.claim.net.now given.now.claim.order.now given.now.claim.capacities.now text.new.items) }
{
    let mut maker = Maker::new(alloc, given.claim.net, given.root, stop)?;
    push_blocks(alloc, given, &mut maker, text)
}

/// Adds blocks until they are enough, and then the last line. False if some block was not made, the text has too many
/// bytes, or the stop asked for it.
fn push_blocks<S: Stop>(
    alloc: Global,
    given: &Given,
    maker: &mut Maker<'_, S>,
    text: &mut Vec<u8>,
) -> Result<bool, AllocError>
    requires given { IsGiven given.now }
    requires begun { text.old.items ≡ first_line }
    requires number { maker.old.reader.number ≡ 1 }
    requires closed { (number : ℕ) → record_at maker.old.reader.closed number ≡ None }
    requires branches { maker.old.reader.branches.items ≡ [] }
    ensures { IfOk result (λ yes. IsTrue yes → IsCertificate given.now.claim.net.now given.now.claim.order.now given.now.claim.capacities.now text.new.items) }
{
    let claim = &given.claim;
    prove!(claim.net.job_count() == claim.net.job_count());
    let mut blocks = Vec::new(alloc);
    for _ in 0..MOST_BLOCKS {
        let low = match gap_until(alloc, claim, &blocks, maker.stop) {
            Ok(low) => low,
            Err(unfound) => return given_up(unfound),
        };
        let Some(low) = low else {
            return push_end(text);
        };
        if !push_next(alloc, given, maker, &mut blocks, low, text)? {
            return Ok(false);
        }
    }
    Ok(false)
}

/// Adds the last line. False if the text has too many bytes.
fn push_end(text: &mut Vec<u8>) -> Result<bool, AllocError>
    ensures { IfOk result (λ _. text.new.items ≡ text.old.items ++ last_line) }
{
    text.extend_from_slice(b"end\n")?;
    Ok(text.len() <= MOST_TEXT_BYTES)
}

/// Adds a block above a vector that stands before the capacities. False if none was made.
fn push_next<S: Stop>(
    alloc: Global,
    given: &Given,
    maker: &mut Maker<'_, S>,
    blocks: &mut Vec<Vec<u32>>,
    low: Vec<u32>,
    text: &mut Vec<u8>,
) -> Result<bool, AllocError>
    requires claim { IsClaim given.now.claim }
    requires root { HasBounds given.now.claim.net.now given.now.root.now }
    requires low { length low.items ≡ given.now.claim.net.now.resources }
    requires branches { maker.old.reader.branches.items ≡ [] }
    requires room { maker.old.reader.number ≤ length text.old.items }
    ensures { IfOk result (λ yes. IsTrue yes → HasAddedBlock given.now.claim.net.now given.now.root.now maker.old.reader blocks.old.items text.old.items maker.new.reader blocks.new.items text.new.items) }
{
    let capacities = Capacities::new(vector_above(alloc, given, low)?);
    let ground = Ground {
        net: given.claim.net,
        root: given.root,
        capacities: &capacities,
    };
    if !push_block(alloc, maker, &ground, text)? {
        return Ok(false);
    }
    blocks.push(capacities.into_vec())?;
    Ok(true)
}

/// Adds the block of these capacities. False if none was made.
fn push_block<S: Stop>(
    alloc: Global,
    maker: &mut Maker<'_, S>,
    ground: &Ground,
    text: &mut Vec<u8>,
) -> Result<bool, AllocError>
    requires capacities { length ground.now.capacities.now ≡ ground.now.net.now.resources }
    requires root { HasBounds ground.now.net.now ground.now.root.now }
    requires branches { maker.old.reader.branches.items ≡ [] }
    requires room { maker.old.reader.number ≤ length text.old.items }
    ensures { IfOk result (λ yes. IsTrue yes → HasMadeBlock ground.now.net.now ground.now.capacities.now ground.now.root.now maker.old.reader text.old.items maker.new.reader text.new.items) }
{
    prove!(ground.net.job_count() == ground.net.job_count());
    push_vector(alloc, text, ground.capacities.as_slice())?;
    maker.make_tree(alloc, ground, text)
}

/// The first of the hints that is at or above a vector that stands before the capacities, or else a vector at or above
/// it that still does and is as great as can be.
fn vector_above(alloc: Global, given: &Given, low: Vec<u32>) -> Result<Vec<u32>, AllocError>
    requires claim { IsClaim given.now.claim }
    requires low { length low.items ≡ given.now.claim.net.now.resources }
    ensures { IfOk result (λ vector. length vector.items ≡ given.now.claim.net.now.resources) }
{
    for hint in given.hints {
        if is_above(hint, &low) {
            return hint.to_vec(alloc);
        }
    }
    let mut vector = low;
    raise_all(&given.claim, &mut vector);
    Ok(vector)
}

/// Whether a hint has a capacity for each place of a vector, and none that is less.
fn is_above(hint: &[u32], low: &[u32]) -> bool
    ensures { IsTrue result → length hint.now ≡ length low.now }
{
    hint.len() == low.len() && is_at_most(low, hint)
}

/// Raises the numbers of a vector, one place after another, each as far as the vector stands before the capacities.
fn raise_all(claim: &Claim, vector: &mut [u32])
    requires claim { IsClaim claim.now }
    requires vector { length vector.old ≡ claim.now.net.now.resources }
    ensures { length vector.new ≡ length vector.old }
{
    for k in 0..vector.len() {
        raise(claim, vector, k);
    }
}

/// Raises one number of a vector up to its roof, as far as the vector stands before the capacities.
fn raise(claim: &Claim, vector: &mut [u32], k: usize)
    requires claim { IsClaim claim.now }
    requires vector { length vector.old ≡ claim.now.net.now.resources }
    requires place { k < length vector.old }
    ensures { length vector.new ≡ length vector.old }
{
    let mut low = vector[k];
    let mut high = claim.roofs[k];
    while low < high {
        let middle = high - (high - low) / 2;
        vector[k] = middle;
        if is_before(claim, vector) {
            low = middle;
        } else {
            high = middle - 1;
        }
    }
    vector[k] = low;
}
