//! Reading a certificate, block by block.

ghost use Rattle.std.specs.Prelude.{◌≡◌, ◌↔◌, ◌+◌, ◌<◌, ◌^◌, ℕ, IfOk, IsErrOf, IsTrue, length};
ghost use Rattle.racp_model.specs.Formed.{HasBounds};
ghost use Rattle.racp_trees.specs.Texts.{last_line};
ghost use Rattle.racp_trees.specs.Certificates.{IsBlocksAnswer};
ghost use Rattle.racp_trees.specs.Reading.{IsNamed};
ghost use Rattle.racp_trees.specs.Nodes.{HasPlace};
ghost use Rattle.racp_trees.specs.Blocks.{IsBetween, IsBlockRead, AreBlocksRead};

use crate::closed::Closed;
use crate::patience::{Patience, UntilStopped};
use crate::reader::{Ground, Reader};
use crate::reading::{behind, read_vector};
use racp_model::{Capacities, Network, Stop, Unfound, Window};
use std::alloc::Global;

/// The capacity vectors of the blocks of a certificate's text, in their order, unless it is stopped; `None` if the text
/// is not one of blocks that hold with the root window. Whether the blocks are enough is not looked at. The stop is asked
/// at each line of a tree, and about each job that is chosen to go where the next child of a node is looked for.
///
/// # Errors
///
/// Memory was refused, or the stop said so; a quiet one never does.
pub fn block_vectors_until<S: Stop>(
    alloc: Global,
    net: &Network,
    root: &Window,
    text: &[u8],
    stop: &S,
) -> Result<Option<Vec<Vec<u32>>>, Unfound>
    requires root { HasBounds net.now root.now }
    ensures vectors { IfOk result (IsBlocksAnswer net.now root.now text.now) }
    ensures quiet { IsTrue (S.is_quiet stop.now) → IsErrOf result Unfound.Stopped → ⊥ }
{
    let Some(rest) = behind(text, "proof\n") else {
        return Ok(None);
    };
    let reader = Reader::new(alloc, root, Closed::for_text(alloc, rest)?)?;
    read_blocks(alloc, net, root, reader, rest, &UntilStopped { stop })
}

/// The vectors of the blocks that a text has up to its last line, or `None` if it has other lines.
fn read_blocks<P: Patience>(
    alloc: Global,
    net: &Network,
    root: &Window,
    reader: Reader,
    text: &[u8],
    patience: &P,
) -> Result<Option<Vec<Vec<u32>>>, Unfound>
    requires root { HasBounds net.now root.now }
    requires between { IsBetween net.now reader }
    requires places { (node : ℕ) → IsNamed text.now node → HasPlace reader.closed node }
    requires room { reader.number + length text.now < 2 ^ 64 }
    ensures quiet { IsTrue (P.is_quiet patience.now) → IsErrOf result Unfound.Stopped → ⊥ }
    ensures blocks { IfOk result (AreBlocksRead net.now root.now reader text.now) }
{
    let mut reader = reader;
    let mut vectors = Vec::new(alloc);
    let mut rest = text;
    while let Some((vector, more)) = read_block(alloc, net, root, &mut reader, rest, patience)? {
        vectors.push(vector)?;
        rest = more;
    }
    if is_last_line(rest) {
        Ok(Some(vectors))
    } else {
        Ok(None)
    }
}

/// Reads the block that a text begins with, and answers its vector and what stands after it; `None` if the text does
/// not begin with a block that holds.
fn read_block<'t, P: Patience>(
    alloc: Global,
    net: &Network,
    root: &Window,
    reader: &mut Reader,
    text: &'t [u8],
    patience: &P,
) -> Result<Option<(Vec<u32>, &'t [u8])>, Unfound>
    requires root { HasBounds net.now root.now }
    requires between { IsBetween net.now reader.old }
    requires places { (node : ℕ) → IsNamed text.now node → HasPlace reader.old.closed node }
    requires room { reader.old.number + length text.now < 2 ^ 64 }
    ensures quiet { IsTrue (P.is_quiet patience.now) → IsErrOf result Unfound.Stopped → ⊥ }
    ensures block { IfOk result (IsBlockRead net.now root.now reader.old text.now reader.new) }
{
    let Some((vector, more)) = read_vector(alloc, text, net.resource_count())? else {
        return Ok(None);
    };
    let capacities = Capacities::new(vector);
    let ground = Ground {
        net,
        root,
        capacities: &capacities,
    };
    match reader.read_tree(alloc, &ground, more, patience)? {
        Some(rest) => Ok(Some((capacities.into_vec(), rest))),
        None => Ok(None),
    }
}

/// Whether a text is the last line alone.
fn is_last_line(text: &[u8]) -> bool
    ensures { IsTrue result ↔ (text.now ≡ last_line) }
{
    match behind(text, "end\n") {
        Some(rest) => rest.is_empty(),
        None => false,
    }
}
