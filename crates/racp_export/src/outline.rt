//! Where rows stand in an outline.

ghost use Rattle.std.specs.Prelude.{◌≡◌, ◌++◌, IfOk, OnOk, string_bytes};
ghost use Rattle.racp_export.specs.MsProject.{dotted, outline_number, path_to};

use std::alloc::{AllocError, Global};

/// Goes on from the path of a row to that of the next one, which has this number and this depth.
pub(crate) fn go_on(path: &mut Vec<usize>, id: usize, depth: usize) -> Result<(), AllocError>
    ensures { OnOk result (path.new.items ≡ path_to id depth path.old.items) }
{
    path.resize(depth, 0)?;
    path.push(id)?;
    Ok(())
}

/// The numbers of a path with a point between two, as `2.4`.
pub(crate) fn outline_of(alloc: Global, path: &[usize]) -> Result<String, AllocError>
    ensures { IfOk result (λ text. string_bytes text ≡ outline_number path.now) }
{
    let mut text = String::new(alloc);
    if let Some((first, rest)) = path.split_first() {
        write!(text, "{first}")?;
        push_dotted(&mut text, rest)?;
    }
    Ok(text)
}

/// Adds numbers with a point before each.
fn push_dotted(text: &mut String, path: &[usize]) -> Result<(), AllocError>
    ensures { OnOk result (string_bytes text.new ≡ string_bytes text.old ++ dotted path.now) }
{
    for id in path {
        write!(text, ".{id}")?;
    }
    Ok(())
}
