//! Volumes are drawn in ASCII, each below its parent.

ghost use Rattle.std.specs.Prelude.{◌≡◌, ◌++◌, ◌∷◌, [], length, OnOk, IfOk};
ghost use Rattle.volume_model.specs.Volumes.{is_given_head};
ghost use Rattle.listing_text.specs.Forest as forest;
ghost use Rattle.listing_text.specs.Drawing as said;

use out_of_memory::Memory;
use std::alloc::Global;

/// A volume, with the words of its line.
#[derive(Debug, Drop)]
pub(crate) struct VolumeLine {
    pub head: u32,
    /// Its parent's head.
    pub parent: Option<u64>,
    /// What stands behind the art, to the end of the line.
    pub words: Vec<u8>,
}

/// A volume that is still to be drawn, with what is below it.
#[derive(Drop)]
struct Branch<'a> {
    line: &'a VolumeLine,
    /// The art of the lines above, which stands before its own.
    art: Vec<u8>,
    /// Whether no sibling comes behind it.
    last: bool,
    /// How many levels may be drawn below it.
    levels: usize,
}

/// What leads to a volume.
fn fork(last: bool) -> &'static [u8]
    ensures { result.now ≡ said.fork last }
{
    if last { b"`-" } else { b"|-" }
}

/// What stands under that in the lines below it.
fn stem(last: bool) -> &'static [u8]
    ensures { result.now ≡ said.stem last }
{
    if last { b"  " } else { b"| " }
}

/// Whether a volume's parent has this head.
fn is_child(line: &VolumeLine, head: u32) -> bool
    ensures { result ≡ is_given_head head line.now.parent }
{
    match line.parent {
        Some(parent) => parent == u64::from(head),
        None => false,
    }
}

/// Whether a volume's parent is none of the volumes.
fn is_root(lines: &[VolumeLine], line: &VolumeLine) -> bool
    ensures { result ≡ forest.is_root (said.nodes_of lines.now) (said.node_of line.now) }
{
    for above in lines {
        if is_child(line, above.head) {
            return false;
        }
    }
    true
}

/// Adds the children of a volume to those that are still to be drawn, so that the first of them is drawn next.
fn grow<'a>(
    alloc: Global,
    lines: &'a [VolumeLine],
    line: &VolumeLine,
    art: &[u8],
    levels: usize,
    left: &mut Vec<Branch<'a>>,
) -> Result<(), Memory>
    ensures { OnOk result (let nodes = said.nodes_of lines.now in said.lines_left nodes left.new.items
        ≡ said.drawn art.now (forest.below nodes levels (said.node_of line.now)) ++ said.lines_left nodes left.old.items) }
{
    if levels == 0 {
        return Ok(());
    }
    let mut last = true;
    let mut from = lines.len();
    while from > 0 {
        from -= 1;
        let child = &lines[from];
        if is_child(child, line.head) {
            left.push(Branch {
                line: child,
                art: art.to_vec(alloc)?,
                last,
                levels: levels - 1,
            })?;
            last = false;
        }
    }
    Ok(())
}

/// Draws a branch, and adds its children to those that are still to be drawn.
fn draw_branch<'a>(
    alloc: Global,
    lines: &'a [VolumeLine],
    branch: Branch<'a>,
    left: &mut Vec<Branch<'a>>,
    text: &mut Vec<u8>,
) -> Result<(), Memory>
    ensures line { OnOk result (text.new.items ≡ text.old.items ++ said.branch_line branch.entry) }
    ensures left { OnOk result (let nodes = said.nodes_of lines.now in said.lines_left nodes left.new.items
        ≡ said.lines_below nodes branch.entry ++ said.lines_left nodes left.old.items) }
{
    let Branch {
        line,
        mut art,
        last,
        levels,
    } = branch;
    text.extend_from_slice(&art)?;
    text.extend_from_slice(fork(last))?;
    text.extend_from_slice(&line.words)?;
    art.extend_from_slice(stem(last))?;
    grow(alloc, lines, line, &art, levels, left)
}

/// Draws what is below a volume.
fn draw_below(
    alloc: Global,
    lines: &[VolumeLine],
    line: &VolumeLine,
    text: &mut Vec<u8>,
) -> Result<(), Memory>
    ensures { OnOk result (let nodes = said.nodes_of lines.now in text.new.items ≡ text.old.items
        ++ said.joined (said.drawn [] (forest.below nodes (length nodes) (said.node_of line.now)))) }
{
    let mut left = Vec::new(alloc);
    grow(alloc, lines, line, &[], lines.len(), &mut left)?;
    while let Some(branch) = left.pop() {
        draw_branch(alloc, lines, branch, &mut left, text)?;
    }
    Ok(())
}

/// The drawing of volumes.
pub(crate) fn draw_tree(alloc: Global, lines: &[VolumeLine]) -> Result<Vec<u8>, Memory>
    ensures { IfOk result (λ text. text.items ≡ said.tree_text (said.nodes_of lines.now)) }
{
    let mut text = Vec::new(alloc);
    for line in lines {
        if is_root(lines, line) {
            text.extend_from_slice(&line.words)?;
            draw_below(alloc, lines, line, &mut text)?;
        }
    }
    Ok(text)
}
