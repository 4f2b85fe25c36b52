ghost use Rattle.std.specs.Prelude.{◌≡◌, IfOk, option_map};
ghost use Rattle.journal_printer.specs.Journal.{tree_file, tree_name, entry_puts};

use disp_model::{Entry, List, Memory, Text, Tree, Verdict};
use std::alloc::Global;
use text_puts::Put;
use tree_certificate::write_tree;

/// The text of the tree of an edition, as a file.
pub fn tree_file(
    alloc: Global,
    edition: u32,
    verdict: Verdict,
    tree: &Tree,
) -> Result<List<u8>, Memory>
    ensures { IfOk result (λ bytes. bytes ≡ tree_file edition (verdict, tree.now)) }
{
    let text = write_tree(alloc, edition, &verdict, tree)?;
    let bytes = text.as_str().as_bytes().to_vec(alloc)?;
    Ok(List::from_vec(bytes))
}

/// The name for the tree of an edition.
fn tree_name(alloc: Global, prefix: &Text, edition: u32) -> Result<Text, Memory>
    ensures { IfOk result (λ name. name ≡ tree_name prefix.now edition) }
{
    let prefix = prefix.as_str();
    let name = format!(in alloc; "{prefix}{edition}")?;
    Ok(Text::from_string(name))
}

/// What is to be put before the line of an entry, where trees are asked for.
pub(crate) fn entry_puts(
    alloc: Global,
    trees: Option<&Text>,
    entry: &Entry,
) -> Result<List<Put>, Memory>
    ensures { IfOk result (λ puts. puts
        ≡ entry_puts (option_map (λ prefix. prefix.now) trees.entry) entry.now) }
{
    let mut puts = List::new(alloc);
    if let (
        Some(prefix),
        Entry::Settled {
            edition,
            verdict,
            tree,
        },
    ) = (trees, entry)
    {
        puts.push(Put {
            name: tree_name(alloc, prefix, *edition)?,
            bytes: tree_file(alloc, *edition, *verdict, tree)?,
        })?;
    }
    Ok(puts)
}
