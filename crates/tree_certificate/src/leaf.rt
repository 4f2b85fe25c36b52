ghost use Rattle.std.specs.Prelude.{◌++◌, OnOk, codes, string_bytes};
ghost use Rattle.std.specs.List.{flat_map};
ghost use Rattle.plain_values.specs.Texts.{Adds};
ghost use Rattle.tree_certificate.specs.TreeTexts.{op_text, ops_text, walk_text, to_text, listed_text, leaf_text};

use disp_model::{ComponentWalk, Leaf, List, Memory, Op, TrainWalks};
use plain_values::push_text;

/// Adds an operation, with a space before each of its numbers.
pub(crate) fn push_op(text: &mut String, op: Op) -> Result<(), Memory>
    ensures { OnOk result (Adds (string_bytes text.old) (string_bytes text.new) (op_text op)) }
{
    let Op { train, op } = op;
    write!(text, " {train} {op}")?;
    Ok(())
}

/// Adds operations in their order.
fn push_ops(text: &mut String, ops: &[Op]) -> Result<(), Memory>
    ensures { OnOk result
        (Adds (string_bytes text.old) (string_bytes text.new) (ops_text ops.now)) }
{
    for op in ops {
        push_op(text, *op)?;
    }
    Ok(())
}

/// Adds a word and operations, as a line.
fn push_list(text: &mut String, word: &str, ops: &[Op]) -> Result<(), Memory>
    ensures { OnOk result (Adds (string_bytes text.old) (string_bytes text.new)
        (word.now ++ ops_text ops.now ++ codes "\n")) }
{
    push_text(text, word)?;
    push_ops(text, ops)?;
    push_text(text, "\n")
}

/// Adds the line of a walk to a component.
fn push_walk(text: &mut String, walk: &ComponentWalk) -> Result<(), Memory>
    ensures { OnOk result
        (Adds (string_bytes text.old) (string_bytes text.new) (walk_text walk.now)) }
{
    let component = walk.component;
    write!(text, "walk {component}")?;
    push_ops(text, walk.walk.as_slice())?;
    push_text(text, "\n")
}

/// Adds the lines of walks to components.
fn push_walks(text: &mut String, walks: &[ComponentWalk]) -> Result<(), Memory>
    ensures { OnOk result (Adds (string_bytes text.old) (string_bytes text.new)
        (flat_map walk_text walks.now)) }
{
    for walk in walks {
        push_walk(text, walk)?;
    }
    Ok(())
}

/// Adds the lines of a train's walks.
fn push_tos(text: &mut String, walks: &[List<Op>]) -> Result<(), Memory>
    ensures { OnOk result (Adds (string_bytes text.old) (string_bytes text.new)
        (flat_map to_text walks.now)) }
{
    for walk in walks {
        push_list(text, "to", walk.as_slice())?;
    }
    Ok(())
}

/// Adds the lines of a train.
fn push_train(text: &mut String, listed: &TrainWalks) -> Result<(), Memory>
    ensures { OnOk result
        (Adds (string_bytes text.old) (string_bytes text.new) (listed_text listed.now)) }
{
    let train = listed.train;
    let count = listed.walks.len();
    write!(text, "train {train} {count}\n")?;
    push_tos(text, listed.walks.as_slice())
}

/// Adds the lines of trains.
fn push_trains(text: &mut String, trains: &[TrainWalks]) -> Result<(), Memory>
    ensures { OnOk result (Adds (string_bytes text.old) (string_bytes text.new)
        (flat_map listed_text trains.now)) }
{
    for listed in trains {
        push_train(text, listed)?;
    }
    Ok(())
}

/// Adds the lines of a leaf that lists walks to components alone.
fn push_costs(text: &mut String, walks: &List<ComponentWalk>) -> Result<(), Memory>
    ensures { OnOk result (Adds (string_bytes text.old) (string_bytes text.new)
        (leaf_text (Leaf.Costs walks.now))) }
{
    let count = walks.len();
    write!(text, "costs {count}\n")?;
    push_walks(text, walks.as_slice())
}

/// Adds the lines of a leaf that lists walks to components, and trains.
fn push_shares(
    text: &mut String,
    walks: &List<ComponentWalk>,
    trains: &List<TrainWalks>,
) -> Result<(), Memory>
    ensures { OnOk result (Adds (string_bytes text.old) (string_bytes text.new)
        (leaf_text (Leaf.Shares walks.now trains.now))) }
{
    let count = walks.len();
    let train_count = trains.len();
    write!(text, "shares {count} {train_count}\n")?;
    push_walks(text, walks.as_slice())?;
    push_trains(text, trains.as_slice())
}

/// Adds the lines of a leaf.
pub(crate) fn push_leaf(text: &mut String, leaf: &Leaf) -> Result<(), Memory>
    ensures { OnOk result
        (Adds (string_bytes text.old) (string_bytes text.new) (leaf_text leaf.now)) }
{
    match leaf {
        Leaf::NoRoute => push_text(text, "noroute\n"),
        Leaf::Cycle(nodes) => push_list(text, "cycle", nodes.as_slice()),
        Leaf::Late(walk) => push_list(text, "late", walk.as_slice()),
        Leaf::Costs(walks) => push_costs(text, walks),
        Leaf::Shares { walks, trains } => push_shares(text, walks, trains),
    }
}
