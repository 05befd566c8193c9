// Statements that are never begun.
ghost use Rattle.std.specs.Prelude.{◌≡◌, ◌++◌, OnOk};
ghost use Rattle.acs_lint.specs.Blocks.{behind_exit, behind_in};

use crate::exits::always_exits;
use crate::finding::Finding;
use acs_tree::Stmt;
use std::alloc::AllocError;

/// Finds the first statement of a block that stands behind one that always exits.
pub fn push_behind(found: &mut Vec<Finding>, block: &[Stmt]) -> Result<(), AllocError>
    ensures { OnOk result (found.new.items ≡ found.old.items ++ behind_in block.now) }
{
    let mut left = block;
    'statements: while let Some((statement, others)) = left.split_first() {
        if always_exits(statement) {
            return push_behind_exit(found, statement.at, others);
        }
        left = others;
    }
    Ok(())
}

fn push_behind_exit(found: &mut Vec<Finding>, since: u32, others: &[Stmt]) -> Result<(), AllocError>
    ensures { OnOk result (found.new.items ≡ found.old.items ++ behind_exit since others.now) }
{
    if let Some(next) = others.first() {
        found.push(Finding::Behind {
            statement: next.at,
            since,
        })?;
    }
    Ok(())
}
