// Trees built from their parts. Each takes its parts by value and gives the whole.
ghost use Rattle.std.specs.Prelude.{◌≡◌, ◌++◌, ◌∷◌, [], IfOk};

use crate::routine::{Block, Operand, OperandForm, Operands, Ref, Stmt, When, Whens};
use std::alloc::AllocError;

/// The list with this operand at its end.
pub fn with_operand(list: Operands, operand: Operand) -> Result<Operands, AllocError>
    ensures { IfOk result (λ longer. longer ≡ list ++ operand ∷ []) }
{
    // Each part is named: the check has to see the types inside an operand where one is moved.
    let Operand { at, form } = operand;
    let form = match form {
        OperandForm::Var(
            Ref {
                at,
                name,
                index,
                index_at,
            },
        ) => OperandForm::Var(Ref {
            at,
            name,
            index,
            index_at,
        }),
        plain => plain,
    };
    let mut list = list;
    list.push(Operand { at, form })?;
    Ok(list)
}

/// The block with this statement at its end.
pub fn with_stmt(block: Block, stmt: Stmt) -> Result<Block, AllocError>
    ensures { IfOk result (λ longer. longer ≡ block ++ stmt ∷ []) }
{
    let mut block = block;
    block.push(stmt)?;
    Ok(block)
}

/// The WHENs with this one at their end.
pub fn with_when(whens: Whens, when: When) -> Result<Whens, AllocError>
    ensures { IfOk result (λ longer. longer ≡ whens ++ when ∷ []) }
{
    let mut whens = whens;
    whens.push(when)?;
    Ok(whens)
}
