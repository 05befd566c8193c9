// Statements that always exit.
ghost use Rattle.std.specs.Prelude.{◌≡◌};
ghost use Rattle.std.specs.List.{list_all, list_any};
ghost use Rattle.acs_trace.specs.Lint.{always_exits};
ghost use Rattle.acs_lint.specs.Inner.Exits.{other_exits, when_exits};

use acs_tree::{Form, Stmt, When};
use desk_common::Boxed;

/// Whether a statement ends by an EXIT whatever happens.
#[cycle(exits)]
#[tactic(auto, using(crate::proofs::ExitFormLemmas::exit_steps))]
pub fn always_exits(current: &Stmt) -> bool
    ensures { result ≡ always_exits current.now }
{
    match &current.form {
        Form::If { yes, otherwise, .. } => always_exits(yes.get()) && other_exits(otherwise),
        Form::Pick {
            whens,
            otherwise,
            ..
        } => whens_exit(whens.as_slice()) && other_exits(otherwise),
        Form::Do(block) => block_exits(block.as_slice()),
        Form::Exit { .. } => true,
        Form::Filt { .. } | Form::Put { .. } | Form::Write(_) => false,
    }
}

#[cycle(exits)]
fn other_exits(otherwise: &Option<Boxed<Stmt>>) -> bool
    ensures { result ≡ other_exits otherwise.now }
{
    match otherwise {
        None => false,
        Some(inner) => always_exits(inner.get()),
    }
}

// One of the statements always exits.
#[cycle(exits)]
fn block_exits(block: &[Stmt]) -> bool
    ensures { result ≡ list_any always_exits block.now }
{
    'statements: for inner in block {
        if always_exits(inner) {
            return true;
        }
    }
    false
}

// The statement of each WHEN always exits.
#[cycle(exits)]
fn whens_exit(whens: &[When]) -> bool
    ensures { result ≡ list_all when_exits whens.now }
{
    'clauses: for arm in whens {
        if !always_exits(arm.body.get()) {
            return false;
        }
    }
    true
}
