// The first fault so far, with those of the nodes of statements, in the order of the text.
ghost use Rattle.std.specs.Prelude.{◌≡◌, ◌∷◌, ◌++◌, [], Some, map};
ghost use Rattle.acs_tree.specs.Nodes.{Left, Order, Part, Right, Target, entries_behind, values_behind, nodes_of};
ghost use Rattle.acs_tree.specs.Nodes.{nodes_of_cond, nodes_of_test, nodes_of_subject, nodes_of_code};
ghost use Rattle.acs_check.specs.Inner.Parts.{nodes_of_block, nodes_of_whens, nodes_of_optional};
ghost use Rattle.acs_check.specs.Inner.Walk.{walked};

use crate::earlier::Earlier;
use crate::named::{Named, subject_of};
use crate::nodes::{Best, code, entry, left, list_name, order, part, right, target, value};
use acs_tree::{Compare, Cond, Form, Kind, Operand, Ref, Stmt, When, WhenTest};
use desk_common::Boxed;

fn entries(kind: Kind, before: &Earlier<'_>, entries: &[Operand], best: Best) -> Best
    ensures { result ≡ walked kind before.now best (entries_behind 0 entries.now) }
{
    let mut best = best;
    for (count, operand) in entries.iter().enumerate() {
        best = entry(kind, before, count, operand, best);
    }
    best
}

#[tactic(auto, using(crate::proofs::WalkLemmas::walked_append))]
fn filter_list(
    kind: Kind,
    before: &Earlier<'_>,
    include: &[Operand],
    exclude: &[Operand],
    best: Best,
) -> Best
    ensures { result ≡ walked kind before.now best (entries_behind 0 include.now ++ entries_behind 0 exclude.now) }
{
    let best = entries(kind, before, include, best);
    entries(kind, before, exclude, best)
}

fn values(kind: Kind, before: &Earlier<'_>, target: &Ref, values: &[Operand], best: Best) -> Best
    ensures { result ≡ walked kind before.now best (values_behind target.now [] values.now) }
{
    let mut best = best;
    for index in 0..values.len() {
        let (earlier, later) = values.split_at(index);
        best = value(
            kind,
            before,
            target,
            earlier,
            &values[index],
            &later[1..],
            best,
        );
    }
    best
}

fn put(kind: Kind, before: &Earlier<'_>, reference: &Ref, operands: &[Operand], best: Best) -> Best
    ensures { result ≡
        walked kind before.now best (Target reference.now ∷ values_behind reference.now [] operands.now) }
{
    let best = target(kind, before, reference, best);
    values(kind, before, reference, operands, best)
}

fn parts(kind: Kind, before: &Earlier<'_>, parts: &[Operand], best: Best) -> Best
    ensures { result ≡ walked kind before.now best (map Part parts.now) }
{
    let mut best = best;
    for operand in parts {
        best = part(kind, before, operand, best);
    }
    best
}

fn items(
    kind: Kind,
    before: &Earlier<'_>,
    subject: &Option<Named<'_>>,
    items: &[Operand],
    best: Best,
) -> Best
    ensures { result ≡ walked kind before.now best (map (Right subject.now) items.now) }
{
    let mut best = best;
    for operand in items {
        best = right(kind, before, subject, operand, best);
    }
    best
}

fn exit_code(kind: Kind, before: &Earlier<'_>, exit: &Option<Operand>, best: Best) -> Best
    ensures { result ≡ walked kind before.now best (nodes_of_code exit.now) }
{
    match exit {
        None => best,
        Some(operand) => code(kind, before, operand, best),
    }
}

fn subject(kind: Kind, before: &Earlier<'_>, subject: &Option<Named<'_>>, best: Best) -> Best
    ensures { result ≡ walked kind before.now best (nodes_of_subject subject.now) }
{
    match subject {
        None => best,
        Some(reference) => left(kind, before, reference, best),
    }
}

#[tactic(auto, using(crate::proofs::WalkLemmas::cond_steps))]
fn condition(kind: Kind, before: &Earlier<'_>, cond: &Cond, best: Best) -> Best
    ensures { result ≡ walked kind before.now best (nodes_of_cond cond.now) }
{
    match cond {
        Cond::And(one, two) => {
            let best = condition(kind, before, one.get(), best);
            condition(kind, before, two.get(), best)
        }
        Cond::Or(one, two) => {
            let best = condition(kind, before, one.get(), best);
            condition(kind, before, two.get(), best)
        }
        Cond::Test {
            left: reference,
            op,
            op_at,
            right: operand,
        } => test(kind, before, reference, *op, *op_at, operand, best),
    }
}

fn test(
    kind: Kind,
    before: &Earlier<'_>,
    reference: &Ref,
    op: Compare,
    op_at: u32,
    operand: &Operand,
    best: Best,
) -> Best
    ensures { result ≡ walked kind before.now best
        (Left reference.now ∷ Order reference.now op op_at ∷ Right (Some reference.now) operand.now ∷ []) }
{
    let compared = Named::new(reference);
    let best = left(kind, before, &compared, best);
    let best = order(kind, before, &compared, op, op_at, best);
    right(kind, before, &Some(compared), operand, best)
}

fn when_test(
    kind: Kind,
    before: &Earlier<'_>,
    compared: &Option<Named<'_>>,
    test: &WhenTest,
    best: Best,
) -> Best
    ensures { result ≡ walked kind before.now best (nodes_of_test test.now compared.now) }
{
    match test {
        WhenTest::Any(operands) => items(kind, before, compared, operands.as_slice(), best),
        WhenTest::Holds(cond) => condition(kind, before, cond.get(), best),
    }
}

#[cycle(walk)]
#[tactic(auto, using(crate::proofs::WalkLemmas::form_steps))]
pub fn statement(current: &Stmt, kind: Kind, before: &Earlier<'_>, best: Best) -> Best
    ensures { result ≡ walked kind before.now best (nodes_of current.now) }
{
    match &current.form {
        Form::Filt {
            name,
            name_at,
            include,
            exclude,
        } => {
            let best = list_name(kind, before, name, *name_at, best);
            filter_list(kind, before, include.as_slice(), exclude.as_slice(), best)
        }
        Form::Put { target, values } => put(kind, before, target, values.as_slice(), best),
        Form::If {
            cond,
            yes,
            otherwise,
        } => {
            let cond = cond.get();
            let best = condition(kind, before, cond, best);
            let best = statement(yes.get(), kind, before, best);
            alternative(otherwise, kind, before, best)
        }
        Form::Pick {
            subject: reference,
            whens,
            otherwise,
        } => {
            let compared = subject_of(reference);
            let best = subject(kind, before, &compared, best);
            let best = when_clauses(whens.as_slice(), &compared, kind, before, best);
            alternative(otherwise, kind, before, best)
        }
        Form::Do(body) => block(body.as_slice(), kind, before, best),
        Form::Write(operands) => parts(kind, before, operands.as_slice(), best),
        Form::Exit { code: operand } => exit_code(kind, before, operand, best),
    }
}

#[cycle(walk)]
fn alternative(
    otherwise: &Option<Boxed<Stmt>>,
    kind: Kind,
    before: &Earlier<'_>,
    best: Best,
) -> Best
    ensures { result ≡ walked kind before.now best (nodes_of_optional otherwise.now) }
{
    match otherwise {
        None => best,
        Some(inner) => statement(inner.get(), kind, before, best),
    }
}

#[cycle(walk)]
fn block(body: &[Stmt], kind: Kind, before: &Earlier<'_>, best: Best) -> Best
    ensures { result ≡ walked kind before.now best (nodes_of_block body.now) }
{
    let mut best = best;
    'statements: for inner in body {
        best = statement(inner, kind, before, best);
    }
    best
}

#[cycle(walk)]
fn when_clauses(
    whens: &[When],
    compared: &Option<Named<'_>>,
    kind: Kind,
    before: &Earlier<'_>,
    best: Best,
) -> Best
    ensures { result ≡ walked kind before.now best (nodes_of_whens compared.now whens.now) }
{
    let mut best = best;
    'clauses: for when in whens {
        best = when_test(kind, before, compared, &when.test, best);
        best = statement(when.body.get(), kind, before, best);
    }
    best
}
