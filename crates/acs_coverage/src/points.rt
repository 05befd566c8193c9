//! The points of a routine.
ghost use Rattle.std.specs.Prelude.{◌≡◌, ◌++◌, IfOk, OnOk, flat_map, map};
ghost use Rattle.acs_coverage.specs.Points.{comparisons_of, points_in, points_of, points_of_test};
ghost use Rattle.acs_coverage.specs.Points.{compared_with};
ghost use Rattle.acs_coverage.specs.Inner.Parts.{points_of_other, points_of_when};

use crate::point::{Point, Points};
use acs_tree::{Compare, Cond, Form, Operand, Ref, Routine, Stmt, When, WhenTest};
use desk_common::{Boxed, Items};
use std::alloc::{AllocError, Global};

/// The points of a routine, in the order of its text.
pub fn points_of(alloc: Global, routine: &Routine) -> Result<Points, AllocError>
    ensures { IfOk result (λ points. points ≡ points_of routine.now) }
{
    let mut points = Vec::new(alloc);
    block(&mut points, routine.body.as_slice())?;
    Ok(Items::from_vec(points))
}

#[cycle(walk)]
#[tactic(auto, using(crate::proofs::PointLemmas::form_steps))]
fn statement(points: &mut Vec<Point>, current: &Stmt) -> Result<(), AllocError>
    ensures { OnOk result (points.new.items ≡ points.old.items ++ points_in current.now) }
{
    points.push(Point::Statement(current.at))?;
    match &current.form {
        Form::If {
            cond,
            yes,
            otherwise,
        } => {
            condition(points, cond.get())?;
            statement(points, yes.get())?;
            alternative(points, otherwise)
        }
        Form::Pick {
            subject,
            whens,
            otherwise,
        } => {
            when_clauses(points, subject, whens.as_slice())?;
            alternative(points, otherwise)
        }
        Form::Do(body) => block(points, body.as_slice()),
        Form::Filt { .. } | Form::Put { .. } | Form::Write(_) | Form::Exit { .. } => Ok(()),
    }
}

// What is done otherwise, if anything.
#[cycle(walk)]
fn alternative(points: &mut Vec<Point>, otherwise: &Option<Boxed<Stmt>>) -> Result<(), AllocError>
    ensures { OnOk result (points.new.items ≡ points.old.items ++ points_of_other otherwise.now) }
{
    match otherwise {
        None => Ok(()),
        Some(inner) => statement(points, inner.get()),
    }
}

#[cycle(walk)]
fn block(points: &mut Vec<Point>, body: &[Stmt]) -> Result<(), AllocError>
    ensures { OnOk result (points.new.items ≡ points.old.items ++ flat_map points_in body.now) }
{
    'statements: for inner in body {
        statement(points, inner)?;
    }
    Ok(())
}

#[cycle(walk)]
fn when_clauses(
    points: &mut Vec<Point>,
    subject: &Option<Ref>,
    whens: &[When],
) -> Result<(), AllocError>
    ensures { OnOk result (points.new.items ≡ points.old.items ++
        flat_map (λ arm. points_of_when arm subject.now) whens.now) }
{
    'clauses: for arm in whens {
        points.push(Point::When(arm.at))?;
        when_test(points, subject, &arm.test)?;
        statement(points, arm.body.get())?;
    }
    Ok(())
}

// What a WHEN asks.
fn when_test(
    points: &mut Vec<Point>,
    subject: &Option<Ref>,
    test: &WhenTest,
) -> Result<(), AllocError>
    ensures { OnOk result (points.new.items ≡ points.old.items ++ points_of_test subject.now test.now) }
{
    match test {
        WhenTest::Holds(cond) => condition(points, cond.get()),
        WhenTest::Any(items) => match subject {
            None => Ok(()),
            Some(subject) => comparisons(points, subject, items.as_slice()),
        },
    }
}

fn comparisons(points: &mut Vec<Point>, subject: &Ref, items: &[Operand]) -> Result<(), AllocError>
    ensures { OnOk result (points.new.items ≡ points.old.items ++ map (compared_with subject.now) items.now) }
{
    for item in items {
        points.push(Point::Comparison {
            left: subject.at,
            op: Compare::Eq,
            right: item.at,
        })?;
    }
    Ok(())
}

#[tactic(auto, using(crate::proofs::PointLemmas::cond_steps))]
fn condition(points: &mut Vec<Point>, cond: &Cond) -> Result<(), AllocError>
    ensures { OnOk result (points.new.items ≡ points.old.items ++ comparisons_of cond.now) }
{
    match cond {
        Cond::And(one, two) | Cond::Or(one, two) => {
            condition(points, one.get())?;
            condition(points, two.get())
        }
        Cond::Test {
            left,
            op,
            right,
            ..
        } => {
            points.push(Point::Comparison {
                left: left.at,
                op: *op,
                right: right.at,
            })?;
            Ok(())
        }
    }
}
