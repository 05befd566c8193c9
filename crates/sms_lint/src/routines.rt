// What is found in the routines of a configuration.
ghost use Rattle.std.specs.Prelude.{◌≡◌, ◌++◌, OnOk, Some};
ghost use Rattle.acs_lint.specs.Findings.{findings_of};
ghost use Rattle.sms_lint.specs.DeckFound.{found_in_kind, found_in_routine, found_in_routines, in_routine};

use crate::deck_finding::DeckFinding;
use acs_lint::{Finding, lint};
use acs_tree::{Checked, Kind};
use deck_meaning::Config;
use std::alloc::{AllocError, Global};

/// What is found in the four routines.
pub fn push_routines(
    alloc: Global,
    found: &mut Vec<DeckFinding>,
    config: &Config,
) -> Result<(), AllocError>
    ensures { OnOk result (found.new.items ≡ found.old.items ++ found_in_routines config.now) }
{
    push_kind(alloc, found, config, Kind::DataClas)?;
    push_kind(alloc, found, config, Kind::StorClas)?;
    push_kind(alloc, found, config, Kind::MgmtClas)?;
    push_kind(alloc, found, config, Kind::StorGrp)
}

// What is found in the routine of a kind, where there is one.
fn push_kind(
    alloc: Global,
    found: &mut Vec<DeckFinding>,
    config: &Config,
    kind: Kind,
) -> Result<(), AllocError>
    ensures { OnOk result (found.new.items ≡ found.old.items ++ found_in_kind config.now kind) }
{
    match config.source(kind) {
        None => Ok(()),
        Some(checked) => push_routine(alloc, found, kind, checked),
    }
}

fn push_routine(
    alloc: Global,
    found: &mut Vec<DeckFinding>,
    kind: Kind,
    checked: &Checked,
) -> Result<(), AllocError>
    ensures { OnOk result (found.new.items ≡ found.old.items ++ found_in_routine kind (Some checked.now)) }
{
    let findings = lint(alloc, checked.tree())?;
    push_findings(found, kind, findings.as_slice())
}

fn push_findings(
    found: &mut Vec<DeckFinding>,
    kind: Kind,
    findings: &[Finding],
) -> Result<(), AllocError>
    ensures { OnOk result (found.new.items ≡ found.old.items ++ in_routine kind findings.now) }
{
    for finding in findings {
        found.push(DeckFinding::InRoutine {
            kind,
            finding: *finding,
        })?;
    }
    Ok(())
}
