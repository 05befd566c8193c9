// What routines leave as it was.
ghost use Rattle.desk_law.specs.Classification.{meanings_of};
ghost use Rattle.sms_classes.specs.Known.{LeavesOthers};

use acs_tree::Kind;
use deck_meaning::Config;

/// Tells a proof that the last three routines leave the classes of the other kinds.
pub fn leave_others(config: &Config)
    ensures storage { LeavesOthers (meanings_of config.now) Kind.StorClas }
    ensures management { LeavesOthers (meanings_of config.now) Kind.MgmtClas }
    ensures groups { LeavesOthers (meanings_of config.now) Kind.StorGrp }
{
    leaves_others(config, Kind::StorClas);
    leaves_others(config, Kind::MgmtClas);
    leaves_others(config, Kind::StorGrp);
}

fn leaves_others(config: &Config, kind: Kind)
    ensures { LeavesOthers (meanings_of config.now) kind }
{
    // Facts for the proof; nothing changes.
    let _deck = config.deck();
    let _code = config.code(kind);
}
