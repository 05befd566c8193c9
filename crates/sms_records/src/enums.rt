//! Enums without fields as records.

use crate::numbers::{read_byte, write_byte};
use crate::record_err::RecordErr;
use crate::recorded::Recorded;
use acs_tree::Kind;
use sms_construct::{Action, Eattr, Stage, Status, Unit, WhyNoExtend};
use std::alloc::{AllocError, Global};

impl Recorded for Status {
    ghost use Rattle.sms_records.specs.Enums.{status_form};
    ghost use Rattle.sms_records.specs.Inner.EnumLaws.{status_exact};

    ghost form = { status_form };

    ghost exact = { status_exact };

    #[tactic(auto, using(crate::specs::Inner::EnumLaws::status_readable, crate::specs::Inner::FormLaws::on_ok))]
    fn write_to(&self, out: &mut Vec<u8>) -> Result<(), AllocError> {
        match self {
            Status::Enable => write_byte(0, out),
            Status::NotCon => write_byte(1, out),
            Status::DisAll => write_byte(2, out),
            Status::DisNew => write_byte(3, out),
            Status::QuiAll => write_byte(4, out),
            Status::QuiNew => write_byte(5, out),
        }
    }

    #[tactic(auto, using(crate::specs::Inner::VariantLaws::past_readers), unfolding(crate::specs::Form::variant_at))]
    fn read_from(_alloc: Global, bytes: &[u8]) -> Result<(Self, &[u8]), RecordErr> {
        let (tag, rest) = read_byte(bytes)?;
        match tag {
            0 => Ok((Status::Enable, rest)),
            1 => Ok((Status::NotCon, rest)),
            2 => Ok((Status::DisAll, rest)),
            3 => Ok((Status::DisNew, rest)),
            4 => Ok((Status::QuiAll, rest)),
            5 => Ok((Status::QuiNew, rest)),
            _ => Err(RecordErr::Bad),
        }
    }
}

impl Recorded for Action {
    ghost use Rattle.sms_records.specs.Enums.{action_form};
    ghost use Rattle.sms_records.specs.Inner.EnumLaws.{action_exact};

    ghost form = { action_form };

    ghost exact = { action_exact };

    #[tactic(auto, using(crate::specs::Inner::EnumLaws::action_readable, crate::specs::Inner::FormLaws::on_ok))]
    fn write_to(&self, out: &mut Vec<u8>) -> Result<(), AllocError> {
        match self {
            Action::Enable => write_byte(0, out),
            Action::Disable => write_byte(1, out),
            Action::DisableNew => write_byte(2, out),
            Action::Quiesce => write_byte(3, out),
            Action::QuiesceNew => write_byte(4, out),
        }
    }

    #[tactic(auto, using(crate::specs::Inner::VariantLaws::past_readers), unfolding(crate::specs::Form::variant_at))]
    fn read_from(_alloc: Global, bytes: &[u8]) -> Result<(Self, &[u8]), RecordErr> {
        let (tag, rest) = read_byte(bytes)?;
        match tag {
            0 => Ok((Action::Enable, rest)),
            1 => Ok((Action::Disable, rest)),
            2 => Ok((Action::DisableNew, rest)),
            3 => Ok((Action::Quiesce, rest)),
            4 => Ok((Action::QuiesceNew, rest)),
            _ => Err(RecordErr::Bad),
        }
    }
}

impl Recorded for Unit {
    ghost use Rattle.sms_records.specs.Enums.{unit_form};
    ghost use Rattle.sms_records.specs.Inner.EnumLaws.{unit_exact};

    ghost form = { unit_form };

    ghost exact = { unit_exact };

    #[tactic(auto, using(crate::specs::Inner::EnumLaws::unit_readable, crate::specs::Inner::FormLaws::on_ok))]
    fn write_to(&self, out: &mut Vec<u8>) -> Result<(), AllocError> {
        match self {
            Unit::Trk => write_byte(0, out),
            Unit::Cyl => write_byte(1, out),
        }
    }

    #[tactic(auto, using(crate::specs::Inner::VariantLaws::past_readers), unfolding(crate::specs::Form::variant_at))]
    fn read_from(_alloc: Global, bytes: &[u8]) -> Result<(Self, &[u8]), RecordErr> {
        let (tag, rest) = read_byte(bytes)?;
        match tag {
            0 => Ok((Unit::Trk, rest)),
            1 => Ok((Unit::Cyl, rest)),
            _ => Err(RecordErr::Bad),
        }
    }
}

impl Recorded for Eattr {
    ghost use Rattle.sms_records.specs.Enums.{eattr_form};
    ghost use Rattle.sms_records.specs.Inner.EnumLaws.{eattr_exact};

    ghost form = { eattr_form };

    ghost exact = { eattr_exact };

    #[tactic(auto, using(crate::specs::Inner::EnumLaws::eattr_readable, crate::specs::Inner::FormLaws::on_ok))]
    fn write_to(&self, out: &mut Vec<u8>) -> Result<(), AllocError> {
        match self {
            Eattr::No => write_byte(0, out),
            Eattr::Opt => write_byte(1, out),
        }
    }

    #[tactic(auto, using(crate::specs::Inner::VariantLaws::past_readers), unfolding(crate::specs::Form::variant_at))]
    fn read_from(_alloc: Global, bytes: &[u8]) -> Result<(Self, &[u8]), RecordErr> {
        let (tag, rest) = read_byte(bytes)?;
        match tag {
            0 => Ok((Eattr::No, rest)),
            1 => Ok((Eattr::Opt, rest)),
            _ => Err(RecordErr::Bad),
        }
    }
}

impl Recorded for WhyNoExtend {
    ghost use Rattle.sms_records.specs.Enums.{why_no_extend_form};
    ghost use Rattle.sms_records.specs.Inner.EnumLaws.{why_no_extend_exact};

    ghost form = { why_no_extend_form };

    ghost exact = { why_no_extend_exact };

    #[tactic(auto, using(crate::specs::Inner::EnumLaws::why_no_extend_readable, crate::specs::Inner::FormLaws::on_ok))]
    fn write_to(&self, out: &mut Vec<u8>) -> Result<(), AllocError> {
        match self {
            WhyNoExtend::Secondary => write_byte(0, out),
            WhyNoExtend::Room => write_byte(1, out),
        }
    }

    #[tactic(auto, using(crate::specs::Inner::VariantLaws::past_readers), unfolding(crate::specs::Form::variant_at))]
    fn read_from(_alloc: Global, bytes: &[u8]) -> Result<(Self, &[u8]), RecordErr> {
        let (tag, rest) = read_byte(bytes)?;
        match tag {
            0 => Ok((WhyNoExtend::Secondary, rest)),
            1 => Ok((WhyNoExtend::Room, rest)),
            _ => Err(RecordErr::Bad),
        }
    }
}

impl Recorded for Kind {
    ghost use Rattle.sms_records.specs.Enums.{kind_form};
    ghost use Rattle.sms_records.specs.Inner.EnumLaws.{kind_exact};

    ghost form = { kind_form };

    ghost exact = { kind_exact };

    #[tactic(auto, using(crate::specs::Inner::EnumLaws::kind_readable, crate::specs::Inner::FormLaws::on_ok))]
    fn write_to(&self, out: &mut Vec<u8>) -> Result<(), AllocError> {
        match self {
            Kind::DataClas => write_byte(0, out),
            Kind::StorClas => write_byte(1, out),
            Kind::MgmtClas => write_byte(2, out),
            Kind::StorGrp => write_byte(3, out),
        }
    }

    #[tactic(auto, using(crate::specs::Inner::VariantLaws::past_readers), unfolding(crate::specs::Form::variant_at))]
    fn read_from(_alloc: Global, bytes: &[u8]) -> Result<(Self, &[u8]), RecordErr> {
        let (tag, rest) = read_byte(bytes)?;
        match tag {
            0 => Ok((Kind::DataClas, rest)),
            1 => Ok((Kind::StorClas, rest)),
            2 => Ok((Kind::MgmtClas, rest)),
            3 => Ok((Kind::StorGrp, rest)),
            _ => Err(RecordErr::Bad),
        }
    }
}

impl Recorded for Stage {
    ghost use Rattle.sms_records.specs.Enums.{stage_form};
    ghost use Rattle.sms_records.specs.Inner.EnumLaws.{stage_exact};

    ghost form = { stage_form };

    ghost exact = { stage_exact };

    #[tactic(auto, using(crate::specs::Inner::EnumLaws::stage_readable, crate::specs::Inner::FormLaws::on_ok))]
    fn write_to(&self, out: &mut Vec<u8>) -> Result<(), AllocError> {
        match self {
            Stage::Scanner => write_byte(0, out),
            Stage::Parser => write_byte(1, out),
            Stage::Checks => write_byte(2, out),
        }
    }

    #[tactic(auto, using(crate::specs::Inner::VariantLaws::past_readers), unfolding(crate::specs::Form::variant_at))]
    fn read_from(_alloc: Global, bytes: &[u8]) -> Result<(Self, &[u8]), RecordErr> {
        let (tag, rest) = read_byte(bytes)?;
        match tag {
            0 => Ok((Stage::Scanner, rest)),
            1 => Ok((Stage::Parser, rest)),
            2 => Ok((Stage::Checks, rest)),
            _ => Err(RecordErr::Bad),
        }
    }
}
