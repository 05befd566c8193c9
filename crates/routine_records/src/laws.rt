// The law of the headers of records.
ghost use Rattle.std.specs.Prelude.{◌≡◌, List, map, ℕ};
ghost use Rattle.acs_coverage.specs.declared.point.Point.{Point};
ghost use Rattle.acs_coverage.specs.declared.tally.Tally.{Tally};
ghost use Rattle.acs_telling.specs.declared.source.Source.{Source};
ghost use Rattle.flat_records.specs.declared.field.FieldValue.{FieldValue};
ghost use Rattle.sms_script.specs.declared.item.Item.{Item};
ghost use Rattle.routine_records.specs.EventRecords.{told_fields, told_names};
ghost use Rattle.routine_records.specs.PointRecords.{point_fields, point_names};
ghost use Rattle.routine_records.specs.declared.told.Told.{Told};

/// What stands before the records names their fields, in their order.
pub fn headers_name_fields()
    ensures told { (item : Item) (routine : FieldValue) (told : Told) →
        map (λ field. field.name) (told_fields item routine told) ≡ told_names }
    ensures points { (name : List ℕ) (source : Source) (point : Point) (tally : Tally) →
        map (λ field. field.name) (point_fields name source point tally) ≡ point_names }
{}
