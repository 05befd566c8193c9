// Whether a value of a deck has a form.
ghost use Rattle.std.specs.Prelude.{◌≡◌};
ghost use Rattle.toml.specs.View.{view};
ghost use Rattle.deck_meaning.specs.Values.{has_form};

use crate::values::{
    cylinders_in, device_in, eattr_in, group_status_in, integer_in, is_pool, name_in, space_in,
    volume_status_in, yes_or_no_in,
};
use deck_meaning::ValueForm;
use toml::Value;

/// Whether the value has the form.
pub fn fits(form: ValueForm, value: &Value) -> bool
    ensures { result ≡ has_form form (view value.now) }
{
    match form {
        ValueForm::Integer(least, most) => integer_in(value, least, most).is_some(),
        ValueForm::Text => value.is_str(),
        ValueForm::Flag => value.is_bool(),
        ValueForm::ConstructName => name_in(value).is_some(),
        ValueForm::SpaceText => space_in(value).is_some(),
        ValueForm::Pool => is_pool(value),
        ValueForm::GroupStatus => group_status_in(value).is_some(),
        ValueForm::VolumeStatus => volume_status_in(value).is_some(),
        ValueForm::Device => device_in(value).is_some(),
        ValueForm::Cylinders => cylinders_in(value).is_some(),
        ValueForm::YesOrNo => yes_or_no_in(value).is_some(),
        ValueForm::OptOrNo => eattr_in(value).is_some(),
    }
}
