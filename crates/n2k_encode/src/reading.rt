//! Whether data read back as the fields that a line gives.
ghost use Rattle.std.specs.Prelude.{◌≡◌, option_map};
ghost use Rattle.json.specs.Value.{value_view, items_view};
ghost use Rattle.n2k_table.specs.Repeat.{sets};
ghost use Rattle.n2k_table.specs.Shown.{shown_parts};
ghost use Rattle.n2k_encode.specs.Reading.{is_absent};

use crate::given::{given, given_sets};
use crate::shows::shows;
use json::Value;
use n2k_table::{Definition, Field, Repeat, Shown};

/// The rules by which data are compared with a line.
#[derive(Clone, Copy)]
pub(crate) struct Reading {
    /// Whether a number may be the nearest that its field can show.
    pub(crate) nearest: bool,
    /// Whether a field with `match` may show its value although the line does not give it.
    pub(crate) adding: bool,
}

/// Whether a field shows nothing.
fn is_absent(shown: Shown<'_>) -> bool
    ensures { result ≡ is_absent (shown_parts shown.entry) }
{
    matches!(shown, Shown::Absent)
}

impl Reading {
    ghost use Rattle.n2k_encode.specs.Reading.{field_shows, fields_show, first_wrong, given_sets_show, repeat_shows, sets_show, shows_all};

    /// Whether a field shows its given value, or nothing if none is given.
    #[tactic(auto, unfolding(crate::specs::Reading::field_shows))]
    fn field_shows(self, field: &Field, object: &Value<'_>, data: &[u8]) -> bool
        ensures { result ≡ field_shows self (value_view object.now) «data».now field.now }
    {
        let shown = field.shown(data);
        match given(object, field.name()) {
            Some(value) => shows(self.nearest, field, shown, value),
            None => is_absent(shown) || self.adding && field.match_value().is_some(),
        }
    }

    /// The first field that does not show its given value.
    pub(crate) fn first_wrong<'t>(
        self,
        fields: &'t [Field],
        object: &Value<'_>,
        data: &[u8],
    ) -> Option<&'t Field>
        ensures { option_map (λ f. f.now) result ≡ first_wrong self (value_view object.now) «data».now fields.now }
    {
        fields
            .iter()
            .find(|field| !self.field_shows(field, object, data))
    }

    /// Whether each field shows its given value.
    fn fields_show(self, fields: &[Field], object: &Value<'_>, data: &[u8]) -> bool
        ensures { result ≡ fields_show self (value_view object.now) «data».now fields.now }
    {
        fields
            .iter()
            .all(|field| self.field_shows(field, object, data))
    }

    /// Whether the data have as many sets as the line gives, and each set shows the given values.
    fn sets_show(self, repeat: &Repeat, wanted: &[Value<'_>], data: &[u8]) -> bool
        ensures { result ≡ sets_show self repeat.now.fields (items_view wanted.now) (sets repeat.now «data».now) }
    {
        let mut rest = repeat.from_first(data);
        for set in wanted {
            let Some((bytes, more)) = repeat.split_set(rest) else {
                return false;
            };
            if !self.fields_show(repeat.fields(), set, bytes) {
                return false;
            }
            rest = more;
        }
        repeat.split_set(rest).is_none()
    }

    /// Whether the sets in the data, if the definition has any, show the given sets.
    fn repeat_shows(self, repeat: Option<&Repeat>, object: &Value<'_>, data: &[u8]) -> bool
        ensures { result ≡ repeat_shows self (option_map (λ r. r.now) repeat.entry) (value_view object.now) «data».now }
    {
        let Some(repeat) = repeat else {
            return true;
        };
        match given_sets(object) {
            Some(sets) => self.sets_show(repeat, sets, data),
            None => false,
        }
    }

    /// Whether data show exactly the given fields and sets, by this definition.
    #[tactic(auto, unfolding(crate::specs::Reading::shows_all))]
    pub(crate) fn shows_all(
        self,
        definition: &Definition<'_>,
        object: &Value<'_>,
        data: &[u8],
    ) -> bool
        ensures { result ≡ shows_all self definition.now (value_view object.now) «data».now }
    {
        self.fields_show(definition.own_fields(), object, data)
            && self.repeat_shows(definition.repeated(), object, data)
    }
}
