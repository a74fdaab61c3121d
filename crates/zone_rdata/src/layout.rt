ghost use Rattle.std.specs.Prelude.{◌≡◌, option_map, slice_get};
ghost use Rattle.zone_rdata.specs.Builder.{part_at};
ghost use Rattle.zone_rdata.specs.Layout.{layout, fields_of};
ghost use Rattle.zone_rdata.specs.Words.{IsClass, IsKind};

use crate::class::Class;
use crate::field::Field;
use crate::kind::{Kind, row_in};

/// The fields of one type's data, in order.
#[derive(Clone, Copy, Debug)]
pub struct Layout {
    fields: &'static [Field],
}

/// The layout of a type's data in a class. `None`: the data is opaque.
pub fn layout_of(class: Class, kind: Kind) -> Option<Layout>
    ensures fields { option_map fields_of result ≡ layout class kind }
    ensures class { IsClass class }
    ensures kind { IsKind kind }
{
    class.known();
    kind.known();
    let row = row_in(class, kind)?;
    Some(Layout { fields: row.fields })
}

impl Layout {
    /// The fields in order.
    pub(crate) fn fields(self) -> &'static [Field]
        ensures { result.now ≡ fields_of self }
    {
        self.fields
    }

    /// The field at an index, from 0. `None` past the last.
    pub fn field(self, i: usize) -> Option<Field>
        ensures { result ≡ slice_get (fields_of self) i }
    {
        self.fields.get(i).copied()
    }

    /// The field of the part at an index, from 0. `None`: no part stands there.
    #[tactic(auto, using(crate::proofs::Octets::Building::ends_at))]
    pub(crate) fn part_at(self, place: usize) -> Option<Field>
        ensures { result ≡ part_at (fields_of self) place }
    {
        match self.fields.last()? {
            Field::Strings => self.field(place).or(Some(Field::Strings)),
            _ => self.field(place),
        }
    }
}
