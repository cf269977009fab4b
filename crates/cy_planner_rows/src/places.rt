//! Where look-ups stand among the columns.

ghost use Rattle.std.specs.Prelude.{◌≡◌, ◌+◌, ◌≤◌, length};
ghost use Rattle.cy_planner_algebra.specs.WellFormed.{greatest_width};
ghost use Rattle.cy_planner_rows.specs.Places as spec;

use cy_planner_algebra::Attribute;

/// A look-up that is wanted: an attribute of the entity in a column.
#[derive(Drop)]
pub struct Wanted {
    pub column: usize,
    pub attribute: Attribute,
}

/// The column of a look-up, where those that are wanted stand from a column on; the column after them, if it isn't wanted.
pub fn place(first: usize, wanted: &[Wanted], column: usize, attribute: &Attribute) -> usize
    requires { first + length wanted.now ≤ greatest_width }
    ensures { result ≡ spec.place first wanted.now column attribute.now }
{
    let mut place = first;
    for other in wanted {
        if is_of(column, attribute, other) {
            return place;
        }
        place += 1;
    }
    place
}

/// Whether a look-up is the one of an attribute of the entity in a column.
fn is_of(column: usize, attribute: &Attribute, wanted: &Wanted) -> bool
    ensures { result ≡ spec.is_of column attribute.now wanted.now }
{
    wanted.column == column && same_attribute(&wanted.attribute, attribute)
}

fn same_attribute(left: &Attribute, right: &Attribute) -> bool
    ensures { result ≡ spec.same_attribute left.now right.now }
{
    match (left, right) {
        (Attribute::Property(key), Attribute::Property(other)) => key.as_str() == other.as_str(),
        (Attribute::RelType, Attribute::RelType) => true,
        (Attribute::Labels, Attribute::Labels) => true,
        _ => false,
    }
}
