//! The row of a resource.
ghost use Rattle.std.specs.Prelude.{◌≡◌, ◌≤◌, length};

use crate::attr_values::AttrValues;
use tk_ids::AttrValue;

/// The statistics of a resource, as tokio-console's resource statistics have them.
///
/// Moments are nanoseconds.
#[derive(Clone, Copy, Debug, PartialEq, Eq)]
pub struct ResourceRow {
    /// When the resource was created.
    pub created: u64,
    /// When the resource was closed.
    pub dropped: Option<u64>,
    /// How many handles were drawn: users and inspectors.
    pub handles: u64,
    /// The values of its attributes, in the order in which they were declared.
    pub attrs: AttrValues,
}

impl ResourceRow {
    ghost use Rattle.tk_core.specs.Resource.{opening_row};

    /// The row of a resource that was just created with these attributes, at most 6.
    pub fn opening(created: u64, values: &[AttrValue]) -> Self
        requires { length values.now ≤ 6 }
        ensures { result ≡ opening_row created values.now }
    {
        ResourceRow {
            created,
            dropped: None,
            handles: 0,
            attrs: AttrValues::new(values),
        }
    }
}
